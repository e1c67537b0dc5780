// Division. The step has entered an exception where a divisor is zero, and where the widths of a vector
// form's types are unequal. Over zero the quotient would be zero and the remainder x.
ghost use Rattle.std.specs.Prelude.{◌≡◌, false};
ghost use Rattle.store.specs.Meaning.{Meaning};
ghost use Rattle.scalar.specs.Arithmetic.{division};
ghost use Rattle.flat.specs.Data.{shown_element};
ghost use Rattle.flat.specs.Machine.{with_data};
ghost use Rattle.flat.specs.Operations.{divide};
ghost use Rattle.flat.specs.Raising.{uneven};
ghost use Rattle.file.specs.Data.{stands as shows};
ghost use Rattle.file.specs.Machine.{stands};
ghost use Rattle.word.specs.declared.opcodes.Form.TheVariants.{Scalar, Vector};
ghost use Rattle.word.specs.declared.operations.Operation.TheVariants.{Div};
ghost use Rattle.engine.specs.Arithmetic.{AsWide, kind, quotients_of, remainders_of};

use crate::changes::{element, put_element, put_line};
use file::{DataRegisters, Machine};
use line::{divide_lines, zeros};
use scalar::{Division, cast, divide as divide_numbers};
use tags::Register;
use word::{ElementType, Form};

// The quotient and the remainder, which over zero are zero and x.
fn division(kind: ElementType, x: i128, y: i128) -> Division
    ensures { result ≡ division kind x y }
{
    divide_numbers(kind, x, y).unwrap_or(Division {
        quotient: 0,
        remainder: cast(kind, x),
    })
}

// The quotient and the remainder of a scalar form.
fn element_division(registers: &DataRegisters, a: Register, b: Register, c: Register) -> Division
    ensures { (m : Meaning) → result ≡ division (kind (shows registers.now m) a.number) (shown_element (shows registers.now m) b.number) (shown_element (shows registers.now m) c.number) }
{
    let kind = registers.register(a).kind;
    division(kind, element(registers, b), element(registers, c))
}

// A scalar form.
#[tactic(auto, unfolding(file::specs::Machine::stands, flat::specs::Operations::divide))]
fn divide_scalar(machine: &mut Machine, a: u8, b: u8, c: u8, d: u8)
    ensures { stands machine.new ≡ (λ m. with_data (divide Scalar a b c d (stands machine.old m)) (stands machine.old m)) }
{
    let mode = machine.control.mode;
    let a = Register::of(mode, a);
    let b = Register::of(mode, b);
    let c = Register::of(mode, c);
    let d = Register::of(mode, d);
    let made = element_division(&machine.registers, a, b, c);
    put_element(&mut machine.registers, a, made.quotient);
    put_element(&mut machine.registers, d, made.remainder);
}

// The lines of quotients and of remainders of a vector form.
#[tactic(auto, using(crate::proofs::Vectors::division_lines))]
fn line_division(
    registers: &DataRegisters,
    a: Register,
    b: Register,
    c: Register,
    quotients: &mut [u8; 128],
    remainders: &mut [u8; 128],
)
    requires first { (m : Meaning) → AsWide (shows registers.now m) a.number b.number }
    requires second { (m : Meaning) → AsWide (shows registers.now m) a.number c.number }
    ensures quotients { (m : Meaning) → quotients.new ≡ quotients_of (shows registers.now m) a.number b.number c.number }
    ensures remainders { (m : Meaning) → remainders.new ≡ remainders_of (shows registers.now m) a.number b.number c.number }
{
    let kind = registers.register(a).kind;
    let x = registers.bytes(b);
    let y = registers.bytes(c);
    divide_lines(kind, x, y, quotients, remainders);
}

// A vector form.
#[tactic(auto, using(crate::proofs::VectorForms::divide_forms))]
fn divide_vector(machine: &mut Machine, a: u8, b: u8, c: u8, d: u8)
    requires { (m : Meaning) → uneven (stands machine.old m) (Div Vector a b c d) ≡ false }
    ensures { stands machine.new ≡ (λ m. with_data (divide Vector a b c d (stands machine.old m)) (stands machine.old m)) }
{
    let mode = machine.control.mode;
    let a = Register::of(mode, a);
    let b = Register::of(mode, b);
    let c = Register::of(mode, c);
    let d = Register::of(mode, d);
    let mut quotients = zeros();
    let mut remainders = zeros();
    line_division(&machine.registers, a, b, c, &mut quotients, &mut remainders);
    put_line(&mut machine.registers, a, &quotients);
    put_line(&mut machine.registers, d, &remainders);
}

// Div: the quotient goes to dA, and then the remainder, cast, to dD.
pub(crate) fn divide(machine: &mut Machine, form: Form, a: u8, b: u8, c: u8, d: u8)
    requires { (m : Meaning) → uneven (stands machine.old m) (Div form a b c d) ≡ false }
    ensures { stands machine.new ≡ (λ m. with_data (divide form a b c d (stands machine.old m)) (stands machine.old m)) }
{
    match form {
        Form::Scalar => divide_scalar(machine, a, b, c, d),
        Form::Vector => divide_vector(machine, a, b, c, d),
    }
}
