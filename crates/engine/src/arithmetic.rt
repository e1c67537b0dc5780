// Arithmetic and reductions. A vector form is carried out where the widths of its registers' types are
// equal; the step has entered an exception where they are not.
ghost use Rattle.std.specs.Prelude.{◌≡◌, false, pos};
ghost use Rattle.scalar.specs.Casts.{cast};
ghost use Rattle.store.specs.Meaning.{Meaning};
ghost use Rattle.flat.specs.Machine.{with_data};
ghost use Rattle.flat.specs.Operations.{arithmetic, add_address, data_after};
ghost use Rattle.flat.specs.Raising.{uneven};
ghost use Rattle.file.specs.Data.{stands as shows};
ghost use Rattle.file.specs.Machine.{stands};
ghost use Rattle.word.specs.declared.opcodes.Form.TheVariants.{Scalar, Vector};
ghost use Rattle.word.specs.declared.operations.Operation.TheVariants.{Arith as Arithmetic, AddAddress, Reduce};
ghost use Rattle.engine.specs.Arithmetic.{AsWide, kind, reduction_of, result_of, results_of, sum_of, sums_of};

use crate::changes::{element, put_element, put_lane, put_line};
use file::{DataRegisters, Machine};
use line::{reduce as reduce_line, vector, vector_addr, zeros};
use scalar::compute_lane;
use tags::Register;
use word::{Arith, Form, Reduction};

// A lane of the result of a scalar form.
fn element_result(
    registers: &DataRegisters,
    op: Arith,
    a: Register,
    b: Register,
    c: Register,
) -> u64
    ensures { (m : Meaning) → cast (kind (shows registers.now m) a.number) (pos result) ≡ result_of (shows registers.now m) op a.number b.number c.number }
{
    let x = element(registers, b);
    let y = element(registers, c);
    compute_lane(op, registers.register(a).kind, x, y)
}

// The line of results of a vector form.
#[tactic(auto, using(crate::proofs::Vectors::arithmetic_lines))]
fn line_result(
    registers: &DataRegisters,
    op: Arith,
    a: Register,
    b: Register,
    c: Register,
    out: &mut [u8; 128],
)
    requires second { (m : Meaning) → AsWide (shows registers.now m) a.number c.number }
    requires first { (m : Meaning) → AsWide (shows registers.now m) a.number b.number }
    ensures { (m : Meaning) → out.new ≡ results_of (shows registers.now m) op a.number b.number c.number }
{
    let kind = registers.register(a).kind;
    vector(op, kind, registers.bytes(b), registers.bytes(c), out);
}

// A scalar form.
fn arithmetic_scalar(machine: &mut Machine, op: Arith, a: u8, b: u8, c: u8)
    ensures { stands machine.new ≡ (λ m. with_data (arithmetic op Scalar a b c (stands machine.old m)) (stands machine.old m)) }
{
    let mode = machine.control.mode;
    let a = Register::of(mode, a);
    let b = Register::of(mode, b);
    let c = Register::of(mode, c);
    let lane = element_result(&machine.registers, op, a, b, c);
    put_lane(&mut machine.registers, a, lane);
}

// A vector form.
#[tactic(auto, using(crate::proofs::VectorForms::arithmetic_forms))]
fn arithmetic_vector(machine: &mut Machine, op: Arith, a: u8, b: u8, c: u8)
    requires { (m : Meaning) → uneven (stands machine.old m) (Arithmetic op Vector a b c) ≡ false }
    ensures { stands machine.new ≡ (λ m. with_data (arithmetic op Vector a b c (stands machine.old m)) (stands machine.old m)) }
{
    let mode = machine.control.mode;
    let a = Register::of(mode, a);
    let b = Register::of(mode, b);
    let c = Register::of(mode, c);
    let mut line = zeros();
    line_result(&machine.registers, op, a, b, c, &mut line);
    put_line(&mut machine.registers, a, &line);
}

// Arithmetic: the result goes to dA's element, and in the vector form to each element of dA's line.
pub(crate) fn arithmetic(machine: &mut Machine, op: Arith, form: Form, a: u8, b: u8, c: u8)
    requires { (m : Meaning) → uneven (stands machine.old m) (Arithmetic op form a b c) ≡ false }
    ensures { stands machine.new ≡ (λ m. with_data (arithmetic op form a b c (stands machine.old m)) (stands machine.old m)) }
{
    match form {
        Form::Scalar => arithmetic_scalar(machine, op, a, b, c),
        Form::Vector => arithmetic_vector(machine, op, a, b, c),
    }
}

// A lane of the sum of an address and an element.
fn address_sum(registers: &DataRegisters, a: Register, b: Register, c: Register) -> u64
    ensures { (m : Meaning) → cast (kind (shows registers.now m) a.number) (pos result) ≡ sum_of (shows registers.now m) a.number b.number c.number }
{
    let x = i128::from(registers.register(b).address);
    let y = element(registers, c);
    compute_lane(Arith::Add, registers.register(a).kind, x, y)
}

// The line of sums of an address and each element.
#[tactic(auto, using(crate::proofs::Vectors::address_lines))]
fn address_sums(
    registers: &DataRegisters,
    a: Register,
    b: Register,
    c: Register,
    out: &mut [u8; 128],
)
    requires { (m : Meaning) → AsWide (shows registers.now m) a.number c.number }
    ensures { (m : Meaning) → out.new ≡ sums_of (shows registers.now m) a.number b.number c.number }
{
    let kind = registers.register(a).kind;
    vector_addr(kind, registers.register(b).address, registers.bytes(c), out);
}

fn add_address_scalar(machine: &mut Machine, a: u8, b: u8, c: u8)
    ensures { stands machine.new ≡ (λ m. with_data (add_address Scalar a b c (stands machine.old m)) (stands machine.old m)) }
{
    let mode = machine.control.mode;
    let a = Register::of(mode, a);
    let b = Register::of(mode, b);
    let c = Register::of(mode, c);
    let lane = address_sum(&machine.registers, a, b, c);
    put_lane(&mut machine.registers, a, lane);
}

#[tactic(auto, using(crate::proofs::VectorForms::address_forms))]
fn add_address_vector(machine: &mut Machine, a: u8, b: u8, c: u8)
    requires { (m : Meaning) → uneven (stands machine.old m) (AddAddress Vector a b c) ≡ false }
    ensures { stands machine.new ≡ (λ m. with_data (add_address Vector a b c (stands machine.old m)) (stands machine.old m)) }
{
    let mode = machine.control.mode;
    let a = Register::of(mode, a);
    let b = Register::of(mode, b);
    let c = Register::of(mode, c);
    let mut line = zeros();
    address_sums(&machine.registers, a, b, c, &mut line);
    put_line(&mut machine.registers, a, &line);
}

// Addr: add with dB's address in the place of its element.
pub(crate) fn add_address(machine: &mut Machine, form: Form, a: u8, b: u8, c: u8)
    requires { (m : Meaning) → uneven (stands machine.old m) (AddAddress form a b c) ≡ false }
    ensures { stands machine.new ≡ (λ m. with_data (add_address form a b c (stands machine.old m)) (stands machine.old m)) }
{
    match form {
        Form::Scalar => add_address_scalar(machine, a, b, c),
        Form::Vector => add_address_vector(machine, a, b, c),
    }
}

// What a reduction makes of every element of a line.
fn reduction(registers: &DataRegisters, op: Reduction, a: Register, b: Register) -> i128
    ensures { (m : Meaning) → result ≡ reduction_of (shows registers.now m) op a.number b.number }
{
    let to = registers.register(a).kind;
    let from = registers.register(b).kind;
    reduce_line(op, to, from, registers.bytes(b))
}

// A reduction joins every element of dB's line into dA's element.
#[tactic(auto, unfolding(file::specs::Machine::stands, flat::specs::Operations::data_after))]
pub(crate) fn reduce(machine: &mut Machine, op: Reduction, a: u8, b: u8)
    ensures { stands machine.new ≡ (λ m. with_data (data_after (Reduce op a b) (stands machine.old m)) (stands machine.old m)) }
{
    let mode = machine.control.mode;
    let a = Register::of(mode, a);
    let z = reduction(&machine.registers, op, a, Register::of(mode, b));
    put_element(&mut machine.registers, a, z);
}
