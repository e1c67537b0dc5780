// Which exception the machine enters instead of carrying out an operation. Each test has the name of the
// flat machine's definition.
ghost use Rattle.std.specs.Prelude.{◌≡◌, ℕ, ◌+◌, ◌==◌, ◌&&◌, not, nat_lt};
ghost use Rattle.word.specs.Types.{width};
ghost use Rattle.line.specs.Dividing.{somewhere};
ghost use Rattle.store.specs.Meaning.{Meaning};
ghost use Rattle.flat.specs.Instructions.{addresses};
ghost use Rattle.flat.specs.Machine.{ipc_address as flat_ipc_address};
ghost use Rattle.flat.specs.Operands.{kind_of, fetch_target};
ghost use Rattle.flat.specs.Operands.{next_address as flat_next_address};
ghost use Rattle.flat.specs.Raising.{narrow_fields, even_fields, some_wide, uneven_widths, is_missing, needs_missing, own_fixed, some_fixed, is_zero_divisor, leaves, is_taken, goes_on, raised};
ghost use Rattle.flat.specs.declared.rules.Divisor.TheVariants.{Cast};
ghost use Rattle.word.specs.declared.opcodes.Form.TheVariants.{Vector};
ghost use Rattle.flat.specs.Registers.{line_of as flat_line_of, named, offset_of as flat_offset_of};
ghost use Rattle.flat.specs.Registers.{is_zero as is_zero_register};
ghost use Rattle.file.specs.Machine.{stands};

use crate::operands::{
    address, bytes, element, fetch_target, ipc_address, kind, next_address, register, target,
};
use crate::rules::rules_of;
use file::Machine;
use flat::{Divisor, Even, Exception, Goes, Mode, Narrow, Needs, Writes, line_of, offset_of};
use line::{has_zero, same_width};
use scalar::is_zero;
use store::Store;
use tags::Register;
use word::{Arith, Form, Operation, Reduction};

// Whether the register of a field is 64 bits wide.
fn is_wide(machine: &Machine, field: u8) -> bool
    ensures { (m : Meaning) → result ≡ (width (kind_of (stands machine.now m) field) == 8) }
{
    kind(machine, field).width() == 8
}

// Whether a register that must not be is 64 bits wide.
#[inline(always)]
fn some_wide(machine: &Machine, narrow: Narrow) -> bool
    ensures { (m : Meaning) → result ≡ some_wide (stands machine.now m) (narrow_fields narrow) }
{
    match narrow {
        Narrow::NoField => false,
        Narrow::One(a) => is_wide(machine, a),
        Narrow::Two(a, c) => is_wide(machine, a) || is_wide(machine, c),
        Narrow::OfArith { op, a, b, c } => match op {
            Arith::Slt | Arith::Mul | Arith::Shl | Arith::Shr | Arith::Rol | Arith::Ror => {
                is_wide(machine, a) || is_wide(machine, b) || is_wide(machine, c)
            }
            Arith::Add | Arith::Sub | Arith::And | Arith::Or | Arith::Xor => false,
        },
        Narrow::OfReduction { op, a } => match op {
            Reduction::Mul | Reduction::Max | Reduction::Min => is_wide(machine, a),
            Reduction::Add | Reduction::And => false,
        },
    }
}

// Whether the register of a field has another width than dA.
fn differs(machine: &Machine, field: u8, a: u8) -> bool
    ensures { (m : Meaning) → result ≡ not (width (kind_of (stands machine.now m) field) == width (kind_of (stands machine.now m) a)) }
{
    !same_width(kind(machine, field), kind(machine, a))
}

// Whether the widths of a vector form are unequal.
#[tactic(auto, unfolding(flat::specs::Raising::uneven_widths))]
#[inline(always)]
fn uneven_widths(machine: &Machine, even: Even) -> bool
    ensures { (m : Meaning) → result ≡ uneven_widths (stands machine.now m) (even_fields even) }
{
    match even {
        Even::AnyWidths => false,
        Even::Two { form, a, c } => match form {
            Form::Scalar => false,
            Form::Vector => differs(machine, c, a),
        },
        Even::Three { form, a, b, c } => match form {
            Form::Scalar => false,
            Form::Vector => differs(machine, b, a) || differs(machine, c, a),
        },
        Even::Four { form, a, b, c, d } => match form {
            Form::Scalar => false,
            Form::Vector => {
                differs(machine, b, a) || differs(machine, c, a) || differs(machine, d, a)
            }
        },
    }
}

// Whether one of the lines that must be there is not below the store's size.
#[tactic(auto, using(crate::proofs::Raises::over_store))]
#[inline(always)]
fn needs_missing<S: Store>(machine: &Machine, needs: Needs, store: &S) -> bool
    ensures { result ≡ needs_missing (stands machine.now (S.meaning store.now)) needs }
{
    match needs {
        Needs::NoLine => false,
        Needs::Target { b, i } => is_missing(target(machine, b, i), store),
        Needs::Fetched { b, i, j } => fetch_missing(machine, b, i, j, store),
    }
}

// Whether the line of an address is not below the store's size.
fn is_missing<S: Store>(address: u32, store: &S) -> bool
    ensures { result ≡ not (nat_lt (flat_line_of address) (S.meaning store.now).size) }
{
    line_of(address) >= store.size()
}

// Whether one of the lines that a fetch takes is missing.
#[tactic(auto, using(crate::proofs::Raises::backing, line::proofs::Joins::places))]
fn fetch_missing<S: Store>(machine: &Machine, b: u8, i: i16, j: u8, store: &S) -> bool
    ensures { let m = stands machine.now (S.meaning store.now) in result ≡ somewhere (λ k. is_missing m (fetch_target m b i k)) (j + 1) }
{
    let mut found = false;
    for k in 0..=j {
        found |= is_missing(fetch_target(machine, b, i, k), store);
    }
    found
}

// Whether a register, which is no zero register, writes a line that cannot be written.
fn writes_fixed<S: Store>(register: Register, line: u32, store: &S) -> bool
    ensures { result ≡ (not (is_zero_register register.number) && not ((S.meaning store.now).canwrite line)) }
{
    !register.is_zero() && !store.writable(line)
}

// Whether the register of a field writes its own line, which cannot be written.
#[tactic(auto, using(crate::proofs::Raises::over_store), unfolding(file::specs::Machine::stands))]
fn own_fixed<S: Store>(machine: &Machine, field: u8, store: &S) -> bool
    ensures { result ≡ own_fixed (stands machine.now (S.meaning store.now)) field }
{
    writes_fixed(
        register(machine, field),
        line_of(address(machine, field)),
        store,
    )
}

// Whether one of the lines that get bytes cannot be written.
#[tactic(auto, using(crate::proofs::Raises::over_store), unfolding(file::specs::Machine::stands))]
#[inline(always)]
fn some_fixed<S: Store>(machine: &Machine, writes: Writes, store: &S) -> bool
    ensures { result ≡ some_fixed (stands machine.now (S.meaning store.now)) writes }
{
    match writes {
        Writes::Nothing => false,
        Writes::Own(a) => own_fixed(machine, a, store),
        Writes::Both(a, d) => own_fixed(machine, a, store) || own_fixed(machine, d, store),
        Writes::There { a, b, i } => {
            writes_fixed(register(machine, a), line_of(target(machine, b, i)), store)
        }
    }
}

// Whether a divisor is zero after its cast. (Elements of types of equal width are those of the one type cast
// to the other.)
#[tactic(auto, using(scalar::proofs::Casts::passed_on))]
#[inline(always)]
fn is_zero_divisor(machine: &Machine, divisor: Divisor) -> bool
    requires { (m : Meaning) (a c : ℕ) → divisor ≡ Cast Vector a c → width (kind_of (stands machine.now m) c) ≡ width (kind_of (stands machine.now m) a) }
    ensures { (m : Meaning) → result ≡ is_zero_divisor (stands machine.now m) divisor }
{
    match divisor {
        Divisor::Absent => false,
        Divisor::Cast { form, a, c } => match form {
            Form::Scalar => is_zero(kind(machine, a), element(machine, c)),
            Form::Vector => has_zero(kind(machine, a), bytes(machine, c)),
        },
    }
}

// A jump if not zero is taken when dA's element is not zero, a jump if zero when it is.
#[tactic(auto, unfolding(flat::specs::Raising::leaves))]
#[inline(always)]
fn leaves(machine: &Machine, goes: Goes) -> bool
    ensures { (m : Meaning) → result ≡ leaves (stands machine.now m) goes }
{
    match goes {
        Goes::OnIfZero(a) => element(machine, a) != 0,
        Goes::OnIfNotZero(a) => element(machine, a) == 0,
        Goes::On | Goes::Nowhere => false,
    }
}

// Whether a jump is taken.
#[tactic(auto, unfolding(flat::specs::Raising::is_taken))]
#[inline(always)]
pub(crate) fn is_taken(machine: &Machine, op: Operation) -> bool
    ensures { (m : Meaning) → result ≡ is_taken (stands machine.now m) op }
{
    leaves(machine, rules_of(op).goes)
}

// ipc goes to the next word after every operation but a taken jump, reti and retx.
#[inline(always)]
fn goes_on(machine: &Machine, goes: Goes) -> bool
    ensures { (m : Meaning) → result ≡ goes_on (stands machine.now m) goes }
{
    match goes {
        Goes::On => true,
        Goes::OnIfZero(_) | Goes::OnIfNotZero(_) => !leaves(machine, goes),
        Goes::Nowhere => false,
    }
}

// Whether some instruction register names a line.
#[tactic(auto, using(crate::proofs::Raises::found), unfolding(file::specs::Machine::stands, file::specs::Instructions::stands, file::specs::Standing::instructions_of))]
fn is_named(machine: &Machine, line: u32) -> bool
    ensures { (m : Meaning) → result ≡ named (addresses (stands machine.now m).instructions) line }
{
    let bank = machine.instructions.bank();
    bank.sound();
    bank.search(line).is_some()
}

// ipc would pass word 31, and no instruction register names the next line.
#[inline(always)]
fn passes_line(machine: &Machine, goes: Goes) -> bool
    ensures { (m : Meaning) → let f = stands machine.now m in result ≡ (goes_on f goes && (flat_offset_of (flat_ipc_address f) == 124) && not (named (addresses f.instructions) (flat_line_of (flat_next_address f)))) }
{
    offset_of(ipc_address(machine)) == 124
        && goes_on(machine, goes)
        && !is_named(machine, line_of(next_address(machine)))
}

// The first exception that applies.
#[tactic(auto, unfolding(flat::specs::Raising::raised, flat::specs::Raising::first, flat::specs::Raising::reserved, flat::specs::Raising::too_wide, flat::specs::Raising::narrow, flat::specs::Raising::even, flat::specs::Raising::missing, flat::specs::Raising::fixed, flat::specs::Raising::by_zero, flat::specs::Raising::no_next_line, flat::specs::Raising::moves_on, file::specs::Machine::stands))]
#[inline(always)]
pub(crate) fn raised<S: Store>(machine: &Machine, op: Operation, store: &S) -> Option<Exception>
    ensures { result ≡ raised (stands machine.now (S.meaning store.now)) op }
{
    let rules = rules_of(op);
    if machine.control.mode == Mode::User {
        if let Some(exception) = rules.in_user_mode {
            return Some(exception);
        }
    }
    if some_wide(machine, rules.not_wide) {
        return Some(Exception::Wide);
    }
    if uneven_widths(machine, rules.one_width) {
        return Some(Exception::Undefined);
    }
    if needs_missing(machine, rules.needs, store) {
        return Some(Exception::MissingLine);
    }
    if some_fixed(machine, rules.writes, store) {
        return Some(Exception::FixedLine);
    }
    if is_zero_divisor(machine, rules.divisor) {
        return Some(Exception::ZeroDivisor);
    }
    if passes_line(machine, rules.goes) {
        return Some(Exception::NextLine);
    }
    None
}
