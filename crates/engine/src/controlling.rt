// The operations on what the machine holds beside its registers.
ghost use Rattle.std.specs.Prelude.{◌≡◌, ◌==◌};
ghost use Rattle.scalar.specs.Casts.{residue};
ghost use Rattle.word.specs.declared.operations.Operation.TheVariants.{CopyIn, Swi, Reti, Retx};
ghost use Rattle.flat.specs.Machine.{with_control};
ghost use Rattle.flat.specs.Operations.{control_after};
ghost use Rattle.file.specs.Machine.{stands};

use crate::operands::{bytes, element};
use file::Machine;
use flat::Mode;
use scalar::lanes::lane;
use word::{ElementType, Special};

// The lowest 32 bits of a number.
#[tactic(auto, using(crate::proofs::Residues::few_bits))]
fn low_word(z: i128) -> u32
    ensures { result ≡ residue 32 z }
{
    lane(ElementType::U32, z) as u32
}

// Whether the lowest bit of a number is set.
#[tactic(auto, using(crate::proofs::Residues::few_bits))]
fn is_odd(z: i128) -> bool
    ensures { result ≡ (residue 1 z == 1) }
{
    lane(ElementType::U8, z) % 2 == 1
}

// A special register gets what a data register has.
#[tactic(auto, unfolding(file::specs::Machine::stands, flat::specs::Operations::control_after))]
pub(crate) fn copy_in(machine: &mut Machine, to: Special, a: u8)
    ensures { stands machine.new ≡ (λ m. with_control (control_after (CopyIn to a) (stands machine.old m)) (stands machine.old m)) }
{
    match to {
        Special::Ie => machine.control.ie = is_odd(element(machine, a)),
        Special::Xct => machine.control.xct = low_word(element(machine, a)),
        Special::Swiarg0 => machine.control.swiargs[0] = *bytes(machine, a),
        Special::Swiarg1 => machine.control.swiargs[1] = *bytes(machine, a),
        Special::Swiarg2 => machine.control.swiargs[2] = *bytes(machine, a),
        Special::Swiarg3 => machine.control.swiargs[3] = *bytes(machine, a),
    }
}

// The swiargs get the lines of four registers.
#[tactic(auto, unfolding(file::specs::Machine::stands, flat::specs::Operations::control_after))]
pub(crate) fn swi(machine: &mut Machine, a: u8, b: u8, c: u8, d: u8)
    ensures { stands machine.new ≡ (λ m. with_control (control_after (Swi a b c d) (stands machine.old m)) (stands machine.old m)) }
{
    machine.control.swiargs = [
        *bytes(machine, a),
        *bytes(machine, b),
        *bytes(machine, c),
        *bytes(machine, d),
    ];
}

// Returns to user mode.
#[tactic(auto, unfolding(file::specs::Machine::stands, flat::specs::Operations::control_after))]
pub(crate) fn retx(machine: &mut Machine)
    ensures { stands machine.new ≡ (λ m. with_control (control_after Retx (stands machine.old m)) (stands machine.old m)) }
{
    machine.control.mode = Mode::User;
}

// Returns to user mode, and lets interrupts enter.
#[tactic(auto, unfolding(file::specs::Machine::stands, flat::specs::Operations::control_after))]
pub(crate) fn reti(machine: &mut Machine)
    ensures { stands machine.new ≡ (λ m. with_control (control_after Reti (stands machine.old m)) (stands machine.old m)) }
{
    machine.control.ie = true;
    retx(machine);
}
