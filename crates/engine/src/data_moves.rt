// The operations that move data registers, fill their lines, or write what the machine holds beside them.
ghost use Rattle.std.specs.Prelude.{◌≡◌, ◌<◌, length};
ghost use Rattle.word.specs.Types.{width};
ghost use Rattle.word.specs.declared.operations.Operation.TheVariants.{Load, Store as StoreOp, Dup, CopyOut};
ghost use Rattle.line.specs.Elements.{put as replaced};
ghost use Rattle.line.specs.Places.{element_number};
ghost use Rattle.line.specs.Vectors.{filled};
ghost use Rattle.flat.specs.Machine.{with_data};
ghost use Rattle.flat.specs.Operations.{data_after, load_bus, store_bus, swiarg};
ghost use Rattle.file.specs.Machine.{stands};

use crate::changes::{put_element, put_line};
use crate::operands::{element, register, target};
use file::Machine;
use flat::{Bus, Control, DataRegister};
use store::Store;
use tags::Change;
use word::{ElementType, Special};

// A number is written, cast, to every element.
#[derive(Drop)]
struct Filled {
    kind: ElementType,
    z: i128,
}

impl Change for Filled {
    ghost use Rattle.engine.specs.Lengths.{filled_whole};

    ghost changed = { λ s b. filled s.kind s.z };

    fn change(&self, bytes: &mut [u8; 128]) {
        line::fill(self.kind, self.z, bytes)
    }

    ghost whole = { λ s b h. filled_whole s.kind s.z };
}

// Puts a data register at an address, with a type, and answers what that did on the bus.
#[tactic(auto, unfolding(file::specs::Machine::stands, flat::specs::Operations::data_after))]
pub(crate) fn load<S: Store>(
    machine: &mut Machine,
    kind: ElementType,
    a: u8,
    b: u8,
    i: i16,
    store: &mut S,
) -> Bus
    ensures data { stands machine.new (S.meaning store.new) ≡ with_data (data_after (Load kind a b i) (stands machine.old (S.meaning store.old))) (stands machine.old (S.meaning store.old)) }
    ensures bus { result ≡ load_bus a b i (stands machine.old (S.meaning store.old)) }
{
    let to = DataRegister::loaded(kind, target(machine, b, i));
    let register = register(machine, a);
    machine.registers.move_to(register, to, store)
}

// Fills a register's line with an element, cast to a type, and gives it the type.
#[tactic(auto, unfolding(file::specs::Machine::stands, flat::specs::Operations::data_after))]
pub(crate) fn dup(machine: &mut Machine, kind: ElementType, a: u8, b: u8)
    ensures { stands machine.new ≡ (λ m. with_data (data_after (Dup kind a b) (stands machine.old m)) (stands machine.old m)) }
{
    let z = element(machine, b);
    let register = register(machine, a);
    machine.registers.write(register, &Filled { kind, z });
    machine.registers.retype(register, kind);
}

// One of the four swiargs.
fn swiarg(control: &Control, n: usize) -> &[u8; 128]
    requires { n < 4 }
    ensures { result.now ≡ swiarg control.now n }
{
    &control.swiargs[n]
}

// Writes a special register to a data register's element or line.
#[tactic(auto, unfolding(file::specs::Machine::stands, flat::specs::Operations::data_after))]
pub(crate) fn copy_out(machine: &mut Machine, from: Special, a: u8)
    ensures { stands machine.new ≡ (λ m. with_data (data_after (CopyOut from a) (stands machine.old m)) (stands machine.old m)) }
{
    let register = register(machine, a);
    let registers = &mut machine.registers;
    match from {
        Special::Ie => put_element(registers, register, i128::from(machine.control.ie)),
        Special::Xct => put_element(registers, register, i128::from(machine.control.xct)),
        Special::Swiarg0 => put_line(registers, register, swiarg(&machine.control, 0)),
        Special::Swiarg1 => put_line(registers, register, swiarg(&machine.control, 1)),
        Special::Swiarg2 => put_line(registers, register, swiarg(&machine.control, 2)),
        Special::Swiarg3 => put_line(registers, register, swiarg(&machine.control, 3)),
    }
}

// Puts a data register at an address, with a type, takes its line along, and answers what that did on the
// bus.
#[tactic(auto, unfolding(file::specs::Machine::stands, flat::specs::Operations::data_after))]
pub(crate) fn store<S: Store>(
    machine: &mut Machine,
    kind: ElementType,
    a: u8,
    b: u8,
    i: i16,
    store: &mut S,
) -> Bus
    ensures data { stands machine.new (S.meaning store.new) ≡ with_data (data_after (StoreOp kind a b i) (stands machine.old (S.meaning store.old))) (stands machine.old (S.meaning store.old)) }
    ensures bus { result ≡ store_bus a b i (stands machine.old (S.meaning store.old)) }
{
    let address = target(machine, b, i);
    let register = register(machine, a);
    let to = DataRegister::loaded(kind, address);
    machine.registers.carry(register, to, store)
}
