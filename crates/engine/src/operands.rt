// What an operation reads: the registers that its fields name, and the addresses that it makes of them.
// The functions have the names of the flat machine's definitions.
#![tactic(auto, unfolding(file::specs::Machine::stands))]

ghost use Rattle.std.specs.Prelude.{◌≡◌, ◌%◌, pos, ◌+ℤ◌};
ghost use Rattle.scalar.specs.Casts.{residue};
ghost use Rattle.store.specs.Meaning.{Meaning};
ghost use Rattle.flat.specs.Operands.{kind_of, address_of, bytes_of, element_of, target, fetch_target, word_place, next_address};
ghost use Rattle.flat.specs.Machine.{ipc_address};
ghost use Rattle.flat.specs.Registers.{of_mode};
ghost use Rattle.file.specs.Machine.{stands};

use crate::changes::element as shown_element;
use file::Machine;
use flat::line_of;
use line::Place;
use tags::Register;
use word::ElementType;

// The register that a field names.
pub(crate) fn register(machine: &Machine, field: u8) -> Register
    ensures { result.number ≡ of_mode machine.now.control.mode (field % 64) }
{
    Register::of(machine.control.mode, field)
}

// Of the data register that a field names: its type, its address, its line's bytes and its element.
pub(crate) fn kind(machine: &Machine, field: u8) -> ElementType
    ensures { (m : Meaning) → result ≡ kind_of (stands machine.now m) field }
{
    machine.registers.register(register(machine, field)).kind
}

pub(crate) fn address(machine: &Machine, field: u8) -> u32
    ensures { (m : Meaning) → result ≡ address_of (stands machine.now m) field }
{
    machine.registers.register(register(machine, field)).address
}

pub(crate) fn bytes(machine: &Machine, field: u8) -> &[u8; 128]
    ensures { (m : Meaning) → result.now ≡ bytes_of (stands machine.now m) field }
{
    machine.registers.bytes(register(machine, field))
}

#[tactic(auto, unfolding(file::specs::Machine::stands))]
pub(crate) fn element(machine: &Machine, field: u8) -> i128
    ensures { (m : Meaning) → result ≡ element_of (stands machine.now m) field }
{
    shown_element(&machine.registers, register(machine, field))
}

// ipc, and its address.
pub(crate) fn ipc(machine: &Machine) -> Register
    ensures { result.number ≡ of_mode machine.now.control.mode 63 }
{
    Register::of(machine.control.mode, 63)
}

pub(crate) fn ipc_address(machine: &Machine) -> u32
    ensures { (m : Meaning) → result ≡ ipc_address (stands machine.now m) }
{
    machine.instructions.address(ipc(machine))
}

// An address, moved by a signed number.
#[tactic(auto, using(crate::proofs::OperandAddresses::moves))]
fn moved(address: u32, by: i32) -> u32
    ensures { result ≡ residue 32 (pos address +ℤ by) }
{
    address.wrapping_add_signed(by)
}

// Where load and store go.
pub(crate) fn target(machine: &Machine, b: u8, i: i16) -> u32
    ensures { (m : Meaning) → result ≡ target (stands machine.now m) b i }
{
    moved(address(machine, b), i32::from(i))
}

// Where fetch goes with register a + k.
#[tactic(auto, using(crate::proofs::OperandAddresses::fetches), unfolding(file::specs::Machine::stands))]
pub(crate) fn fetch_target(machine: &Machine, b: u8, i: i16, k: u8) -> u32
    ensures { (m : Meaning) → result ≡ fetch_target (stands machine.now m) b i k }
{
    let start = machine.instructions.address(register(machine, b));
    moved(start, 4 * i32::from(i)).wrapping_add(128 * u32::from(k))
}

// Where fetch starts.
pub(crate) fn fetch_start(machine: &Machine, b: u8, i: i16) -> u32
    ensures { (m : Meaning) → result ≡ fetch_target (stands machine.now m) b i 0 }
{
    fetch_target(machine, b, i, 0)
}

// The word w of the line that instruction register iB names.
pub(crate) fn word_place(machine: &Machine, b: u8, w: u8) -> u32
    ensures { (m : Meaning) → result ≡ word_place (stands machine.now m) b w }
{
    let start = machine.instructions.address(register(machine, b));
    128 * line_of(start) + 4 * (u32::from(w) % 32)
}

// The next word is 4 bytes further.
pub(crate) fn next_address(machine: &Machine) -> u32
    ensures { (m : Meaning) → result ≡ next_address (stands machine.now m) }
{
    ipc_address(machine).wrapping_add(4)
}
