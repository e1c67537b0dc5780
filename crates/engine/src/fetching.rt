// The words that are carried out, and the instruction registers that take them.
ghost use Rattle.std.specs.Prelude.{◌≡◌, ◌<◌, ◌%◌, ◌*◌, ◌+◌, suc, slice_index};
ghost use Rattle.store.specs.Meaning.{Meaning};
ghost use Rattle.word.specs.Lines.{little_endian};
ghost use Rattle.word.specs.declared.operations.Operation.TheVariants.{Fetch, Hand};
ghost use Rattle.flat.specs.Machine.{ipc, ipc_address, take_bus, take_line, word};
ghost use Rattle.flat.specs.Operands.{next_address, word_place};
ghost use Rattle.flat.specs.Operations.{bus_of, carried_out, next_bus};
ghost use Rattle.flat.specs.Registers.{of_mode};
ghost use Rattle.flat.specs.declared.control.Mode.TheVariants.{User};
ghost use Rattle.file.specs.Machine.{stands};
ghost use Rattle.engine.specs.Fetching.{fetched, fetched_bus, in_row, in_row_bus};

use crate::operands::{fetch_start, ipc, word_place};
use file::Machine;
use flat::{Bus, Mode, offset_of};
use store::Store;
use tags::Register;

// A byte of a line, or zero past its end.
fn byte(line: &[u8; 128], p: usize) -> u8
    ensures { result ≡ slice_index line.now p }
{
    line.get(p).copied().unwrap_or(0)
}

// The number of the four bytes from the place p on. (An address that is no multiple of 4 may have fewer
// on its line.)
fn word_at(line: &[u8; 128], p: usize) -> u32
    requires { p < 128 }
    ensures { result ≡ little_endian line.now p }
{
    if p <= 124 {
        return u32::from_le_bytes([line[p], line[p + 1], line[p + 2], line[p + 3]]);
    }
    u32::from_le_bytes([
        line[p],
        byte(line, p + 1),
        byte(line, p + 2),
        byte(line, p + 3),
    ])
}

// The word to carry out.
#[tactic(auto, unfolding(file::specs::Machine::stands))]
pub(crate) fn word(machine: &Machine) -> u32
    ensures { (m : Meaning) → result ≡ word (stands machine.now m) }
{
    let ipc = ipc(machine);
    let offset = offset_of(machine.instructions.address(ipc));
    word_at(machine.instructions.bytes(ipc), offset as usize)
}

// ipc goes to the next word.
#[tactic(auto, unfolding(file::specs::Machine::stands))]
pub(crate) fn move_on<S: Store>(machine: &mut Machine, store: &S) -> Bus
    ensures machine { stands machine.new (S.meaning store.now) ≡ take_line (ipc (stands machine.old (S.meaning store.now))) (next_address (stands machine.old (S.meaning store.now))) (stands machine.old (S.meaning store.now)) }
    ensures bus { result ≡ next_bus (stands machine.old (S.meaning store.now)) }
{
    let ipc = ipc(machine);
    let next = machine.instructions.address(ipc).wrapping_add(4);
    machine.take_line(ipc, next, store)
}

// A taken jump puts ipc on a line that an instruction register names.
#[tactic(auto, using(crate::proofs::Lines::jumps))]
pub(crate) fn jump<S: Store>(machine: &mut Machine, b: u8, w: u8, store: &S) -> Bus
    ensures machine { stands machine.new (S.meaning store.now) ≡ take_line (ipc (stands machine.old (S.meaning store.now))) (word_place (stands machine.old (S.meaning store.now)) b w) (stands machine.old (S.meaning store.now)) }
    ensures bus { let m = stands machine.old (S.meaning store.now) in result ≡ take_bus (ipc m) (word_place m b w) m }
{
    let place = word_place(machine, b, w);
    machine.take_line(ipc(machine), place, store)
}

// Moves on, and then puts the user's ipc on the line that an instruction register named before.
#[tactic(auto, using(crate::proofs::Lines::hands_on))]
pub(crate) fn hand<S: Store>(machine: &mut Machine, b: u8, w: u8, store: &S) -> Bus
    ensures machine { stands machine.new (S.meaning store.now) ≡ carried_out (Hand b w) (stands machine.old (S.meaning store.now)) }
    ensures bus { result ≡ bus_of (Hand b w) (stands machine.old (S.meaning store.now)) }
{
    let place = word_place(machine, b, w);
    let bus = move_on(machine, store);
    let taken = machine.take_line(Register::of(Mode::User, 63), place, store);
    bus.followed_by(taken)
}

// The instruction register of a field and k goes to the line k further than an address.
#[tactic(auto, using(crate::proofs::Lines::row_places))]
fn fetch_line<S: Store>(machine: &mut Machine, a: u8, start: u32, k: u8, store: &S) -> Bus
    ensures machine { stands machine.new (S.meaning store.now) ≡ in_row a start k (stands machine.old (S.meaning store.now)) }
    ensures bus { result ≡ in_row_bus a start k (stands machine.old (S.meaning store.now)) }
{
    let register = Register::of(machine.control.mode, a.wrapping_add(k));
    machine.take_line(register, start.wrapping_add(128 * u32::from(k)), store)
}

// Instruction registers go to lines in a row: j more than the first.
#[tactic(auto, using(crate::proofs::Lines::in_rows))]
fn fetch_lines<S: Store>(machine: &mut Machine, a: u8, start: u32, j: u8, store: &S) -> Bus
    ensures machine { stands machine.new (S.meaning store.now) ≡ fetched a start (suc j) (stands machine.old (S.meaning store.now)) }
    ensures bus { result ≡ fetched_bus a start (suc j) (stands machine.old (S.meaning store.now)) }
{
    let mut bus = Bus::quiet();
    for k in 0..=j {
        bus = bus.followed_by(fetch_line(machine, a, start, k, store));
    }
    bus
}

// Moves on, and then puts instruction registers on lines in a row. Where they start is read before.
#[tactic(auto, using(crate::proofs::Lines::fetches))]
pub(crate) fn fetch<S: Store>(machine: &mut Machine, a: u8, b: u8, i: i16, j: u8, store: &S) -> Bus
    ensures machine { stands machine.new (S.meaning store.now) ≡ carried_out (Fetch a b i j) (stands machine.old (S.meaning store.now)) }
    ensures bus { result ≡ bus_of (Fetch a b i j) (stands machine.old (S.meaning store.now)) }
{
    let start = fetch_start(machine, b, i);
    let bus = move_on(machine, store);
    bus.followed_by(fetch_lines(machine, a, start, j, store))
}
