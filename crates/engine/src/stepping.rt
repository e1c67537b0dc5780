// One step of the machine.
ghost use Rattle.std.specs.Prelude.{◌≡◌, false, Some};
ghost use Rattle.flat.specs.Operations.{bus_of, carried_out};
ghost use Rattle.flat.specs.Raising.{uneven};
ghost use Rattle.flat.specs.Step.{does, enters, interrupted, obeyed, step};
ghost use Rattle.store.specs.Meaning.{Meaning};
ghost use Rattle.file.specs.Machine.{stands};
ghost use Rattle.engine.specs.Entering.{Did};

use crate::arithmetic::{add_address, arithmetic, reduce};
use crate::controlling::{copy_in, reti, retx, swi};
use crate::data_moves::{copy_out, dup, load, store as store_line};
use crate::dividing::divide;
use crate::fetching::{fetch, hand, jump, move_on, word};
use crate::raising::{is_taken, raised};
use file::Machine;
use flat::{Bus, Exception, Mode, Stepped};
use store::Store;
use word::{Operation, decode};

// What a step answers, and what it did on the bus.
#[derive(Clone, Copy, PartialEq, Eq, Debug)]
pub struct AfterStep {
    pub answer: Stepped,
    pub bus: Bus,
}

// Carries out an operation that raises no exception, and answers what that did on the bus. ipc moves on
// first, where it does; what jumps and hand read of it is read before.
#[inline(always)]
fn carry_out<S: Store>(machine: &mut Machine, op: Operation, store: &mut S) -> Bus
    requires { uneven (stands machine.old (S.meaning store.old)) op ≡ false }
    ensures machine { stands machine.new (S.meaning store.new) ≡ carried_out op (stands machine.old (S.meaning store.old)) }
    ensures bus { result ≡ bus_of op (stands machine.old (S.meaning store.old)) }
{
    match op {
        Operation::Arith { op, form, a, b, c } => {
            let bus = move_on(machine, store);
            arithmetic(machine, op, form, a, b, c);
            bus
        }
        Operation::AddAddress { form, a, b, c } => {
            let bus = move_on(machine, store);
            add_address(machine, form, a, b, c);
            bus
        }
        Operation::Div { form, a, b, c, d } => {
            let bus = move_on(machine, store);
            divide(machine, form, a, b, c, d);
            bus
        }
        Operation::Reduce { op, a, b } => {
            let bus = move_on(machine, store);
            reduce(machine, op, a, b);
            bus
        }
        Operation::Load { kind, a, b, i } => {
            let bus = move_on(machine, store);
            bus.followed_by(load(machine, kind, a, b, i, store))
        }
        Operation::Store { kind, a, b, i } => {
            let bus = move_on(machine, store);
            bus.followed_by(store_line(machine, kind, a, b, i, store))
        }
        Operation::Dup { kind, a, b } => {
            let bus = move_on(machine, store);
            dup(machine, kind, a, b);
            bus
        }
        Operation::Fetch { a, b, i, j } => fetch(machine, a, b, i, j, store),
        Operation::JumpNotZero { b, w, .. } | Operation::JumpZero { b, w, .. } => {
            if is_taken(machine, op) {
                jump(machine, b, w, store)
            } else {
                move_on(machine, store)
            }
        }
        Operation::Hand { b, w } => hand(machine, b, w, store),
        Operation::CopyOut { from, a } => {
            let bus = move_on(machine, store);
            copy_out(machine, from, a);
            bus
        }
        Operation::CopyIn { to, a } => {
            let bus = move_on(machine, store);
            copy_in(machine, to, a);
            bus
        }
        Operation::Swi { a, b, c, d } => {
            let bus = move_on(machine, store);
            swi(machine, a, b, c, d);
            bus
        }
        Operation::Reti => {
            reti(machine);
            Bus::quiet()
        }
        Operation::Retx => {
            retx(machine);
            Bus::quiet()
        }
    }
}

// Enters an exception, and does nothing more.
fn enter<S: Store>(machine: &mut Machine, exception: Exception, store: &S) -> AfterStep
    ensures { Did (enters exception (stands machine.old (S.meaning store.now))) (stands machine.new (S.meaning store.now)) result }
{
    let bus = machine.enter(exception, store);
    AfterStep {
        answer: Stepped::Entered(exception),
        bus,
    }
}

// Carries out an operation that raises no exception; swi then enters its own.
#[tactic(auto, using(crate::proofs::Doing::doing))]
#[inline(always)]
fn do_operation<S: Store>(machine: &mut Machine, op: Operation, store: &mut S) -> AfterStep
    requires { uneven (stands machine.old (S.meaning store.old)) op ≡ false }
    ensures { Did (does op (stands machine.old (S.meaning store.old))) (stands machine.new (S.meaning store.new)) result }
{
    let bus = carry_out(machine, op, store);
    match op {
        Operation::Swi { .. } => {
            let entered = enter(machine, Exception::Software, store);
            AfterStep {
                answer: entered.answer,
                bus: bus.followed_by(entered.bus),
            }
        }
        Operation::Arith { .. }
        | Operation::AddAddress { .. }
        | Operation::Div { .. }
        | Operation::Reduce { .. }
        | Operation::Load { .. }
        | Operation::Store { .. }
        | Operation::Dup { .. }
        | Operation::Fetch { .. }
        | Operation::JumpNotZero { .. }
        | Operation::JumpZero { .. }
        | Operation::Hand { .. }
        | Operation::CopyOut { .. }
        | Operation::CopyIn { .. }
        | Operation::Reti
        | Operation::Retx => AfterStep {
            answer: Stepped::Done,
            bus,
        },
    }
}

// Enters the first exception that an operation raises, or carries it out. It is inlined where the kind of
// operation is written out, and with it all that matches on the operation, which then asks only what that
// kind can raise.
#[tactic(auto, using(crate::proofs::Doing::obeying), unfolding(flat::specs::Step::obeyed, flat::specs::Step::obeyed_unless))]
#[inline(always)]
fn obey_as<S: Store>(machine: &mut Machine, op: Operation, store: &mut S) -> AfterStep
    ensures { Did (obeyed (Some op) (stands machine.old (S.meaning store.old))) (stands machine.new (S.meaning store.new)) result }
{
    match raised(machine, op, store) {
        Some(exception) => enter(machine, exception, store),
        None => do_operation(machine, op, store),
    }
}

// Enters the first exception that an operation raises, or carries it out. What loops are mostly made of is
// compiled for each kind of operation.
fn obey<S: Store>(machine: &mut Machine, op: Operation, store: &mut S) -> AfterStep
    ensures { Did (obeyed (Some op) (stands machine.old (S.meaning store.old))) (stands machine.new (S.meaning store.new)) result }
{
    match op {
        Operation::Arith { op, form, a, b, c } => {
            obey_as(machine, Operation::Arith { op, form, a, b, c }, store)
        }
        Operation::Load { kind, a, b, i } => {
            obey_as(machine, Operation::Load { kind, a, b, i }, store)
        }
        Operation::Store { kind, a, b, i } => {
            obey_as(machine, Operation::Store { kind, a, b, i }, store)
        }
        Operation::Dup { kind, a, b } => obey_as(machine, Operation::Dup { kind, a, b }, store),
        Operation::JumpNotZero { a, b, w } => {
            obey_as(machine, Operation::JumpNotZero { a, b, w }, store)
        }
        Operation::JumpZero { a, b, w } => {
            obey_as(machine, Operation::JumpZero { a, b, w }, store)
        }
        Operation::AddAddress { .. }
        | Operation::Div { .. }
        | Operation::Reduce { .. }
        | Operation::Fetch { .. }
        | Operation::Hand { .. }
        | Operation::CopyOut { .. }
        | Operation::CopyIn { .. }
        | Operation::Swi { .. }
        | Operation::Reti
        | Operation::Retx => obey_as(machine, op, store),
    }
}

// Whether the interrupt comes before anything else.
#[tactic(auto, unfolding(file::specs::Machine::stands))]
fn is_interrupted(machine: &Machine) -> bool
    ensures { (m : Meaning) → result ≡ interrupted (stands machine.now m) }
{
    match machine.control.mode {
        Mode::User => machine.control.ie && machine.control.pin,
        Mode::Supervisor => false,
    }
}

// A step: the interrupt, or else the word at ipc.
#[tactic(auto, unfolding(flat::specs::Step::step, flat::specs::Step::obeyed))]
pub fn step<S: Store>(machine: &mut Machine, store: &mut S) -> AfterStep
    ensures { Did (step (stands machine.old (S.meaning store.old))) (stands machine.new (S.meaning store.new)) result }
{
    if is_interrupted(machine) {
        return enter(machine, Exception::Interrupt, store);
    }
    match decode(word(machine)) {
        Some(op) => obey(machine, op, store),
        None => enter(machine, Exception::Undefined, store),
    }
}
