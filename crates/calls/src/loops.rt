// Steps one after the other: run and trace.
ghost use Rattle.std.specs.Prelude.{◌≡◌, ◌&&◌, not, nat_lt};
ghost use Rattle.flat.specs.Calls.{has_entered, run_steps, trace_steps};
ghost use Rattle.file.specs.Machine.{stands};
ghost use Rattle.calls.specs.Loops.{Ended, beside};
ghost use Rattle.trail.specs.Trails.{space as space_of};
ghost use Rattle.calls.specs.Trails.{space};

use crate::trails::Trails;
use engine::{Recorded, step, step_recorded};
use file::Machine;
use flat::{Ran, Slots, Stepped};
use store::Store;

// The most steps that a call may be asked for.
pub const MOST_STEPS: u32 = 1_000_000;

// Whether a step entered an exception.
fn has_entered(last: Stepped) -> bool
    ensures { result ≡ has_entered last }
{
    match last {
        Stepped::Done => false,
        Stepped::Entered(_) => true,
    }
}

// Up to so many steps; the first that enters an exception is the last.
pub(crate) fn run_steps<S: Store>(machine: &mut Machine, limit: u32, store: &mut S) -> Ran
    ensures machine { stands machine.new (S.meaning store.new) ≡ (run_steps limit (stands machine.old (S.meaning store.old))).machine }
    ensures ran { result ≡ (run_steps limit (stands machine.old (S.meaning store.old))).ran }
{
    let mut ran = Ran {
        steps: 0,
        last: Stepped::Done,
    };
    while ran.steps < limit {
        if has_entered(ran.last) {
            break;
        }
        let answer = step(machine, store).answer;
        ran = Ran {
            steps: ran.steps + 1,
            last: answer,
        };
    }
    ran
}

// Whether a trace makes another step: no step entered, and both trails have space for one more record beside
// the slots that are left alone.
fn goes_on(last: Stepped, trails: &Trails, spare: Slots) -> bool
    ensures { result ≡ (not (has_entered last) && nat_lt spare.steps (space_of trails.now.steps) && nat_lt spare.lines (space_of trails.now.lines)) }
{
    !has_entered(last) && trails.have_space(spare)
}

// Up to so many steps, each recorded, as long as both trails have space beside so many slots of each.
pub(crate) fn trace_steps<S: Store>(
    machine: &mut Machine,
    limit: u32,
    spare: Slots,
    trails: &mut Trails,
    store: &mut S,
) -> Ran
    ensures { Ended (trace_steps limit (beside (space trails.old) spare) (stands machine.old (S.meaning store.old))) (stands machine.new (S.meaning store.new)) result trails.old trails.new }
{
    let mut ran = Ran {
        steps: 0,
        last: Stepped::Done,
    };
    while ran.steps < limit {
        if !goes_on(ran.last, trails, spare) {
            break;
        }
        let Recorded { record, bus } = step_recorded(machine, store);
        trails.keep(record, bus);
        ran = Ran {
            steps: ran.steps + 1,
            last: record.answer,
        };
    }
    ran
}
