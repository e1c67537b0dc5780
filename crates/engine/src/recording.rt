// One step, and what a trace keeps of it.
ghost use Rattle.std.specs.Prelude.{◌≡◌};
ghost use Rattle.flat.specs.Calls.{recorded};
ghost use Rattle.flat.specs.Step.{step as flat_step};
ghost use Rattle.store.specs.Meaning.{Meaning};
ghost use Rattle.file.specs.Machine.{stands};

use crate::fetching::word;
use crate::operands::ipc_address;
use crate::stepping::step;
use file::Machine;
use flat::{Bus, StepRecord};
use store::Store;

#[derive(Clone, Copy)]
pub struct Recorded {
    pub record: StepRecord,
    // what the step did on the bus
    pub bus: Bus,
}

// Makes a step. The mode, the address and the word of the record are those before it.
#[tactic(auto, unfolding(file::specs::Machine::stands))]
pub fn step_recorded<S: Store>(machine: &mut Machine, store: &mut S) -> Recorded
    ensures machine { stands machine.new (S.meaning store.new) ≡ (flat_step (stands machine.old (S.meaning store.old))).machine }
    ensures record { let m = stands machine.old (S.meaning store.old) in result.record ≡ recorded m (flat_step m).answer }
    ensures bus { result.bus ≡ (flat_step (stands machine.old (S.meaning store.old))).bus }
{
    let mode = machine.control.mode;
    let address = ipc_address(machine);
    let word = word(machine);
    let after = step(machine, store);
    Recorded {
        record: StepRecord {
            mode,
            address,
            word,
            answer: after.answer,
        },
        bus: after.bus,
    }
}
