// The file, which is warm from boot to halt and else cold, and the calls. Each refuses first, in the order of
// the rules, and a refused call changes nothing.
ghost use Rattle.std.specs.Prelude.{◌≡◌, OnErr};
ghost use Rattle.store.specs.Meaning.{Meaning};
ghost use Rattle.flat.specs.Calls.{boot, flush, halt, on_store, pin, run, show_data, show_instruction, show_rest, step_call, trace};
ghost use Rattle.calls.specs.Files.{IsWarm, ran_of, stands};
ghost use Rattle.calls.specs.Trails.{Keeps, space};

use crate::loops::{MOST_STEPS, run_steps, trace_steps};
use crate::trails::Trails;
use engine::step;
use file::Machine;
use flat::{Control, Ran, Refusal, ShownData, ShownInstruction, Slots, Stepped};
use store::Store;
use tags::Register;
use word::words;

#[derive(Drop)]
pub enum File {
    Cold,
    Warm(Machine),
}

impl File {
    ghost use Rattle.flat.specs.Fed.{at_most, kept_of};
    ghost use Rattle.calls.specs.Loops.{beside};

    // Makes the file warm, on the store's lines. A file that is warm and a store of no lines are refused.
    #[tactic(auto, unfolding(crate::specs::Files::stands, file::specs::Machine::stands, flat::specs::Calls::cold, flat::specs::Calls::boot))]
    pub fn boot<S: Store>(&mut self, store: &S) -> Result<(), Refusal>
        ensures answer { result ≡ (boot (stands self.old (S.meaning store.now))).answer }
        ensures file { stands self.new (S.meaning store.now) ≡ (boot (stands self.old (S.meaning store.now))).flat }
        ensures refused { OnErr result (self.new ≡ self.old) }
    {
        if let File::Warm(_) = self {
            return Err(Refusal::Warm);
        }
        if store.size() == 0 {
            return Err(Refusal::NoLines);
        }
        *self = File::Warm(Machine::new(store));
        Ok(())
    }

    // On another store, the file stands for the flat machine that is handed that store: a fact for proofs, at
    // no cost.
    #[tactic(auto, unfolding(crate::specs::Files::stands, file::specs::Machine::stands, flat::specs::Calls::on_store, flat::specs::Calls::cold))]
    pub fn on_any_store(&self)
        ensures { (m other : Meaning) → stands self.now other ≡ on_store other (stands self.now m) }
    {
        if let File::Warm(machine) = self {
            machine.registers.on_any_store();
        }
    }

    // The machine of a warm file; a cold one is refused.
    pub fn machine(&self) -> Result<&Machine, Refusal>
        ensures { IsWarm self.now result }
    {
        match self {
            File::Cold => Err(Refusal::Cold),
            File::Warm(machine) => Ok(machine),
        }
    }

    // One step.
    #[tactic(auto, unfolding(crate::specs::Files::stands, flat::specs::Calls::step_call, flat::specs::Calls::cold))]
    pub fn step<S: Store>(&mut self, store: &mut S) -> Result<Stepped, Refusal>
        ensures answer { result ≡ (step_call (stands self.old (S.meaning store.old))).answer }
        ensures file { stands self.new (S.meaning store.new) ≡ (step_call (stands self.old (S.meaning store.old))).flat }
        ensures refused { OnErr result ((self.new ≡ self.old) × (S.meaning store.new ≡ S.meaning store.old)) }
    {
        match self {
            File::Cold => Err(Refusal::Cold),
            File::Warm(machine) => Ok(step(machine, store).answer),
        }
    }

    // Steps, up to a limit; the first that enters an exception is the last.
    #[tactic(auto, unfolding(crate::specs::Files::stands, flat::specs::Calls::run, flat::specs::Calls::cold))]
    pub fn run<S: Store>(&mut self, limit: u32, store: &mut S) -> Result<Ran, Refusal>
        ensures answer { result ≡ (run limit (stands self.old (S.meaning store.old))).answer }
        ensures file { stands self.new (S.meaning store.new) ≡ (run limit (stands self.old (S.meaning store.old))).flat }
        ensures refused { OnErr result ((self.new ≡ self.old) × (S.meaning store.new ≡ S.meaning store.old)) }
    {
        match self {
            File::Cold => Err(Refusal::Cold),
            File::Warm(_) if limit > MOST_STEPS => Err(Refusal::OverLimit),
            File::Warm(machine) => Ok(run_steps(machine, limit, store)),
        }
    }

    // A trace that leaves some slots of the trails alone.
    #[tactic(auto, unfolding(crate::specs::Files::stands, flat::specs::Calls::trace, flat::specs::Calls::cold))]
    fn trace_beside<S: Store>(
        &mut self,
        limit: u32,
        spare: Slots,
        trails: &mut Trails,
        store: &mut S,
    ) -> Result<Ran, Refusal>
        ensures answer { result ≡ ran_of (trace limit (beside (space trails.old) spare) (stands self.old (S.meaning store.old))).answer }
        ensures file { stands self.new (S.meaning store.new) ≡ (trace limit (beside (space trails.old) spare) (stands self.old (S.meaning store.old))).flat }
        ensures trails { Keeps trails.old trails.new (kept_of (trace limit (beside (space trails.old) spare) (stands self.old (S.meaning store.old))).answer) }
        ensures refused { OnErr result ((self.new ≡ self.old) × (S.meaning store.new ≡ S.meaning store.old) × (trails.new ≡ trails.old)) }
    {
        match self {
            File::Cold => Err(Refusal::Cold),
            File::Warm(_) if limit > MOST_STEPS => Err(Refusal::OverLimit),
            File::Warm(machine) => Ok(trace_steps(machine, limit, spare, trails, store)),
        }
    }

    // A run that records each step in one trail and each line sent back in another; it stops before a step
    // unless both have space for one more record.
    pub fn trace<S: Store>(
        &mut self,
        limit: u32,
        trails: &mut Trails,
        store: &mut S,
    ) -> Result<Ran, Refusal>
        ensures answer { result ≡ ran_of (trace limit (space trails.old) (stands self.old (S.meaning store.old))).answer }
        ensures file { stands self.new (S.meaning store.new) ≡ (trace limit (space trails.old) (stands self.old (S.meaning store.old))).flat }
        ensures trails { Keeps trails.old trails.new (kept_of (trace limit (space trails.old) (stands self.old (S.meaning store.old))).answer) }
        ensures refused { OnErr result ((self.new ≡ self.old) × (S.meaning store.new ≡ S.meaning store.old) × (trails.new ≡ trails.old)) }
    {
        let spare = Slots { steps: 0, lines: 0 };
        self.trace_beside(limit, spare, trails, store)
    }

    // A trace that uses no more than so many slots of each trail.
    pub fn trace_within<S: Store>(
        &mut self,
        limit: u32,
        most: Slots,
        trails: &mut Trails,
        store: &mut S,
    ) -> Result<Ran, Refusal>
        ensures answer { result ≡ ran_of (trace limit (at_most most (space trails.old)) (stands self.old (S.meaning store.old))).answer }
        ensures file { stands self.new (S.meaning store.new) ≡ (trace limit (at_most most (space trails.old)) (stands self.old (S.meaning store.old))).flat }
        ensures trails { Keeps trails.old trails.new (kept_of (trace limit (at_most most (space trails.old)) (stands self.old (S.meaning store.old))).answer) }
        ensures refused { OnErr result ((self.new ≡ self.old) × (S.meaning store.new ≡ S.meaning store.old) × (trails.new ≡ trails.old)) }
    {
        let space = trails.space();
        let spare = Slots {
            steps: space.steps.saturating_sub(most.steps),
            lines: space.lines.saturating_sub(most.lines),
        };
        self.trace_beside(limit, spare, trails, store)
    }

    // Puts the interrupt pin up or down.
    #[tactic(auto, unfolding(crate::specs::Files::stands, file::specs::Machine::stands, flat::specs::Calls::cold, flat::specs::Calls::pin))]
    pub fn pin(&mut self, up: bool) -> Result<(), Refusal>
        ensures answer { (m : Meaning) → result ≡ (pin up (stands self.old m)).answer }
        ensures file { (m : Meaning) → stands self.new m ≡ (pin up (stands self.old m)).flat }
        ensures refused { OnErr result (self.new ≡ self.old) }
    {
        match self {
            File::Cold => Err(Refusal::Cold),
            File::Warm(machine) => {
                machine.control.pin = up;
                Ok(())
            }
        }
    }

    // A data register, and the bytes that it shows.
    #[tactic(auto, unfolding(crate::specs::Files::stands, file::specs::Machine::stands, flat::specs::Calls::cold, flat::specs::Calls::show_data))]
    pub fn show_data(&self, number: u8) -> Result<ShownData, Refusal>
        ensures { (m : Meaning) → result ≡ (show_data number (stands self.now m)).answer }
    {
        let machine = self.machine()?;
        let register = Register::try_from(number)?;
        let bytes = *machine.registers.bytes(register);
        Ok(ShownData {
            register: machine.registers.register(register),
            bytes,
        })
    }

    // An instruction register's address and words.
    #[tactic(auto, using(crate::proofs::Ending::all_words), unfolding(crate::specs::Files::stands, file::specs::Machine::stands, flat::specs::Calls::cold, flat::specs::Calls::show_instruction))]
    pub fn show_instruction(&self, number: u8) -> Result<ShownInstruction, Refusal>
        ensures { (m : Meaning) → result ≡ (show_instruction number (stands self.now m)).answer }
    {
        let machine = self.machine()?;
        let register = Register::try_from(number)?;
        let address = machine.instructions.address(register);
        let words = words(machine.instructions.bytes(register));
        Ok(ShownInstruction { address, words })
    }

    // The mode, ie, xct, the swiargs and the pin.
    #[tactic(auto, unfolding(crate::specs::Files::stands, file::specs::Machine::stands, flat::specs::Calls::cold, flat::specs::Calls::show_rest))]
    pub fn show_rest(&self) -> Result<Control, Refusal>
        ensures { (m : Meaning) → result ≡ (show_rest (stands self.now m)).answer }
    {
        Ok(self.machine()?.control)
    }

    // Sends back every touched line, and answers how many they were.
    #[tactic(auto, unfolding(crate::specs::Files::stands, file::specs::Machine::stands, flat::specs::Calls::cold, flat::specs::Calls::flush))]
    pub fn flush<S: Store>(&mut self, store: &mut S) -> Result<u32, Refusal>
        ensures answer { result ≡ (flush (stands self.old (S.meaning store.old))).answer }
        ensures file { stands self.new (S.meaning store.new) ≡ (flush (stands self.old (S.meaning store.old))).flat }
        ensures refused { OnErr result ((self.new ≡ self.old) × (S.meaning store.new ≡ S.meaning store.old)) }
    {
        match self {
            File::Cold => Err(Refusal::Cold),
            File::Warm(machine) => Ok(machine.registers.flush(store)),
        }
    }

    // Flushes, and makes the file cold.
    #[tactic(auto, unfolding(crate::specs::Files::stands, flat::specs::Calls::halt, flat::specs::Calls::flush))]
    pub fn halt<S: Store>(&mut self, store: &mut S) -> Result<u32, Refusal>
        ensures answer { result ≡ (halt (stands self.old (S.meaning store.old))).answer }
        ensures file { stands self.new (S.meaning store.new) ≡ (halt (stands self.old (S.meaning store.old))).flat }
        ensures refused { OnErr result ((self.new ≡ self.old) × (S.meaning store.new ≡ S.meaning store.old)) }
    {
        let count = self.flush(store)?;
        *self = File::Cold;
        Ok(count)
    }
}
