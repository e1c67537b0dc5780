// A call, made from its value.
ghost use Rattle.std.specs.Prelude.{◌≡◌, OnErr};
ghost use Rattle.flat.specs.Calls.{show_data, show_instruction, show_rest, trace};
ghost use Rattle.flat.specs.Fed.{at_most, made, told, told_trace};
ghost use Rattle.flat.specs.declared.answer.Answer.TheVariants.{Data, Instruction, Rest};
ghost use Rattle.calls.specs.Files.{stands};
ghost use Rattle.calls.specs.Law.{Continues};
ghost use Rattle.calls.specs.Made.{Makes};
ghost use Rattle.calls.specs.Trails.{space};

use crate::files::File;
use crate::trails::Trails;
use flat::{Answer, Call, Refusal, Slots};
use store::Store;

// Shows a data register. The store is handed in only for what the file stands for on it.
#[tactic(auto, using(flat::proofs::Shows::shows))]
fn data<S: Store>(file: &File, number: u8, store: &S) -> Result<Answer, Refusal>
    ensures answer { result ≡ (told Data (show_data number (stands file.now (S.meaning store.now)))).answer }
    ensures same { stands file.now (S.meaning store.now) ≡ (show_data number (stands file.now (S.meaning store.now))).flat }
{
    let shown = file.show_data(number)?;
    Ok(Answer::Data(shown))
}

// Shows an instruction register.
#[tactic(auto, using(flat::proofs::Shows::shows))]
fn instruction<S: Store>(file: &File, number: u8, store: &S) -> Result<Answer, Refusal>
    ensures answer { result ≡ (told Instruction (show_instruction number (stands file.now (S.meaning store.now)))).answer }
    ensures same { stands file.now (S.meaning store.now) ≡ (show_instruction number (stands file.now (S.meaning store.now))).flat }
{
    let shown = file.show_instruction(number)?;
    Ok(Answer::Instruction(shown))
}

// Shows all other fields.
#[tactic(auto, using(flat::proofs::Shows::shows))]
fn rest<S: Store>(file: &File, store: &S) -> Result<Answer, Refusal>
    ensures answer { result ≡ (told Rest (show_rest (stands file.now (S.meaning store.now)))).answer }
    ensures same { stands file.now (S.meaning store.now) ≡ (show_rest (stands file.now (S.meaning store.now))).flat }
{
    let shown = file.show_rest()?;
    Ok(Answer::Rest(shown))
}

// Traces, and counts the lines that were sent back.
#[tactic(auto, using(trail::proofs::Adding::added_fits, trail::proofs::Adding::space_after))]
fn traced<S: Store>(
    file: &mut File,
    limit: u32,
    most: Slots,
    trails: &mut Trails,
    store: &mut S,
) -> Result<Answer, Refusal>
    ensures made { Makes (told_trace (trace limit (at_most most (space trails.old)) (stands file.old (S.meaning store.old)))) result (stands file.new (S.meaning store.new)) trails.old trails.new }
    ensures refused { OnErr result ((file.new ≡ file.old) × (S.meaning store.new ≡ S.meaning store.old) × (trails.new ≡ trails.old)) }
{
    let before = trails.lines.space();
    let ran = file.trace_within(limit, most, trails, store)?;
    let sent = before - trails.lines.space();
    Ok(Answer::Traced { ran, sent })
}

// Makes a call.
#[tactic(auto, unfolding(flat::specs::Fed::made))]
fn make<S: Store>(
    file: &mut File,
    call: Call,
    trails: &mut Trails,
    store: &mut S,
) -> Result<Answer, Refusal>
    ensures made { Makes (made (space trails.old) call (stands file.old (S.meaning store.old))) result (stands file.new (S.meaning store.new)) trails.old trails.new }
    ensures refused { OnErr result ((file.new ≡ file.old) × (S.meaning store.new ≡ S.meaning store.old) × (trails.new ≡ trails.old)) }
{
    match call {
        Call::Boot => {
            file.boot(store)?;
            Ok(Answer::Booted)
        }
        Call::Step => {
            let stepped = file.step(store)?;
            Ok(Answer::Stepped(stepped))
        }
        Call::Run(limit) => {
            let ran = file.run(limit, store)?;
            Ok(Answer::Ran(ran))
        }
        Call::Trace { limit, most } => traced(file, limit, most, trails, store),
        Call::Pin(up) => {
            file.pin(up)?;
            Ok(Answer::Pinned)
        }
        Call::ShowData(number) => data(file, number, store),
        Call::ShowInstruction(number) => instruction(file, number, store),
        Call::ShowRest => rest(file, store),
        Call::Flush => {
            let count = file.flush(store)?;
            Ok(Answer::Flushed(count))
        }
        Call::Halt => {
            let count = file.halt(store)?;
            Ok(Answer::Halted(count))
        }
    }
}

impl File {
    // Makes a call on what the calls before it left. A trace adds to the trails, and no other call touches them.
    // Where file, store and trails are what the law says after a list of calls, they are so after that list and
    // this call.
    pub fn call<S: Store>(
        &mut self,
        call: Call,
        trails: &mut Trails,
        store: &mut S,
    ) -> Result<Answer, Refusal>
        ensures made { Makes (made (space trails.old) call (stands self.old (S.meaning store.old))) result (stands self.new (S.meaning store.new)) trails.old trails.new }
        ensures law { Continues call result trails.old trails.new self.old self.new (S.meaning store.old) (S.meaning store.new) }
        ensures refused { OnErr result ((self.new ≡ self.old) × (S.meaning store.new ≡ S.meaning store.old) × (trails.new ≡ trails.old)) }
    {
        make(self, call, trails, store)
    }
}
