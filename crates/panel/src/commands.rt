// What a letter asks for, and what that does.
ghost use Rattle.std.specs.Prelude.{◌≡◌, OnErr};
ghost use Rattle.calls.specs.Files.{stands};
ghost use Rattle.panel.specs.Commands.{call_of, command_of, obeyed};

use calls::{File, Trails};
use flat::{Call, Refusal};
use store::Store;
use trail::Trail;

// The most steps of a run.
pub const RUN_STEPS: u32 = 1000;

#[derive(Clone, Copy, PartialEq, Eq, Debug)]
pub enum Command {
    // one step
    Step,
    // steps up to the first that enters
    Run,
    // every touched line is sent back
    Flush,
    // the end of the input
    End,
    // nothing: a newline
    Skip,
    // no command
    Unknown,
}

// The command of a letter.
pub fn command_of(letter: char) -> Command
    ensures { result ≡ command_of letter }
{
    match letter {
        's' => Command::Step,
        'g' => Command::Run,
        'f' => Command::Flush,
        'q' => Command::End,
        '\n' => Command::Skip,
        _ => Command::Unknown,
    }
}

// The call that a command makes, if it makes one.
pub fn call_of(command: Command) -> Option<Call>
    ensures { result ≡ call_of command }
{
    match command {
        Command::Step => Some(Call::Step),
        Command::Run => Some(Call::Run(RUN_STEPS)),
        Command::Flush => Some(Call::Flush),
        Command::End | Command::Skip | Command::Unknown => None,
    }
}

// Does what a command asks for. One that asks for nothing changes nothing.
#[tactic(auto, using(crate::proofs::Obeying::obeying))]
pub fn obey<S: Store>(command: Command, file: &mut File, store: &mut S) -> Result<(), Refusal>
    ensures answer { result ≡ (obeyed command (stands file.old (S.meaning store.old))).answer }
    ensures file { stands file.new (S.meaning store.new) ≡ (obeyed command (stands file.old (S.meaning store.old))).flat }
    ensures refused { OnErr result ((file.new ≡ file.old) × (S.meaning store.new ≡ S.meaning store.old)) }
{
    if let Some(call) = call_of(command) {
        // none of the calls adds to them
        let mut trails = Trails {
            steps: Trail::new(&mut []),
            lines: Trail::new(&mut []),
        };
        file.call(call, &mut trails, store)?;
    }
    Ok(())
}
