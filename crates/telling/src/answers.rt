// The text of an answer.
ghost use Rattle.std.specs.Prelude.{◌≡◌, Some};
ghost use Rattle.telling.specs.Texts.{answer_text, register_of};

use crate::outcomes::{Outcome, RanText};
use crate::shown::{DataText, InstructionText, RestText};
use flat::{Answer, Call, Refusal};
use std::fmt;

// What a call answered. The call has the number of the register that it shows.
#[derive(Clone, Copy)]
pub(crate) struct AnswerText<'a> {
    pub(crate) call: Call,
    pub(crate) answer: &'a Result<Answer, Refusal>,
}

// The number of the register that a call shows; 0 where it shows none.
fn register_of(call: Call) -> u8
    ensures { result ≡ register_of call }
{
    match call {
        Call::ShowData(number) | Call::ShowInstruction(number) => number,
        Call::Boot
        | Call::Step
        | Call::Run(_)
        | Call::Trace { .. }
        | Call::Pin(_)
        | Call::ShowRest
        | Call::Flush
        | Call::Halt => 0,
    }
}

impl<'a> fmt::Display for AnswerText<'a> {
    ghost output = { λ text. Some (answer_text (register_of text.call) text.answer.now) };

    fn fmt<W: fmt::Write>(&self, f: &mut fmt::Formatter<W>) -> fmt::Result {
        let AnswerText { call, answer } = *self;
        let number = register_of(call);
        match answer {
            Ok(Answer::Booted) => write!(f, "boot"),
            Ok(Answer::Stepped(stepped)) => {
                let outcome = Outcome(*stepped);
                write!(f, "step {outcome}")
            }
            Ok(Answer::Ran(ran)) => {
                let ran = RanText(*ran);
                write!(f, "run {ran}")
            }
            Ok(Answer::Traced { ran, .. }) => {
                let ran = RanText(*ran);
                write!(f, "trace {ran}")
            }
            Ok(Answer::Pinned) => write!(f, "pin"),
            Ok(Answer::Data(shown)) => {
                let text = DataText { number, shown };
                write!(f, "{text}")
            }
            Ok(Answer::Instruction(shown)) => {
                let text = InstructionText { number, shown };
                write!(f, "{text}")
            }
            Ok(Answer::Rest(control)) => {
                let text = RestText(control);
                write!(f, "{text}")
            }
            Ok(Answer::Flushed(count)) => write!(f, "flush {count}"),
            Ok(Answer::Halted(count)) => write!(f, "halt {count}"),
            Err(refusal) => {
                let number = u8::from(*refusal);
                write!(f, "x {number}")
            }
        }
    }
}
