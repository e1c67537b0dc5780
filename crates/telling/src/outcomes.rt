// What a step and a run answered.
ghost use Rattle.std.specs.Prelude.{Some};
ghost use Rattle.telling.specs.Texts.{outcome_text, ran_text};

use flat::{Ran, Stepped};
use std::fmt;
use text::Hex;

// That a step is done, or the exception that it entered.
#[derive(Clone, Copy)]
pub(crate) struct Outcome(pub(crate) Stepped);

impl fmt::Display for Outcome {
    ghost output = { λ outcome. Some (outcome_text outcome.0) };

    fn fmt<W: fmt::Write>(&self, f: &mut fmt::Formatter<W>) -> fmt::Result {
        match self.0 {
            Stepped::Done => write!(f, "done"),
            Stepped::Entered(exception) => {
                let number = Hex(u32::from(exception));
                write!(f, "entered {number}")
            }
        }
    }
}

// The steps made, and what the last answered.
#[derive(Clone, Copy)]
pub(crate) struct RanText(pub(crate) Ran);

impl fmt::Display for RanText {
    ghost output = { λ ran. Some (ran_text ran.0) };

    fn fmt<W: fmt::Write>(&self, f: &mut fmt::Formatter<W>) -> fmt::Result {
        let Ran { steps, last } = self.0;
        let last = Outcome(last);
        write!(f, "{steps} {last}")
    }
}
