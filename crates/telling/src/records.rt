// The lines below a trace.
ghost use Rattle.std.specs.Prelude.{Some};
ghost use Rattle.telling.specs.Texts.{record_text, sent_text};

use crate::outcomes::Outcome;
use flat::StepRecord;
use std::fmt;
use text::{Hex, mode_text};

// The line of a step.
#[derive(Clone, Copy)]
pub(crate) struct RecordText(pub(crate) StepRecord);

impl fmt::Display for RecordText {
    ghost output = { λ record_. Some (record_text record_.0) };

    fn fmt<W: fmt::Write>(&self, f: &mut fmt::Formatter<W>) -> fmt::Result {
        let StepRecord {
            mode,
            address,
            word,
            answer,
        } = self.0;
        let mode = mode_text(mode);
        let address = Hex(address);
        let word = Hex(word);
        let answer = Outcome(answer);
        write!(f, "  {mode} {address} {word} {answer}")
    }
}

// The line of a line that was sent back.
#[derive(Clone, Copy)]
pub(crate) struct SentText(pub(crate) u32);

impl fmt::Display for SentText {
    ghost output = { λ sent. Some (sent_text sent.0) };

    fn fmt<W: fmt::Write>(&self, f: &mut fmt::Formatter<W>) -> fmt::Result {
        let line = self.0;
        write!(f, "  sent {line}")
    }
}
