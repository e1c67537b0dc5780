// The text of a run: its lines, and below them the words of the first.
use crate::disassembly::Disassembly;
use std::fmt;
use survey::Run;
use text::Hex;
use word::words;

// A run, shown with the words of its first line.
#[derive(Clone, Copy)]
pub struct RunText(pub Run);

impl fmt::Display for RunText {
    fn fmt<W: fmt::Write>(&self, f: &mut fmt::Formatter<W>) -> fmt::Result {
        let run = &self.0;
        let first = run.first;
        let last = run.after.saturating_sub(1);
        let kind = if run.line.writable {
            "writable"
        } else {
            "fixed"
        };
        if first == last {
            write!(f, "line {first} {kind}")?;
        } else {
            write!(f, "lines {first} to {last} {kind}")?;
        }
        // addresses go on past the highest from 0, as the machine's do
        let base = first.wrapping_mul(128);
        for (offset, word) in (0..128).step_by(4).zip(words(&run.line.bytes)) {
            let address = Hex(base.wrapping_add(offset));
            let (bits, meaning) = (Hex(word), Disassembly(word));
            write!(f, "\n  {address} {bits} {meaning}")?;
        }
        Ok(())
    }
}
