// The text of a word.
use std::fmt;
use word::decode;

// A word, shown as what it decodes to.
#[derive(Clone, Copy)]
pub struct Disassembly(pub u32);

impl fmt::Display for Disassembly {
    fn fmt<W: fmt::Write>(&self, f: &mut fmt::Formatter<W>) -> fmt::Result {
        match decode(self.0) {
            Some(operation) => write!(f, "{operation}"),
            None => write!(f, "undefined"),
        }
    }
}
