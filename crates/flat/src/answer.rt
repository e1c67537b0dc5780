// What the calls answer, as values.
use crate::control::Control;
use crate::exception::Stepped;
use crate::records::Ran;
use crate::shown::{ShownData, ShownInstruction};

#[derive(Clone, Copy, PartialEq, Eq, Debug)]
pub enum Answer {
    Booted,
    Stepped(Stepped),
    Ran(Ran),
    // what trace adds to its trails is in these: as many records as it made steps, and so many lines sent back
    Traced { ran: Ran, sent: usize },
    Pinned,
    Data(ShownData),
    Instruction(ShownInstruction),
    Rest(Control),
    // how many lines were unmarked
    Flushed(u32),
    Halted(u32),
}
