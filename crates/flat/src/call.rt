// The calls, as values: what may be made of a machine, with what it is given.
use crate::records::Slots;

#[derive(Clone, Copy, PartialEq, Eq, Debug)]
pub enum Call {
    Boot,
    Step,
    // up to so many steps
    Run(u32),
    // up to so many steps, with so much space at most for records of them and for lines sent back
    Trace { limit: u32, most: Slots },
    // puts the pin up or down
    Pin(bool),
    // shows a data register, an instruction register, or all other fields
    ShowData(u8),
    ShowInstruction(u8),
    ShowRest,
    Flush,
    Halt,
}
