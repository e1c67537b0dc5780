// What the machine holds beside its registers and its memory.

#[derive(Clone, Copy, PartialEq, Eq, Debug)]
pub enum Mode {
    User,
    Supervisor,
}

#[derive(Clone, Copy, PartialEq, Eq, Debug)]
pub struct Control {
    pub mode: Mode,
    // whether interrupts may enter
    pub ie: bool,
    // the exception type: set by every entry, and by cpy
    pub xct: u32,
    // what a software interrupt hands over
    pub swiargs: [[u8; 128]; 4],
    // whether the interrupt pin is up
    pub pin: bool,
}
