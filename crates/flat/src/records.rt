// What a run answers, and what a trace records of a step.
use crate::control::Mode;
use crate::exception::Stepped;

// Mode, address and word are those before the step.
#[derive(Clone, Copy, PartialEq, Eq, Debug)]
pub struct StepRecord {
    pub mode: Mode,
    pub address: u32,
    pub word: u32,
    pub answer: Stepped,
}

// What a run answers: the steps made, and the last answer, which is done where no step was made.
#[derive(Clone, Copy, PartialEq, Eq, Debug)]
pub struct Ran {
    pub steps: u32,
    pub last: Stepped,
}

// A number of slots in each trail of a trace: that of its steps, and that of the lines that are sent back.
#[derive(Clone, Copy, PartialEq, Eq, Debug)]
pub struct Slots {
    pub steps: usize,
    pub lines: usize,
}
