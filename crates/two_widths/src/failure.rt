// Why the program ends early.
use flat::Refusal;
use std::io;
use store::LineFault;

#[derive(Debug, Drop)]
pub enum Failure {
    // a call was refused
    Refused(Refusal),
    // the store would not give a line
    Line(LineFault),
    // the text cannot be written
    Output(io::Error),
    // after boot so many registers carry the tag of line 0
    Count(u8),
}

impl From<Refusal> for Failure {
    fn from(refusal: Refusal) -> Failure {
        Failure::Refused(refusal)
    }
}

impl From<LineFault> for Failure {
    fn from(fault: LineFault) -> Failure {
        Failure::Line(fault)
    }
}

impl From<io::Error> for Failure {
    fn from(error: io::Error) -> Failure {
        Failure::Output(error)
    }
}
