// Why the program ends early.
use bench::FileFault;
use flat::Refusal;
use std::io;
use store::LineFault;

#[derive(Debug, Drop)]
pub enum Failure {
    // it is to be called with an image and with how many million steps to make
    Usage,
    // the image is not loaded
    Image(FileFault),
    // a call was refused
    Refused(Refusal),
    // a step entered an exception
    Entered,
    // the store would not give a line
    Line(LineFault),
    // the text cannot be written
    Output(io::Error),
}

impl From<FileFault> for Failure {
    fn from(fault: FileFault) -> Failure {
        Failure::Image(fault)
    }
}

impl From<Refusal> for Failure {
    fn from(refusal: Refusal) -> Failure {
        Failure::Refused(refusal)
    }
}

impl From<LineFault> for Failure {
    fn from(fault: LineFault) -> Failure {
        Failure::Line(fault)
    }
}

impl From<io::Error> for Failure {
    fn from(error: io::Error) -> Failure {
        Failure::Output(error)
    }
}
