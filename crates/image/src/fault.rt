// Why an image is refused, and at which of its records.
ghost use Rattle.std.specs.Prelude.{◌≡◌, Some};
ghost use Rattle.image.specs.declared.fault.Cause.TheVariants.{Line};
ghost use Rattle.image.specs.Causes.{refusal_of, line_of_fault, printed};
ghost use Rattle.image.specs.Refusals.{refusal_number};

use std::error::Error;
use std::fmt;
use store::LineFault;

#[derive(Clone, Copy, PartialEq, Eq, Debug)]
pub enum ImageRefusal {
    // a record that is cut, missing or past the end, or a place of under 4 bytes
    Cut = 7,
    // a record of no known kind, or an end with a body
    Kind = 8,
    // a place on a line that is missing or cannot be written
    Place = 9,
}

// The number by which documents, programs and people name a refusal.
impl From<ImageRefusal> for u8 {
    ghost from_gives = { λ refusal n. n ≡ refusal_number refusal };

    fn from(refusal: ImageRefusal) -> u8 {
        refusal as u8
    }
}

#[derive(Clone, Copy, PartialEq, Eq, Debug)]
pub enum Cause {
    // the record's header, kind or body
    Form(ImageRefusal),
    // the store will not take a line of the place
    Line(LineFault),
}

#[derive(Clone, Copy, PartialEq, Eq, Debug)]
pub struct Fault {
    pub cause: Cause,
    // the byte place at which the record begins
    pub at: usize,
}

impl Cause {
    // The fault of the record that begins at a byte place.
    pub(crate) fn at(self, at: usize) -> Fault
        ensures { result ≡ record { cause = self; at = at } }
    {
        Fault { cause: self, at }
    }
}

impl From<LineFault> for Cause {
    ghost from_gives = { λ e r. r ≡ Line e };

    fn from(refused: LineFault) -> Cause {
        Cause::Line(refused)
    }
}

impl Fault {
    pub fn refusal(&self) -> ImageRefusal
        ensures { result ≡ refusal_of self.now.cause }
    {
        match self.cause {
            Cause::Form(refusal) => refusal,
            Cause::Line(_) => ImageRefusal::Place,
        }
    }

    // The first line at fault, or 0 where no line is: the rules of images give a fault a line in each
    // case, and programs print it.
    pub fn line(&self) -> u32
        ensures { result ≡ line_of_fault self.now.cause }
    {
        match self.cause {
            Cause::Form(_) => 0,
            Cause::Line(fault) => fault.line,
        }
    }
}

// The refusal as programs answer it, and below it where to look in the image and in the store. (Written
// out, since its text is promised.)
impl fmt::Display for Fault {
    ghost output = { λ fault. Some (printed fault) };

    fn fmt<W: fmt::Write>(&self, f: &mut fmt::Formatter<W>) -> fmt::Result {
        let number = u8::from(self.refusal());
        let at = self.at;
        let line = self.line();
        write!(f, "x {number}\nrecord at byte {at}, line {line}")
    }
}

impl Error for Fault {}
