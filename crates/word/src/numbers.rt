// What each enum answers for a number that none of its cases has.
ghost use Rattle.std.specs.Prelude.{Some};
ghost use Rattle.word.specs.Texts.{unknown_text};

use std::error::Error;
use std::fmt;

// A number that no case of an enum has.
#[derive(Clone, Copy, PartialEq, Eq, Debug)]
pub struct UnknownNumber(pub u8);

// Written out, since its text is promised.
impl fmt::Display for UnknownNumber {
    ghost output = { λ e. Some (unknown_text e) };

    fn fmt<W: fmt::Write>(&self, f: &mut fmt::Formatter<W>) -> fmt::Result {
        write!(f, "nothing has the number {}", self.0)
    }
}

impl Error for UnknownNumber {}
