// The line that is printed of a refused image.
ghost use Rattle.std.specs.Prelude.{Some};
ghost use Rattle.panel.specs.Lines.{refused_text};

use image::ImageRefusal;
use std::fmt;

#[derive(Clone, Copy, PartialEq, Eq, Debug)]
pub struct RefusedImage(pub ImageRefusal);

// Written out, since its text is promised.
impl fmt::Display for RefusedImage {
    ghost output = { λ image. Some (refused_text image) };

    fn fmt<W: fmt::Write>(&self, f: &mut fmt::Formatter<W>) -> fmt::Result {
        let number = u8::from(self.0);
        write!(f, "x {number}")
    }
}
