// The text of what became of an image.
use bench::FileFault;
use std::fmt;

// The first line of a listing, or two where the image is refused.
#[derive(Clone, Copy)]
pub struct OutcomeText(pub Result<usize, FileFault>);

impl fmt::Display for OutcomeText {
    fn fmt<W: fmt::Write>(&self, f: &mut fmt::Formatter<W>) -> fmt::Result {
        match &self.0 {
            Ok(count) => write!(f, "image taken, {count} bytes"),
            Err(fault) => write!(f, "{fault}"),
        }
    }
}
