// Why a file is not loaded.
ghost use Rattle.bench.specs.Faults.{fault_of, text_of};
ghost use Rattle.bench.specs.declared.fault.FileFault.TheVariants.{Refused};
ghost use Rattle.std.specs.IoError.{error_kind};
ghost use Rattle.std.specs.Prelude.{◌≡◌, Some};

use image::Fault;
use std::error::Error;
use std::io::ErrorKind;
use std::{fmt, io};

#[derive(Clone, Copy, PartialEq, Eq, Debug)]
pub enum FileFault {
    // there is no file
    Missing,
    // there is a file, and it cannot be read
    Unreadable,
    // there is no memory for its bytes
    OutOfMemory,
    // its bytes are no image that the store takes
    Refused(Fault),
}

// Written out, since its text is promised.
impl fmt::Display for FileFault {
    ghost output = { λ fault. Some (text_of fault) };

    fn fmt<W: fmt::Write>(&self, f: &mut fmt::Formatter<W>) -> fmt::Result {
        match self {
            FileFault::Missing => write!(f, "no image"),
            FileFault::Unreadable => write!(f, "no image: the file cannot be read"),
            FileFault::OutOfMemory => write!(f, "no image: out of memory"),
            FileFault::Refused(fault) => write!(f, "{fault}"),
        }
    }
}

impl Error for FileFault {}

impl From<Fault> for FileFault {
    ghost from_gives = { λ fault e. e ≡ Refused fault };

    fn from(fault: Fault) -> FileFault {
        FileFault::Refused(fault)
    }
}

impl From<io::Error> for FileFault {
    ghost from_gives = { λ error e. e ≡ fault_of (error_kind error) };

    fn from(error: io::Error) -> FileFault {
        match error.kind() {
            ErrorKind::NotFound => FileFault::Missing,
            ErrorKind::OutOfMemory => FileFault::OutOfMemory,
            _ => FileFault::Unreadable,
        }
    }
}
