// The exceptions that a step may enter, and what a step answers.
ghost use Rattle.std.specs.Prelude.{◌≡◌};
ghost use Rattle.flat.specs.Exceptions.{exception_number};

use word::Special;

// specs/Exceptions.antt has the number of each.
#[derive(Clone, Copy, PartialEq, Eq, Debug)]
pub enum Exception {
    // the interrupt pin is up
    Interrupt,
    // a divisor that is zero
    ZeroDivisor,
    // an undefined word, hand in user mode, or a vector form over types of unequal width
    Undefined,
    // elements of 64 bits where an operation takes none
    Wide,
    // a software interrupt
    Software,
    // reti in user mode
    UserReti,
    // retx in user mode
    UserRetx,
    // cpy out of a special register in user mode
    UserCopyOut(Special),
    // cpy into a special register in user mode
    UserCopyIn(Special),
    // the next line is in no instruction register
    NextLine,
    // a line that is not below the store's size
    MissingLine,
    // a line that cannot be written
    FixedLine,
}

// The number that xct gets and that documents use.
impl From<Exception> for u32 {
    ghost from_gives = { λ exception n. n ≡ exception_number exception };

    fn from(exception: Exception) -> u32 {
        match exception {
            Exception::Interrupt => 0x0,
            Exception::ZeroDivisor => 0x1,
            Exception::Undefined => 0x2,
            Exception::Wide => 0x3,
            Exception::Software => 0x4,
            Exception::UserReti => 0x5,
            Exception::UserRetx => 0x6,
            Exception::UserCopyOut(from) => 0x7 + 2 * u32::from(u8::from(from)),
            Exception::UserCopyIn(to) => 0x8 + 2 * u32::from(u8::from(to)),
            Exception::NextLine => 0x15,
            Exception::MissingLine => 0x16,
            Exception::FixedLine => 0x17,
        }
    }
}

// What a step answers.
#[derive(Clone, Copy, PartialEq, Eq, Debug)]
pub enum Stepped {
    Done,
    Entered(Exception),
}
