// What an operation is subject to: the words in which its row of rules is written. specs/Raising.antt has
// the row of each operation, and says what each word means in a machine.
use crate::exception::Exception;
use word::{Arith, Form, Reduction};

// The registers that must not be 64 bits wide.
#[derive(Clone, Copy, PartialEq, Eq, Debug)]
pub enum Narrow {
    NoField,
    One(u8),
    // those that an operation of group 0 says
    OfArith { op: Arith, a: u8, b: u8, c: u8 },
    Two(u8, u8),
    // those that a reduction says
    OfReduction { op: Reduction, a: u8 },
}

// The registers that must be of one width in the vector form.
#[derive(Clone, Copy, PartialEq, Eq, Debug)]
pub enum Even {
    AnyWidths,
    Two {
        form: Form,
        a: u8,
        c: u8,
    },
    Three {
        form: Form,
        a: u8,
        b: u8,
        c: u8,
    },
    Four {
        form: Form,
        a: u8,
        b: u8,
        c: u8,
        d: u8,
    },
}

// The lines that must be there.
#[derive(Clone, Copy, PartialEq, Eq, Debug)]
pub enum Needs {
    NoLine,
    // the one where load and store go
    Target { b: u8, i: i16 },
    // those that fetch takes
    Fetched { b: u8, i: i16, j: u8 },
}

// The lines that get bytes.
#[derive(Clone, Copy, PartialEq, Eq, Debug)]
pub enum Writes {
    Nothing,
    // the register's own
    Own(u8),
    // those of two registers
    Both(u8, u8),
    // the one where the register goes
    There { a: u8, b: u8, i: i16 },
}

// The divisor: dC's element, or in the vector form each of its elements, cast to dA's type.
#[derive(Clone, Copy, PartialEq, Eq, Debug)]
pub enum Divisor {
    Absent,
    Cast { form: Form, a: u8, c: u8 },
}

// Where ipc goes.
#[derive(Clone, Copy, PartialEq, Eq, Debug)]
pub enum Goes {
    // to the next word
    On,
    // to the next word where the register's element is zero, and else elsewhere
    OnIfZero(u8),
    // to the next word where it is not zero, and else elsewhere
    OnIfNotZero(u8),
    // nowhere: the other mode's ipc is next
    Nowhere,
}

// The row of an operation.
#[derive(Clone, Copy, PartialEq, Eq, Debug)]
pub struct Rules {
    // the exception in user mode of an operation that is the supervisor's
    pub in_user_mode: Option<Exception>,
    pub not_wide: Narrow,
    pub one_width: Even,
    pub needs: Needs,
    pub writes: Writes,
    pub divisor: Divisor,
    pub goes: Goes,
}
