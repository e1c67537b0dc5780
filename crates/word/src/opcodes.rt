// The families of operations that share one word format and differ in a number: arithmetic,
// reductions, special registers, and the form, scalar or vector. specs/Numbers.antt holds the
// number of each case.
// From and TryFrom stand written out for each enum: the gate refuses an impl that a macro writes.
ghost use Rattle.word.specs.Numbers.{arith_number, reduction_number, special_number, form_number, Named};
ghost use Rattle.std.specs.Prelude.{◌≡◌};

use crate::numbers::UnknownNumber;

// The operations on two operands with one result.
#[derive(Clone, Copy, PartialEq, Eq, Debug)]
pub enum Arith {
    Add = 0,
    Sub = 1,
    Slt = 2,
    Mul = 3,
    And = 4,
    Or = 5,
    Xor = 6,
    Shl = 7,
    Shr = 8,
    Rol = 9,
    Ror = 10,
}

impl From<Arith> for u8 {
    ghost from_gives = { λ op n. n ≡ arith_number op };

    fn from(op: Arith) -> u8 {
        op as u8
    }
}

impl TryFrom<u8> for Arith {
    type Error = UnknownNumber;

    ghost try_from_gives = { Named arith_number };

    fn try_from(number: u8) -> Result<Arith, UnknownNumber> {
        match number {
            0 => Ok(Arith::Add),
            1 => Ok(Arith::Sub),
            2 => Ok(Arith::Slt),
            3 => Ok(Arith::Mul),
            4 => Ok(Arith::And),
            5 => Ok(Arith::Or),
            6 => Ok(Arith::Xor),
            7 => Ok(Arith::Shl),
            8 => Ok(Arith::Shr),
            9 => Ok(Arith::Rol),
            10 => Ok(Arith::Ror),
            _ => Err(UnknownNumber(number)),
        }
    }
}

// The operations that join every element of a line into one.
#[derive(Clone, Copy, PartialEq, Eq, Debug)]
pub enum Reduction {
    Add = 0,
    Mul = 1,
    Max = 2,
    Min = 3,
    And = 4,
}

impl From<Reduction> for u8 {
    ghost from_gives = { λ op n. n ≡ reduction_number op };

    fn from(op: Reduction) -> u8 {
        op as u8
    }
}

impl TryFrom<u8> for Reduction {
    type Error = UnknownNumber;

    ghost try_from_gives = { Named reduction_number };

    fn try_from(number: u8) -> Result<Reduction, UnknownNumber> {
        match number {
            0 => Ok(Reduction::Add),
            1 => Ok(Reduction::Mul),
            2 => Ok(Reduction::Max),
            3 => Ok(Reduction::Min),
            4 => Ok(Reduction::And),
            _ => Err(UnknownNumber(number)),
        }
    }
}

// The special registers, which cpy copies to and from a data register.
#[derive(Clone, Copy, PartialEq, Eq, Debug)]
pub enum Special {
    Ie = 0,
    Xct = 1,
    Swiarg0 = 2,
    Swiarg1 = 3,
    Swiarg2 = 4,
    Swiarg3 = 5,
}

impl From<Special> for u8 {
    ghost from_gives = { λ register n. n ≡ special_number register };

    fn from(register: Special) -> u8 {
        register as u8
    }
}

impl TryFrom<u8> for Special {
    type Error = UnknownNumber;

    ghost try_from_gives = { Named special_number };

    fn try_from(number: u8) -> Result<Special, UnknownNumber> {
        match number {
            0 => Ok(Special::Ie),
            1 => Ok(Special::Xct),
            2 => Ok(Special::Swiarg0),
            3 => Ok(Special::Swiarg1),
            4 => Ok(Special::Swiarg2),
            5 => Ok(Special::Swiarg3),
            _ => Err(UnknownNumber(number)),
        }
    }
}

// Whether an operation works on one element or on every element of a line.
#[derive(Clone, Copy, PartialEq, Eq, Debug)]
pub enum Form {
    Scalar = 0,
    Vector = 1,
}

impl From<Form> for u8 {
    ghost from_gives = { λ form n. n ≡ form_number form };

    fn from(form: Form) -> u8 {
        form as u8
    }
}

impl TryFrom<u8> for Form {
    type Error = UnknownNumber;

    ghost try_from_gives = { Named form_number };

    fn try_from(number: u8) -> Result<Form, UnknownNumber> {
        match number {
            0 => Ok(Form::Scalar),
            1 => Ok(Form::Vector),
            _ => Err(UnknownNumber(number)),
        }
    }
}
