// The types of elements, by which load, store and dup read or write a line. specs/Numbers.antt
// holds the number of each, and specs/Types.antt the width and the sign.
// From and TryFrom stand written out, as in opcodes.rt: the gate refuses an impl that a macro writes.
ghost use Rattle.word.specs.Numbers.{type_number, Named};
ghost use Rattle.word.specs.Types.{width, bits, signed};
ghost use Rattle.std.specs.Prelude.{◌≡◌};

use crate::numbers::UnknownNumber;

// An unsigned (U) or signed (S) number of so many bits.
#[derive(Clone, Copy, PartialEq, Eq, Debug)]
pub enum ElementType {
    U8 = 0,
    S8 = 1,
    U16 = 2,
    S16 = 3,
    U32 = 4,
    S32 = 5,
    U64 = 6,
    S64 = 7,
}

// The number by which words and registers name a type.
impl From<ElementType> for u8 {
    ghost from_gives = { λ kind n. n ≡ type_number kind };

    fn from(kind: ElementType) -> u8 {
        kind as u8
    }
}

// The type that has this number, if any.
impl TryFrom<u8> for ElementType {
    type Error = UnknownNumber;

    ghost try_from_gives = { Named type_number };

    fn try_from(number: u8) -> Result<ElementType, UnknownNumber> {
        match number {
            0 => Ok(ElementType::U8),
            1 => Ok(ElementType::S8),
            2 => Ok(ElementType::U16),
            3 => Ok(ElementType::S16),
            4 => Ok(ElementType::U32),
            5 => Ok(ElementType::S32),
            6 => Ok(ElementType::U64),
            7 => Ok(ElementType::S64),
            _ => Err(UnknownNumber(number)),
        }
    }
}

impl ElementType {
    // How many bytes an element has.
    pub fn width(self) -> usize
        ensures { result ≡ width self }
    {
        match self {
            ElementType::U8 | ElementType::S8 => 1,
            ElementType::U16 | ElementType::S16 => 2,
            ElementType::U32 | ElementType::S32 => 4,
            ElementType::U64 | ElementType::S64 => 8,
        }
    }

    // How many bits an element has.
    pub fn bits(self) -> u32
        ensures { result ≡ bits self }
    {
        8 * self.width() as u32
    }

    // Whether an element is read in two's complement.
    pub fn is_signed(self) -> bool
        ensures { result ≡ signed self }
    {
        match self {
            ElementType::U8 | ElementType::U16 | ElementType::U32 | ElementType::U64 => false,
            ElementType::S8 | ElementType::S16 | ElementType::S32 | ElementType::S64 => true,
        }
    }
}
