// The layout of words: where each field stands, how it is read and written, and the numbers of the
// groups and of the opcodes that stand alone.
ghost use Rattle.std.specs.Prelude.{◌≡◌, ◌+◌, ◌-◌, ◌*◌, ◌^◌, ◌<◌, ◌≤◌, ◌↔◌, IsTrue, IfSome, IfNone, pos};
ghost use Rattle.word.specs.Decodes.{Placed};
ghost use Rattle.word.specs.Fields.{plain, signed, Fits, bits_of, extract};

use crate::no_word::NoWord;
use crate::numbers::UnknownNumber;

// The groups, as numbers: an enum of them would only add a second match.
pub(crate) const ARITHMETIC: u8 = 0;

pub(crate) const REDUCE: u8 = 1;

pub(crate) const LOAD: u8 = 2;

pub(crate) const STORE: u8 = 3;

pub(crate) const DUP: u8 = 4;

pub(crate) const FETCH: u8 = 5;

pub(crate) const JUMP: u8 = 6;

pub(crate) const SYSTEM: u8 = 8;

// The opcodes that no enum numbers: of group 0, where div.v is one more than div.s, of group 6 and of
// group 8. Each stands in one arm of reading and one of writing, so that an enum of them would only add a
// second match.
pub(crate) const ADD_ADDRESS: u8 = 11;

pub(crate) const DIV: u8 = 14;

pub(crate) const JUMP_NOT_ZERO: u8 = 0;

pub(crate) const JUMP_ZERO: u8 = 1;

pub(crate) const HAND: u8 = 2;

pub(crate) const SWI: u8 = 12;

pub(crate) const RETI: u8 = 13;

pub(crate) const RETX: u8 = 14;

// The opcode of group 5, in one bit.
pub(crate) const FETCH_OPCODE: u8 = 1;

// A fetch ends at this register or before it.
pub(crate) const LAST_FETCHED: u8 = 62;

// A field of a word: the bit at which it begins, and how many bits it has.
#[derive(Clone, Copy)]
pub(crate) struct Field {
    at: u32,
    bits: u32,
    ghost has_bits: { 0 < bits },
    ghost is_part: { bits ≤ 12 },
    ghost in_word: { at + bits ≤ 32 },
}

pub(crate) const GROUP: Field = Field { at: 28, bits: 4 };

pub(crate) const A: Field = Field { at: 22, bits: 6 };

pub(crate) const B: Field = Field { at: 16, bits: 6 };

pub(crate) const C: Field = Field { at: 10, bits: 6 };

pub(crate) const D: Field = Field { at: 4, bits: 6 };

pub(crate) const SHORT_D: Field = Field { at: 5, bits: 5 };

pub(crate) const V: Field = Field { at: 4, bits: 1 };

pub(crate) const I: Field = Field { at: 4, bits: 12 };

pub(crate) const SHORT_I: Field = Field { at: 5, bits: 11 };

pub(crate) const J: Field = Field { at: 1, bits: 4 };

pub(crate) const W: Field = Field { at: 11, bits: 5 };

pub(crate) const OPCODE: Field = Field { at: 0, bits: 4 };

pub(crate) const SHORT_OPCODE: Field = Field { at: 0, bits: 1 };

// What may be unused above the opcode: 7 or 12 bits.
pub(crate) const Z7: Field = Field { at: 4, bits: 7 };

pub(crate) const Z12: Field = Field { at: 4, bits: 12 };

impl Field {
    ghost use Rattle.word.specs.declared.numbers.UnknownNumber.{UnknownNumber};

    // The field's bits in a word, as a number.
    fn extract(self, word: u32) -> u32
        ensures { result ≡ extract word self.at self.bits }
    {
        (word >> self.at) % (1 << self.bits)
    }

    pub(crate) fn is_zero(self, word: u32) -> bool
        ensures { IsTrue result ↔ (extract word self.at self.bits ≡ 0) }
    {
        self.extract(word) == 0
    }

    // The number in a field that is not wide.
    pub(crate) fn read(self, word: u32) -> u8
        requires { self.bits ≤ 8 }
        ensures { result ≡ extract word self.at self.bits }
    {
        self.extract(word) as u8
    }

    // The case of an enum that has the field's number, if any.
    pub(crate) fn named<T: TryFrom<u8, Error = UnknownNumber>>(self, word: u32) -> Option<T>
        requires { self.bits ≤ 8 }
        ensures some { IfSome result (λ t. T.try_from_gives (extract word self.at self.bits) (Ok t)) }
        ensures none { IfNone result ((e : UnknownNumber) × T.try_from_gives (extract word self.at self.bits) (Err e)) }
    {
        T::try_from(self.read(word)).ok()
    }

    // The signed number in a field.
    pub(crate) fn read_signed(self, word: u32) -> i16
        ensures fits { Fits (signed result self.bits) }
        ensures value { bits_of (signed result self.bits) ≡ extract word self.at self.bits }
    {
        let half = self.half();
        let number = self.extract(word) as i16;
        if number < half {
            number
        } else {
            number - 2 * half
        }
    }

    // A number's bits in a word, refused where it does not fit the field.
    pub(crate) fn write(self, number: u8) -> Result<u32, NoWord>
        ensures { Placed (plain number self.bits) self.at result }
    {
        let number = u32::from(number);
        if number < 1 << self.bits {
            Ok(self.place(number))
        } else {
            Err(NoWord)
        }
    }

    // A signed number's bits in a word, refused where it does not fit the field.
    pub(crate) fn write_signed(self, number: i16) -> Result<u32, NoWord>
        ensures { Placed (signed number self.bits) self.at result }
    {
        let half = self.half();
        match number {
            0.. if number < half => Ok(self.place(number as u32)),
            ..0 if -half <= number => Ok(self.place((number + 2 * half) as u32)),
            _ => Err(NoWord),
        }
    }

    // The field's bits, moved to their place in a word.
    #[tactic(auto, using(crate::proofs::Powers::moved))]
    fn place(self, bits: u32) -> u32
        requires { bits < 2 ^ self.bits }
        ensures { result ≡ bits * 2 ^ self.at }
    {
        bits << self.at
    }

    // Half of how many numbers the field holds: signed ones lie from -half up to and without half.
    #[tactic(auto, using(crate::proofs::Powers::halves))]
    fn half(self) -> i16
        ensures value { result ≡ pos (2 ^ (self.bits - 1)) }
        ensures most { 2 ^ (self.bits - 1) ≤ 2048 }
        ensures twice { 2 * 2 ^ (self.bits - 1) ≡ 2 ^ self.bits }
    {
        1 << (self.bits - 1)
    }
}
