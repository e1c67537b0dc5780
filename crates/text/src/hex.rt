// Numbers in capital hexadecimal digits. Both are written out, since their text is promised.
#![tactic(auto, using(crate::proofs::Padding::padded))]

ghost use Rattle.std.specs.Prelude.{Some};
ghost use Rattle.text.specs.Hex.{hex};

use std::fmt;

// A number in 8 digits.
#[derive(Clone, Copy)]
pub struct Hex(pub u32);

impl fmt::Display for Hex {
    ghost output = { λ number. Some (hex 8 number.0) };

    fn fmt<W: fmt::Write>(&self, f: &mut fmt::Formatter<W>) -> fmt::Result {
        let number = self.0;
        write!(f, "{number:08X}")
    }
}

// A byte in 2 digits.
#[derive(Clone, Copy)]
pub struct HexByte(pub u8);

impl fmt::Display for HexByte {
    ghost output = { λ byte. Some (hex 2 byte.0) };

    fn fmt<W: fmt::Write>(&self, f: &mut fmt::Formatter<W>) -> fmt::Result {
        let byte = self.0;
        write!(f, "{byte:02X}")
    }
}
