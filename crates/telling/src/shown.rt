// What the calls that show answered.
#![tactic(auto, using(crate::proofs::Parts::more_parts))]

ghost use Rattle.std.specs.Prelude.{◌≡◌, ◌<◌, Some};
ghost use Rattle.flat.specs.Operations.{swiarg};
ghost use Rattle.telling.specs.Texts.{bit_text, data_text, instruction_text, rest_text, swiargs_text};

use crate::rows::{ByteRows, WordRows};
use flat::{Control, DataRegister, ShownData, ShownInstruction};
use std::fmt;
use text::{Hex, mode_text};

const SWIARGS: usize = 4;

// A data register, with its number.
#[derive(Clone, Copy)]
pub(crate) struct DataText<'a> {
    pub(crate) number: u8,
    pub(crate) shown: &'a ShownData,
}

impl<'a> fmt::Display for DataText<'a> {
    ghost output = { λ text. Some (data_text text.number text.shown.now) };

    fn fmt<W: fmt::Write>(&self, f: &mut fmt::Formatter<W>) -> fmt::Result {
        let DataText { number, shown } = *self;
        let DataRegister { address, kind } = shown.register;
        let address = Hex(address);
        let rows = ByteRows {
            margin: " ",
            bytes: &shown.bytes,
        };
        write!(f, "d {number} address {address} type {kind}{rows}")
    }
}

// An instruction register, with its number.
#[derive(Clone, Copy)]
pub(crate) struct InstructionText<'a> {
    pub(crate) number: u8,
    pub(crate) shown: &'a ShownInstruction,
}

impl<'a> fmt::Display for InstructionText<'a> {
    ghost output = { λ text. Some (instruction_text text.number text.shown.now) };

    fn fmt<W: fmt::Write>(&self, f: &mut fmt::Formatter<W>) -> fmt::Result {
        let InstructionText { number, shown } = *self;
        let address = Hex(shown.address);
        let rows = WordRows(&shown.words);
        write!(f, "i {number} address {address}{rows}")
    }
}

fn bit_text(bit: bool) -> &'static str
    ensures { result.now ≡ bit_text bit }
{
    if bit { "1" } else { "0" }
}

fn swiarg(control: &Control, n: usize) -> &[u8; 128]
    requires { n < 4 }
    ensures { result.now ≡ swiarg control.now n }
{
    &control.swiargs[n]
}

// The four swiargs, below what stands before them.
#[derive(Clone, Copy)]
struct Swiargs<'a>(&'a Control);

impl<'a> fmt::Display for Swiargs<'a> {
    ghost output = { λ text. Some (swiargs_text text.0.now) };

    fn fmt<W: fmt::Write>(&self, f: &mut fmt::Formatter<W>) -> fmt::Result {
        let control = self.0;
        for k in 0..SWIARGS {
            let rows = ByteRows {
                margin: "   ",
                bytes: swiarg(control, k),
            };
            write!(f, "\n  swiarg{k}{rows}")?;
        }
        Ok(())
    }
}

// All but the registers.
#[derive(Clone, Copy)]
pub(crate) struct RestText<'a>(pub(crate) &'a Control);

impl<'a> fmt::Display for RestText<'a> {
    ghost output = { λ text. Some (rest_text text.0.now) };

    fn fmt<W: fmt::Write>(&self, f: &mut fmt::Formatter<W>) -> fmt::Result {
        let control = self.0;
        let mode = mode_text(control.mode);
        let ie = bit_text(control.ie);
        let xct = Hex(control.xct);
        let pin = bit_text(control.pin);
        let swiargs = Swiargs(control);
        write!(f, "rest mode {mode} ie {ie} xct {xct} pin {pin}{swiargs}")
    }
}
