// The line that is printed after a command.
ghost use Rattle.std.specs.Prelude.{◌≡◌, Some};
ghost use Rattle.store.specs.Meaning.{Meaning};
ghost use Rattle.calls.specs.Files.{stands};
ghost use Rattle.panel.specs.Lines.{line_call, text_of};

use calls::File;
use flat::{Mode, Refusal};
use std::fmt;
use tags::Register;
use text::{Hex, mode_text};

// ipc is this instruction register of its mode.
const IPC: u8 = 63;

#[derive(Clone, Copy, PartialEq, Eq, Debug)]
pub struct Line {
    pub letter: char,
    pub mode: Mode,
    // ipc's
    pub address: u32,
    pub xct: u32,
}

impl Line {
    // The line that a letter is answered with, on a warm file.
    #[tactic(auto, unfolding(calls::specs::Files::stands, file::specs::Machine::stands, flat::specs::Calls::cold))]
    pub fn of(letter: char, file: &File) -> Result<Line, Refusal>
        ensures { (m : Meaning) → result ≡ (line_call letter (stands file.now m)).answer }
    {
        let machine = file.machine()?;
        let mode = machine.control.mode;
        let address = machine.instructions.address(Register::of(mode, IPC));
        let xct = machine.control.xct;
        Ok(Line {
            letter,
            mode,
            address,
            xct,
        })
    }
}

// Written out, since its text is promised.
impl fmt::Display for Line {
    ghost output = { λ line. Some (text_of line) };

    fn fmt<W: fmt::Write>(&self, f: &mut fmt::Formatter<W>) -> fmt::Result {
        let Line {
            letter,
            mode,
            address,
            xct,
        } = *self;
        let mode = mode_text(mode);
        let address = Hex(address);
        let xct = Hex(xct);
        write!(f, "{letter} {mode} {address} {xct}")
    }
}
