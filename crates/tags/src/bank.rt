// Banks of registers.
ghost use Rattle.std.specs.Prelude.{◌≡◌, ◌<◌, ◌/◌, ◌&&◌, false, true, not};
ghost use Rattle.tags.specs.Invariants.{Warm};

use crate::change::Change;
use crate::columns::{Columns, LINES};
use crate::lines::Lines;
use crate::register::Register;
use crate::tag::Tag;
use flat::line_of;

// A bank is warm: every register but the zero registers carries the tag of its line.
#[derive(Drop)]
pub struct Bank {
    columns: Columns,
    ghost warm: { Warm columns.carried },
}

impl Bank {
    ghost use Rattle.std.specs.Prelude.{option_map};
    ghost use Rattle.flat.specs.Registers.{is_zero, shared};
    ghost use Rattle.tags.specs.Meaning.{names};
    ghost use Rattle.tags.specs.Names.{Carries, Goes, IsLineOf, Sound, carriers_of, started, tag_of, written};
    ghost use Rattle.tags.specs.Numbers.{number};

    // Every register at address 0, on line 0 with these bytes.
    #[tactic(auto, unfolding(crate::specs::Meaning::names))]
    pub fn new(line: &[u8; 128]) -> Bank
        ensures { names result ≡ started line.now }
    {
        Bank {
            columns: Columns::new(line),
        }
    }

    // What holds of every bank: a fact for proofs, at no cost.
    pub fn sound(&self)
        ensures { Sound (names self.now) }
    {}

    #[tactic(auto, unfolding(crate::specs::Meaning::names, crate::specs::Names::names_of))]
    pub fn address(&self, register: Register) -> u32
        ensures { result ≡ (names self.now).address register.number }
    {
        self.columns.addresses[usize::from(register.number())]
    }

    // The tag of a register's line, and tag 0 for a zero register.
    pub fn tag(&self, register: Register) -> Tag
        ensures tag { result.number ≡ tag_of (names self.now) register.number }
        ensures real { is_zero register.number ≡ false → (names self.now).tag ((names self.now).address register.number / 128) ≡ Some result.number }
    {
        Tag::new(self.columns.carried[usize::from(register.number())])
    }

    // How many registers carry a tag.
    pub fn count(&self, tag: Tag) -> u8
        ensures { result ≡ carriers_of (names self.now) tag.number }
    {
        self.columns.counts[usize::from(tag.number())]
    }

    // Whether no other register names a register's line. A zero register names none.
    pub fn is_last(&self, register: Register) -> bool
        ensures { result ≡ (not (is_zero register.number) && not (shared (names self.now).address register.number)) }
    {
        self.count(self.tag(register)) == 1
    }

    // The line that a tag names, if any.
    pub fn line(&self, tag: Tag) -> Option<u32>
        ensures { IsLineOf (names self.now) tag.number result }
    {
        let line = self.columns.lines[usize::from(tag.number())];
        if line < LINES { Some(line) } else { None }
    }

    // The tag that names a line, if any.
    #[tactic(auto, unfolding(crate::specs::Meaning::names, crate::specs::Names::names_of))]
    pub fn search(&self, line: u32) -> Option<Tag>
        ensures { option_map number result ≡ (names self.now).tag line }
    {
        self.columns.holder(line)
    }

    #[tactic(auto, unfolding(crate::specs::Meaning::names, crate::specs::Names::names_of))]
    pub fn bytes(&self, tag: Tag) -> &[u8; 128]
        ensures { result.now ≡ (names self.now).bytes tag.number }
    {
        &self.columns.bytes[usize::from(tag.number())]
    }

    // Changes the bytes of a register's line where they lie. A zero register's zeros stay.
    pub fn write<C: Change>(&mut self, register: Register, change: &C)
        ensures { names self.new ≡ written register.number (C.changed change.now ((names self.old).bytes (tag_of (names self.old) register.number))) (names self.old) }
    {
        if !register.is_zero() {
            let tag = self.tag(register).number();
            self.columns.write(usize::from(tag), change);
        }
    }

    // A register goes to an address. A line that no tag names gets a free tag, and its bytes from
    // `lines`; the line that the register leaves loses its tag when no other register names it.
    #[inline(always)]
    pub fn move_to<L: Lines>(&mut self, register: Register, address: u32, lines: &L)
        ensures { Goes register.number address (L.given lines.now (address / 128)) (names self.old) (names self.new) }
    {
        if register.is_zero() {
            return;
        }
        let r = usize::from(register.number());
        if line_of(address) == line_of(self.columns.addresses[r]) {
            self.columns.stay(r, address);
        } else {
            self.cross(r, address, lines);
        }
    }

    // Register r goes to another line. (This is a function of its own so that a register that stays on its
    // line costs no more than a test where it is inlined.)
    #[inline(never)]
    fn cross<L: Lines>(&mut self, r: usize, address: u32, lines: &L)
        requires register { r < 128 }
        requires real { is_zero r ≡ false }
        ensures { Goes r address (L.given lines.now (address / 128)) (names self.old) (names self.new) }
    {
        let line = line_of(address);
        let tag = self.columns.tag_for(line);
        self.columns.fill(tag, line, lines);
        self.columns.exchange(r, tag, address);
    }

    // A register goes to an address and takes along the bytes of its line, which are those of the line
    // there from then on. What that line had is not asked for.
    pub fn carry(&mut self, register: Register, address: u32)
        ensures { Carries register.number address (names self.old) (names self.new) }
    {
        if register.is_zero() {
            return;
        }
        let r = usize::from(register.number());
        if line_of(address) == line_of(self.columns.addresses[r]) {
            self.columns.stay(r, address);
        } else {
            self.carry_across(r, address);
        }
    }

    // Register r goes to another line, with its bytes.
    fn carry_across(&mut self, r: usize, address: u32)
        requires register { r < 128 }
        requires real { is_zero r ≡ false }
        ensures { Carries r address (names self.old) (names self.new) }
    {
        let from = usize::from(self.columns.carried[r]);
        let tag = self.columns.tag_for(line_of(address));
        self.columns.copy(from, tag);
        self.columns.exchange(r, tag, address);
    }
}
