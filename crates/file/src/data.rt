// The data registers: a bank of them, what each register is, and a mark on each tag whose line was written.
ghost use Rattle.std.specs.Prelude.{◌≡◌, ◌<◌, length, set};
ghost use Rattle.store.specs.Meaning.{Meaning};
ghost use Rattle.marks.specs.Marks.{marked};
ghost use Rattle.tags.specs.Meaning.{names};
ghost use Rattle.file.specs.Standing.{Placed, Quiet, ZerosBlank, all_blank};

use crate::backing::{Backing, give, send, zeros};
use flat::{Bus, DataRegister, line_of};
use marks::Marks;
use store::Store;
use tags::{Bank, Change, Register, Tag};
use word::ElementType;

// Puts a register at its place among 128, field by field: written whole, its padding would be written too.
#[inline(always)]
fn put(registers: &mut [DataRegister; 128], r: usize, to: DataRegister)
    requires { r < 128 }
    ensures { registers.new ≡ set registers.old r to }
{
    let DataRegister { address, kind } = to;
    registers[r].address = address;
    registers[r].kind = kind;
}

#[derive(Drop)]
pub struct DataRegisters {
    bank: Bank,
    registers: [DataRegister; 128],
    marks: Marks,
    ghost quiet: { Quiet (names bank) (marked marks) },
    ghost sized: { length registers ≡ 128 },
    ghost placed: { Placed (names bank) registers },
    ghost zeros_blank: { ZerosBlank registers },
}

impl DataRegisters {
    ghost use Rattle.std.specs.Prelude.{◌&&◌, true, false, ◌/◌, Some, option_map, get_or};
    ghost use Rattle.flat.specs.Calls.{started_data, touched_lines};
    ghost use Rattle.flat.specs.Data.{carry, carry_bus, flushed, handed, leaves, move_bus, move_to, retype, sent, sent_back, shown, write};
    ghost use Rattle.flat.specs.Registers.{is_zero};
    ghost use Rattle.marks.specs.Marks.{with_mark};
    ghost use Rattle.tags.specs.Names.{tag_of};
    ghost use Rattle.file.specs.Data.{IsTouched, leaves_line, sends, stands};

    // Every register at address 0, with the type u8, on the store's line 0.
    pub fn new<S: Store>(store: &S) -> DataRegisters
        ensures { stands result (S.meaning store.now) ≡ started_data (S.meaning store.now) }
    {
        let mut line = zeros();
        give(store, 0, &mut line);
        DataRegisters {
            bank: Bank::new(&line),
            registers: all_blank(),
            marks: Marks::new(),
        }
    }

    // The registers with their tags.
    pub fn bank(&self) -> &Bank
        ensures { result.now ≡ self.now.bank }
    {
        &self.bank
    }

    // On another store, they stand for what the flat machine has when it is handed that store: a fact for
    // proofs, at no cost.
    pub fn on_any_store(&self)
        ensures { (m other : Meaning) → stands self.now other ≡ handed other (stands self.now m) }
    {
        self.bank.sound();
    }

    #[tactic(auto, unfolding(crate::specs::Data::stands, crate::specs::Standing::data_of))]
    pub fn register(&self, register: Register) -> DataRegister
        ensures { (m : Meaning) → result ≡ (stands self.now m).registers register.number }
    {
        self.registers[usize::from(register.number())]
    }

    // The bytes that a register shows.
    pub fn bytes(&self, register: Register) -> &[u8; 128]
        ensures { (m : Meaning) → result.now ≡ shown (stands self.now m) register.number }
    {
        self.bank.sound();
        self.bank.bytes(self.bank.tag(register))
    }

    // The bytes of a line of memory: those of the tag that names it, or else the store's.
    #[tactic(auto, unfolding(crate::specs::Data::stands, crate::specs::Standing::data_of))]
    pub fn read<S: Store>(&self, line: u32, store: &S, out: &mut [u8; 128])
        ensures { out.new ≡ (stands self.now (S.meaning store.now)).memory line }
    {
        match self.bank.search(line) {
            Some(tag) => *out = *self.bank.bytes(tag),
            None => give(store, line, out),
        }
    }

    // Changes the bytes of a register's line where they lie.
    #[tactic(auto, unfolding(crate::specs::Data::stands))]
    pub fn write<C: Change>(&mut self, register: Register, change: &C)
        ensures { stands self.new ≡ (λ m. write register.number (C.changed change.now (shown (stands self.old m) register.number)) (stands self.old m)) }
    {
        if register.is_zero() {
            return;
        }
        self.bank.sound();
        let tag = self.bank.tag(register);
        self.bank.write(register, change);
        self.marks.insert(tag.number());
    }

    // Sends back the line that a tag names, and takes the tag's mark away.
    #[inline(never)]
    fn send_back<S: Store>(&mut self, tag: Tag, line: u32, store: &mut S)
        requires { (names self.old.bank).tag line ≡ Some tag.number }
        ensures data { stands self.new (S.meaning store.new) ≡ sent_back line (stands self.old (S.meaning store.old)) }
        ensures bank { self.new.bank ≡ self.old.bank }
        ensures registers { self.new.registers ≡ self.old.registers }
        ensures marks { marked self.new.marks ≡ with_mark (marked self.old.marks) tag.number false }
    {
        self.bank.sound();
        send(store, line, self.bank.bytes(tag));
        self.marks.remove(tag.number());
    }

    // Whether a register is its line's last, goes to another, and the line is touched.
    fn sends(&self, register: Register, address: u32) -> bool
        ensures { result ≡ (leaves_line (names self.now.bank) register.number address && marked self.now.marks (tag_of (names self.now.bank) register.number)) }
    {
        let leaves = self.bank.is_last(register)
            && line_of(self.bank.address(register)) != line_of(address);
        leaves && self.marks.contains(self.bank.tag(register).number())
    }

    // Where a register is its line's last and goes to another, the line is sent back if it is touched, and
    // answered. (What the register's tag names is not changed by this.)
    fn leave<S: Store>(&mut self, register: Register, address: u32, store: &mut S) -> Option<u32>
        requires { is_zero register.number ≡ false }
        ensures data { stands self.new (S.meaning store.new) ≡ sends register.number address (stands self.old (S.meaning store.old)) }
        ensures sent { result ≡ sent register.number address (stands self.old (S.meaning store.old)) }
        ensures bank { self.new.bank ≡ self.old.bank }
        ensures registers { self.new.registers ≡ self.old.registers }
        ensures clean { leaves register.number address (stands self.old (S.meaning store.old)) ≡ true → marked self.new.marks (tag_of (names self.old.bank) register.number) ≡ false }
    {
        self.bank.sound();
        if !self.sends(register, address) {
            return None;
        }
        let line = line_of(self.bank.address(register));
        let tag = self.bank.tag(register);
        self.send_back(tag, line, store);
        Some(line)
    }

    // Gives a register another type. A zero register stays.
    pub fn retype(&mut self, register: Register, kind: ElementType)
        ensures { stands self.new ≡ (λ m. retype register.number kind (stands self.old m)) }
    {
        if !register.is_zero() {
            let r = usize::from(register.number());
            self.registers[r].kind = kind;
        }
    }

    // Moves a register to an address and a type, and answers what that did on the bus.
    pub fn move_to<S: Store>(&mut self, register: Register, to: DataRegister, store: &mut S) -> Bus
        ensures data { stands self.new (S.meaning store.new) ≡ move_to register.number to (stands self.old (S.meaning store.old)) }
        ensures bus { result ≡ move_bus register.number to.address (stands self.old (S.meaning store.old)) }
    {
        if register.is_zero() {
            return Bus::quiet();
        }
        let sent = self.leave(register, to.address, store);
        self.bank.sound();
        self.bank.move_to(register, to.address, &Backing { store });
        let r = usize::from(register.number());
        put(&mut self.registers, r, to);
        Bus { sent }
    }

    // Copies a register's line onto that of an address, moves the register there, with a type, and answers
    // what that did on the bus. The line that is overwritten is not read.
    pub fn carry<S: Store>(&mut self, register: Register, to: DataRegister, store: &mut S) -> Bus
        ensures data { stands self.new (S.meaning store.new) ≡ carry register.number to (stands self.old (S.meaning store.old)) }
        ensures bus { result ≡ carry_bus register.number to.address (stands self.old (S.meaning store.old)) }
    {
        if register.is_zero() {
            return Bus::quiet();
        }
        let sent = self.leave(register, to.address, store);
        self.bank.sound();
        self.bank.carry(register, to.address);
        self.bank.sound();
        let r = usize::from(register.number());
        put(&mut self.registers, r, to);
        let tag = self.bank.tag(register).number();
        self.marks.insert(tag);
        Bus { sent }
    }

    // A touched line and its tag, if there is one.
    fn touched(&self) -> Option<(Tag, u32)>
        ensures { IsTouched (names self.now.bank) (marked self.now.marks) result }
    {
        let tag = Tag::of(self.marks.first()?);
        let line = self.bank.line(tag).unwrap();
        Some((tag, line))
    }

    // Sends back every touched line, and answers how many they were.
    pub fn flush<S: Store>(&mut self, store: &mut S) -> u32
        ensures data { stands self.new (S.meaning store.new) ≡ flushed (stands self.old (S.meaning store.old)) }
        ensures count { result ≡ touched_lines (stands self.old (S.meaning store.old)) }
    {
        self.bank.sound();
        let count = self.marks.count();
        while let Some((tag, line)) = self.touched() {
            self.send_back(tag, line, store);
        }
        count
    }
}

// Every register as it is after boot. (By itself, so that no other goal has a list of 128 registers in it.)
#[tactic(auto, unfolding(crate::specs::Standing::all_blank))]
fn all_blank() -> [DataRegister; 128]
    ensures { result ≡ all_blank }
{
    [DataRegister::blank(); 128]
}
