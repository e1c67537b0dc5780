// The instruction registers: a bank of them. The bytes of their words are those of their tags.
ghost use Rattle.std.specs.Prelude.{◌≡◌};
ghost use Rattle.file.specs.Data.{stands as data_side};

use crate::data::DataRegisters;
use store::Store;
use tags::{Bank, Lines, Register};

#[derive(Drop)]
pub struct InstructionRegisters {
    bank: Bank,
}

impl InstructionRegisters {
    ghost use Rattle.flat.specs.Calls.{started_instructions};
    ghost use Rattle.flat.specs.Instructions.{take};
    ghost use Rattle.file.specs.Instructions.{stands};

    // Every register at address 0, with the words of a line.
    #[tactic(auto, using(crate::proofs::Taking::starts), unfolding(crate::specs::Instructions::stands))]
    pub fn new(line: &[u8; 128]) -> InstructionRegisters
        ensures { stands result ≡ started_instructions line.now }
    {
        InstructionRegisters {
            bank: Bank::new(line),
        }
    }

    // The registers with their tags.
    pub fn bank(&self) -> &Bank
        ensures { result.now ≡ self.now.bank }
    {
        &self.bank
    }

    #[tactic(auto, unfolding(crate::specs::Instructions::stands, crate::specs::Standing::instructions_of))]
    pub fn address(&self, register: Register) -> u32
        ensures { result ≡ (stands self.now register.number).address }
    {
        self.bank.address(register)
    }

    // The bytes of a register's words.
    pub fn bytes(&self, register: Register) -> &[u8; 128]
        ensures { result.now ≡ (stands self.now register.number).bytes }
    {
        self.bank.sound();
        self.bank.bytes(self.bank.tag(register))
    }

    // A register goes to an address, and takes the words of a register that names the line, or else
    // memory's.
    #[inline(always)]
    pub fn take<S: Store>(&mut self, register: Register, address: u32, memory: &Memory<S>)
        ensures { stands self.new ≡ take register.number address (data_side memory.now.registers.now (S.meaning memory.now.store.now)).memory (stands self.old) }
    {
        self.bank.sound();
        self.bank.move_to(register, address, memory);
    }
}

// Memory: the bytes of data tags over a store's lines.
#[derive(Drop)]
pub struct Memory<'a, S> {
    pub registers: &'a DataRegisters,
    pub store: &'a S,
}

impl<'a, S: Store> Lines for Memory<'a, S> {
    ghost use Rattle.file.specs.Backing.{memory_whole};

    ghost given = { λ w. (data_side w.registers.now (S.meaning w.store.now)).memory };

    fn give(&self, line: u32, out: &mut [u8; 128]) {
        self.registers.read(line, self.store, out)
    }

    ghost whole = { λ w n. memory_whole w.registers.now (S.meaning w.store.now) (S.sound w.store.now) n };
}
