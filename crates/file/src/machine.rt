// The machine while it is warm: its registers, and what it holds beside them.
ghost use Rattle.std.specs.Prelude.{◌≡◌};
ghost use Rattle.flat.specs.Calls.{blank_control, started};
ghost use Rattle.flat.specs.Machine.{entered, entered_bus, take_bus, take_line};
ghost use Rattle.file.specs.Machine.{stands};

use crate::backing::{give, zeros};
use crate::data::DataRegisters;
use crate::instructions::{InstructionRegisters, Memory};
use flat::{Bus, Control, Exception, Mode};
use store::Store;
use tags::Register;

#[derive(Drop)]
pub struct Machine {
    pub registers: DataRegisters,
    pub instructions: InstructionRegisters,
    pub control: Control,
}

impl Machine {
    // The machine after boot.
    #[tactic(auto, unfolding(crate::specs::Machine::stands, flat::specs::Calls::started))]
    pub fn new<S: Store>(store: &S) -> Machine
        ensures { stands result (S.meaning store.now) ≡ started (S.meaning store.now) }
    {
        let mut line = zeros();
        give(store, 0, &mut line);
        Machine {
            registers: DataRegisters::new(store),
            instructions: InstructionRegisters::new(&line),
            control: blank(),
        }
    }

    // An instruction register goes to an address and takes its line.
    #[inline(always)]
    #[tactic(auto, unfolding(crate::specs::Machine::stands, flat::specs::Machine::take_bus))]
    pub fn take_line<S: Store>(&mut self, register: Register, address: u32, store: &S) -> Bus
        ensures machine { stands self.new (S.meaning store.now) ≡ take_line register.number address (stands self.old (S.meaning store.now)) }
        ensures bus { result ≡ take_bus register.number address (stands self.old (S.meaning store.now)) }
    {
        let memory = Memory {
            registers: &self.registers,
            store,
        };
        self.instructions.take(register, address, &memory);
        Bus::quiet()
    }

    // Enters an exception.
    #[tactic(auto, unfolding(crate::specs::Machine::stands, flat::specs::Machine::entered))]
    pub fn enter<S: Store>(&mut self, exception: Exception, store: &S) -> Bus
        ensures machine { stands self.new (S.meaning store.now) ≡ entered exception (stands self.old (S.meaning store.now)) }
        ensures bus { result ≡ entered_bus exception (stands self.old (S.meaning store.now)) }
    {
        self.control.mode = Mode::Supervisor;
        self.control.ie = self.control.ie && exception != Exception::Interrupt;
        self.control.xct = u32::from(exception);
        self.take_line(Register::of(Mode::Supervisor, 63), 0, store)
    }
}

// Supervisor mode, and everything else zero.
fn blank() -> Control
    ensures { result ≡ blank_control }
{
    Control {
        mode: Mode::Supervisor,
        ie: false,
        xct: 0,
        swiargs: [zeros(), zeros(), zeros(), zeros()],
        pin: false,
    }
}
