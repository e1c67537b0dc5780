// Numbers of registers.
ghost use Rattle.std.specs.Prelude.{◌<◌};

use flat::{Mode, Refusal};

#[derive(Clone, Copy, PartialEq, Eq, Debug)]
pub struct Register {
    number: u8,
    ghost inside: { number < 128 },
}

// A number below 128 is a register's; any other is refused.
impl TryFrom<u8> for Register {
    ghost use Rattle.tags.specs.Registers.{IsRegister};

    type Error = Refusal;

    ghost try_from_gives = { IsRegister };

    fn try_from(number: u8) -> Result<Register, Refusal> {
        if number < 128 {
            Ok(Register { number })
        } else {
            Err(Refusal::NoRegister)
        }
    }
}

impl Register {
    ghost use Rattle.std.specs.Prelude.{◌≡◌, ◌+◌, ◌%◌, if◌then◌else◌};
    ghost use Rattle.flat.specs.Registers.{is_zero, of_mode};

    // The register that a word's field names in a mode.
    pub fn of(mode: Mode, field: u8) -> Register
        ensures { result.number ≡ of_mode mode (field % 64) }
    {
        let field = field % 64;
        let number = match mode {
            Mode::User => field,
            Mode::Supervisor => 64 + field,
        };
        Register { number }
    }

    pub fn number(self) -> u8
        ensures { result ≡ self.number }
    {
        self.number
    }

    // Whether it is a zero register, which names no line.
    pub fn is_zero(self) -> bool
        ensures { result ≡ is_zero self.number }
    {
        matches!(self.number, 0 | 64)
    }
}
