// A data register, and the line and the offset of an address.
ghost use Rattle.std.specs.Prelude.{◌≡◌};
ghost use Rattle.flat.specs.Registers.{blank, line_of, loaded, offset_of};

use word::ElementType;

// Its bytes are those of the line that its address lies in.
#[derive(Clone, Copy, PartialEq, Eq, Debug)]
pub struct DataRegister {
    pub address: u32,
    pub kind: ElementType,
}

impl DataRegister {
    // A register after boot, and a zero register at all times.
    pub fn blank() -> DataRegister
        ensures { result ≡ blank }
    {
        DataRegister {
            address: 0,
            kind: ElementType::U8,
        }
    }

    // A register that a load or a store has put at an address, with a type.
    pub fn loaded(kind: ElementType, address: u32) -> DataRegister
        ensures { result ≡ loaded kind address }
    {
        DataRegister { address, kind }
    }
}

// The number of the line that an address lies in.
#[inline(always)]
pub fn line_of(address: u32) -> u32
    ensures { result ≡ line_of address }
{
    address / 128
}

// The place of an address in its line.
#[inline(always)]
pub fn offset_of(address: u32) -> u32
    ensures { result ≡ offset_of address }
{
    address % 128
}
