// Places in a line.
ghost use Rattle.std.specs.Prelude.{◌≡◌, ◌%◌, ◌<◌};

// The place of a byte in its line, from 0 to 127. It is also the place of the element that the byte
// belongs to, which has the number offset div width.
#[derive(Clone, Copy)]
pub struct Place {
    offset: usize,
    ghost inside: { offset < 128 },
}

impl Place {
    pub fn offset(self) -> usize
        ensures { (result ≡ self.offset) × (result < 128) }
    {
        self.offset
    }
}

// The place of an address in its line.
impl From<u32> for Place {
    ghost from_gives = { λ address place. place.offset ≡ address % 128 };

    fn from(address: u32) -> Place {
        Place {
            offset: (address % 128) as usize,
        }
    }
}
