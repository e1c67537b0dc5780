// Lines and changes for the tests.
ghost use Rattle.std.specs.Prelude.{◌≡◌, ◌<◌, ◌%◌, length, set};

use tags::{Change, Lines};

// Every line has the same bytes.
#[derive(Drop)]
pub struct Same {
    bytes: [u8; 128],
    ghost sized: { length bytes ≡ 128 },
}

impl Same {
    pub fn new(bytes: [u8; 128]) -> Same
        ensures { result.bytes ≡ bytes }
    {
        Same { bytes }
    }
}

impl Lines for Same {
    ghost given = { λ s _. s.bytes };

    fn give(&self, _line: u32, out: &mut [u8; 128]) {
        *out = self.bytes;
    }

    ghost whole = { λ s _. s.sized };
}

// One byte is written.
#[derive(Drop)]
pub struct Poke {
    place: u8,
    byte: u8,
    ghost inside: { place < 128 },
}

impl Poke {
    pub fn new(place: u8, byte: u8) -> Poke
        ensures place { result.place ≡ place % 128 }
        ensures byte { result.byte ≡ byte }
    {
        Poke {
            place: place % 128,
            byte,
        }
    }
}

impl Change for Poke {
    ghost use Rattle.tags_tests.specs.Laws.{poked};

    ghost changed = { λ s b. set b s.place s.byte };

    fn change(&self, bytes: &mut [u8; 128]) {
        bytes[usize::from(self.place)] = self.byte;
    }

    ghost whole = { λ s b h. poked s.place s.byte b h };
}
