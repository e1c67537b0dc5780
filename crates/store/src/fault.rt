// Why a store will not give or take a line, and which line.
ghost use Rattle.std.specs.Prelude.{◌≡◌};
ghost use Rattle.store.specs.Refusals.{refusal_number};

#[derive(Clone, Copy, PartialEq, Eq, Debug)]
pub enum LineRefusal {
    // a line that is not below the store's size
    MissingLine = 10,
    // a write to a line that cannot be written
    FixedLine = 11,
}

// The number by which documents, programs and people name a refusal.
impl From<LineRefusal> for u8 {
    ghost from_gives = { λ refusal n. n ≡ refusal_number refusal };

    fn from(refusal: LineRefusal) -> u8 {
        refusal as u8
    }
}

#[derive(Clone, Copy, PartialEq, Eq, Debug)]
pub struct LineFault {
    pub cause: LineRefusal,
    pub line: u32,
}
