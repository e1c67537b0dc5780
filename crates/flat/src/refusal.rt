// What a call answers when it will not do what it was asked. Nothing has changed then.
ghost use Rattle.std.specs.Prelude.{◌≡◌};
ghost use Rattle.flat.specs.Refusals.{refusal_number};

// specs/Refusals.antt has the number of each.
#[derive(Clone, Copy, PartialEq, Eq, Debug)]
pub enum Refusal {
    // boot on a store of no lines
    NoLines = 1,
    // a call other than boot on a cold file
    Cold = 2,
    // boot on a warm file
    Warm = 3,
    // show of a register over 127
    NoRegister = 4,
    // a limit over 1,000,000 steps
    OverLimit = 5,
}

// The number by which documents, programs and people name a refusal.
impl From<Refusal> for u8 {
    ghost from_gives = { λ refusal n. n ≡ refusal_number refusal };

    fn from(refusal: Refusal) -> u8 {
        refusal as u8
    }
}
