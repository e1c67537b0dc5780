// What `code` refuses.
ghost use Rattle.std.specs.Prelude.{◌≡◌};
ghost use Rattle.word.specs.Refusals.{refusal_number};

// No word holds the operation, or no bits of a field hold the number.
#[derive(Clone, Copy, PartialEq, Eq, Debug)]
pub struct NoWord;

// The number by which documents, programs and people name the refusal.
impl From<NoWord> for u8 {
    ghost from_gives = { λ refusal n. n ≡ refusal_number refusal };

    fn from(_refusal: NoWord) -> u8 {
        6
    }
}
