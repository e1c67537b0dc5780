// Every refusal of the machine and of what is around it, as one type: each layer has the type of what it
// refuses, and here is each of them as a case. No two refusals have one number. It uses `trail`, `word`,
// `store`, `image` and `flat`, and nothing below it.
#![tactic(auto)]

ghost use Rattle.std.specs.Prelude.{◌≡◌};
ghost use Rattle.refusals.specs.Numbers.{number, Distinct};
ghost use Rattle.refusals.specs.declared.Refusal.TheVariants.{Call, Word, Image, Line, Trail};

use image::ImageRefusal;
use store::LineRefusal;
use trail::FullTrail;
use word::NoWord;

#[derive(Clone, Copy, PartialEq, Eq, Debug)]
pub enum Refusal {
    // a call of the machine
    Call(flat::Refusal),
    // writing a word
    Word(NoWord),
    // loading an image
    Image(ImageRefusal),
    // reading or writing a line of a store
    Line(LineRefusal),
    // adding to a trail
    Trail(FullTrail),
}

impl From<flat::Refusal> for Refusal {
    ghost from_gives = { λ refusal result. result ≡ Call refusal };

    fn from(refusal: flat::Refusal) -> Refusal {
        Refusal::Call(refusal)
    }
}

impl From<NoWord> for Refusal {
    ghost from_gives = { λ refusal result. result ≡ Word refusal };

    fn from(refusal: NoWord) -> Refusal {
        Refusal::Word(refusal)
    }
}

impl From<ImageRefusal> for Refusal {
    ghost from_gives = { λ refusal result. result ≡ Image refusal };

    fn from(refusal: ImageRefusal) -> Refusal {
        Refusal::Image(refusal)
    }
}

impl From<LineRefusal> for Refusal {
    ghost from_gives = { λ refusal result. result ≡ Line refusal };

    fn from(refusal: LineRefusal) -> Refusal {
        Refusal::Line(refusal)
    }
}

impl From<FullTrail> for Refusal {
    ghost from_gives = { λ refusal result. result ≡ Trail refusal };

    fn from(refusal: FullTrail) -> Refusal {
        Refusal::Trail(refusal)
    }
}

// The number by which documents, programs and people name a refusal.
impl From<Refusal> for u8 {
    ghost from_gives = { λ refusal n. n ≡ number refusal };

    fn from(refusal: Refusal) -> u8 {
        match refusal {
            Refusal::Call(refusal) => refusal.into(),
            Refusal::Word(refusal) => refusal.into(),
            Refusal::Image(refusal) => refusal.into(),
            Refusal::Line(refusal) => refusal.into(),
            Refusal::Trail(refusal) => refusal.into(),
        }
    }
}

// The law of the numbers: no two refusals have one. It does nothing, and a body of it could not be wrong.
#[tactic(auto, using(crate::proofs::Named::named))]
pub fn distinct()
    ensures { Distinct }
{}
