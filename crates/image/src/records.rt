// The records of an image, one after the other.
ghost use Rattle.std.specs.Prelude.{◌≡◌, ◌≤◌, length, Some};
ghost use Rattle.std.specs.Option.{ForSome};
ghost use Rattle.std.specs.Iterator.{at_most};
ghost use Rattle.image.specs.Records.{Checks, Gives, left};

use crate::fault::{Cause, Fault, ImageRefusal};
use crate::place::{HEADER, Place};
use crate::record::first_record;

// The places of an image, each with the byte place of its record. A record at fault is the last.
#[derive(Drop)]
pub(crate) struct Places<'a> {
    image: &'a [u8],
    // where the next record begins, or none once the last was given
    at: Option<usize>,
    ghost within: { ForSome at (λ k. k ≤ length image.now) },
}

impl<'a> Places<'a> {
    pub(crate) fn new(image: &'a [u8]) -> Self
        ensures { (result.image ≡ image.entry) × (result.at ≡ Some 0) }
    {
        Places { image, at: Some(0) }
    }
}

impl<'a> Iterator for Places<'a> {
    type Item = Result<(usize, Place<'a>), Fault>;

    ghost next_gives = { λ s r t. (t.image ≡ s.image) × Gives s.image.now s.at r t.at };

    ghost remaining = { λ s. at_most (left s.image.now s.at) };

    #[tactic(auto, using(crate::proofs::Fronts::front_steps))]
    fn next(&mut self) -> Option<Self::Item> {
        let at = self.at.take()?;
        let rest = &self.image[at..];
        match first_record(rest) {
            Ok(Some(place)) => {
                self.at = Some(at + place.taken());
                Some(Ok((at, place)))
            }
            Ok(None) => {
                if rest.len() == HEADER {
                    return None;
                }
                // what stands behind the end
                Some(Err(Cause::Form(ImageRefusal::Cut).at(at + HEADER)))
            }
            Err(refusal) => Some(Err(Cause::Form(refusal).at(at))),
        }
    }
}

// Checks all records of an image for their form.
#[tactic(auto, using(crate::proofs::Walks::walk_steps))]
pub(crate) fn check_records(image: &[u8]) -> Result<(), Fault>
    ensures { Checks image.now result }
{
    for place in Places::new(image) {
        place?;
    }
    Ok(())
}
