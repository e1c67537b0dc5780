// The places of an image, checked against the lines that a store takes.
ghost use Rattle.std.specs.Prelude.{List};
ghost use Rattle.image.specs.Format.{Image, Placed};
ghost use Rattle.image.specs.Loading.{PlaceChecks, PlacesCheck};

use crate::fault::{Cause, Fault};
use crate::place::Place;
use crate::records::Places;
use store::{LineFault, Store};

#[tactic(auto, using(crate::proofs::Spans::span_steps))]
fn check_place<S: Store>(store: &S, place: Place<'_>) -> Result<(), LineFault>
    ensures { PlaceChecks (S.meaning store.now) place.entry.address place.entry.bytes.now result }
{
    for line in place.first_line()..place.past_line() {
        store.admit(line)?;
    }
    Ok(())
}

// Checks each place of an image whose records are whole.
#[tactic(auto, using(crate::proofs::Checking::check_steps))]
pub(crate) fn check_places<S: Store>(store: &S, image: &[u8]) -> Result<(), Fault>
    requires { (ps : List Placed) × Image 0 image.now ps }
    ensures { PlacesCheck (S.meaning store.now) image.now result }
{
    for place in Places::new(image) {
        let (at, place) = place?;
        check_place(store, place).map_err(|fault| Cause::from(fault).at(at))?;
    }
    Ok(())
}
