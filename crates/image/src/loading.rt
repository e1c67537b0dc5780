// Loading a whole image.
ghost use Rattle.image.specs.Loading.{Loads, TheOutcome};

use crate::fault::Fault;
use crate::places::check_places;
use crate::putting::put_places;
use crate::records::check_records;
use store::Store;

// Loads an image into a store, and says of result and store that no other would do.
#[tactic(auto, using(crate::proofs::Outcomes::one_outcome))]
pub fn load<S: Store>(store: &mut S, image: &[u8]) -> Result<(), Fault>
    ensures { TheOutcome (S.meaning store.old) image.now result (S.meaning store.new) }
{
    check_and_put(store, image)
}

// All records are checked for their form, then all places against the store, and only then is
// anything written.
fn check_and_put<S: Store>(store: &mut S, image: &[u8]) -> Result<(), Fault>
    ensures { Loads (S.meaning store.old) image.now result (S.meaning store.new) }
{
    check_records(image)?;
    check_places(store, image)?;
    put_places(store, image);
    Ok(())
}
