// What becomes of an image.
ghost use Rattle.survey.specs.Outcomes.{Takes};

use image::{Fault, load};
use store::Store;

// Loads an image into a store and counts its bytes, or says why it is refused.
pub fn take_image<S: Store>(store: &mut S, image: &[u8]) -> Result<usize, Fault>
    ensures { Takes (S.meaning store.old) image.now result (S.meaning store.new) }
{
    load(store, image)?;
    Ok(image.len())
}
