// One record at a time.
ghost use Rattle.std.specs.Prelude.{◌≡◌, ◌^◌, ◌<◌, ◌≤◌, length};
ghost use Rattle.image.specs.Format.{front, front_place, body_length};
ghost use Rattle.image.specs.Records.{Shows};

use crate::fault::ImageRefusal;
use crate::place::{ADDRESS, HEADER, Place};

// The kinds of records: numbers of the format, each tested in one place.
const PLACE: u16 = 1;

const END: u16 = 2;

// The place at the front of the bytes, or none where the end is there. Its header is checked, then
// its kind, then its body. (Its numbers are read at their places: by `split_first_chunk`, piece by
// piece, the proof of what a place returns did not close.)
#[tactic(auto, unfolding(crate::specs::Format::front))]
pub(crate) fn first_record(bytes: &[u8]) -> Result<Option<Place<'_>>, ImageRefusal>
    ensures { Shows (front bytes.now) result }
{
    if bytes.len() < HEADER {
        return Err(ImageRefusal::Cut);
    }
    let long = u32::from_le_bytes([bytes[0], bytes[1], bytes[2], bytes[3]]);
    match u16::from_le_bytes([bytes[4], bytes[5]]) {
        PLACE => first_place(bytes, long as usize),
        END if long == 0 => Ok(None),
        _ => Err(ImageRefusal::Kind),
    }
}

// The place at the front of the bytes, whose body should be `long` bytes.
fn first_place(bytes: &[u8], long: usize) -> Result<Option<Place<'_>>, ImageRefusal>
    requires { (6 ≤ length bytes.now) × (long ≡ body_length bytes.now) × (long < 2 ^ 32) }
    ensures { Shows (front_place bytes.now) result }
{
    if long < ADDRESS || bytes.len() - HEADER < long {
        return Err(ImageRefusal::Cut);
    }
    let address = u32::from_le_bytes([bytes[6], bytes[7], bytes[8], bytes[9]]);
    let bytes = &bytes[HEADER + ADDRESS..HEADER + long];
    Ok(Some(Place { address, bytes }))
}
