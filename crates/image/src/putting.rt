// Writing the places of an image into a store that takes them.
ghost use Rattle.std.specs.Prelude.{◌≡◌, ◌*◌, ◌^◌, ◌<◌, true, List};
ghost use Rattle.store.specs.Meaning.{with_line};
ghost use Rattle.image.specs.Format.{Placed};
ghost use Rattle.image.specs.Loading.{Good, put_all};
ghost use Rattle.image.specs.Placing.{FitsIn, put, spliced};

use crate::place::Place;
use crate::records::Places;
use store::Store;

// Writes what falls on a line of a place's bytes. The line's first byte is at address `base`.
#[tactic(auto, using(crate::proofs::Splices::splice_cases))]
fn splice(line: &mut [u8; 128], base: usize, place: Place<'_>)
    requires { base < 2 ^ 40 }
    ensures { line.new ≡ spliced base line.old place.entry.address place.entry.bytes.now }
{
    let start = place.address as usize;
    let from = start.max(base);
    let to = (start + place.bytes.len()).min(base + 128);
    if from < to {
        line[from - base..to - base].copy_from_slice(&place.bytes[from - start..to - start]);
    }
}

// Writes what falls on one line of a place's bytes, and leaves the rest of the line.
fn put_line<S: Store>(store: &mut S, line: u32, place: Place<'_>)
    requires { (S.meaning store.old).canwrite line ≡ true }
    ensures { let old = S.meaning store.old in S.meaning store.new ≡ with_line old line (spliced (128 * line) (old.line line) place.entry.address place.entry.bytes.now) }
{
    // a line record for `read` to fill
    let mut bytes = [0; 128];
    store.read(line, &mut bytes).unwrap();
    splice(&mut bytes, 128 * line as usize, place);
    store.write(line, &bytes).unwrap();
}

// Writes a place that the store takes, line by line.
#[tactic(auto, using(crate::proofs::Puts::line_steps))]
fn put_place<S: Store>(store: &mut S, place: Place<'_>)
    requires { FitsIn (S.meaning store.old) place.address place.bytes.now }
    ensures { S.meaning store.new ≡ put (S.meaning store.old) place.entry.address place.entry.bytes.now }
{
    for line in place.first_line()..place.past_line() {
        put_line(store, line, place);
    }
}

// Writes every place of a good image, in order.
#[tactic(auto, using(crate::proofs::Writing::put_steps))]
pub(crate) fn put_places<S: Store>(store: &mut S, image: &[u8])
    requires { (ps : List Placed) × Good (S.meaning store.old) image.now ps }
    ensures { (ps : List Placed) × Good (S.meaning store.old) image.now ps × (S.meaning store.new ≡ put_all (S.meaning store.old) ps) }
{
    for place in Places::new(image) {
        let (_, place) = place.unwrap();
        put_place(store, place);
    }
}
