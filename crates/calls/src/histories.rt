// A list of calls, made from a cold file on, and the law over it.
ghost use Rattle.std.specs.Prelude.{take};
ghost use Rattle.flat.specs.Fed.{fed};
ghost use Rattle.trail.specs.Trails.{Added, space as space_of};
ghost use Rattle.calls.specs.Law.{Lawful};
ghost use Rattle.calls.specs.Trails.{space};

use crate::files::File;
use crate::trails::Trails;
use flat::{Answer, Call, Refusal};
use store::Store;
use trail::Trail;

// Makes a cold file and the calls, each on what those before it left, as many as there is space for answers.
// What they answer, refusals too, goes to the first trail, and what traces keep to the others.
pub fn history<S: Store>(
    calls: &[Call],
    answers: &mut Trail<Result<Answer, Refusal>>,
    trails: &mut Trails,
    store: &mut S,
) -> File
    ensures answers { Added answers.old answers.new (fed (space trails.old) (take (space_of answers.old) calls.now) (S.meaning store.old)).answers }
    ensures law { Lawful (take (space_of answers.old) calls.now) (S.meaning store.old) trails.old trails.new result (S.meaning store.new) }
{
    let mut file = File::Cold;
    let count = answers.space().min(calls.len());
    for i in 0..count {
        let answer = file.call(calls[i], trails, store);
        answers.add(answer).unwrap();
    }
    file
}
