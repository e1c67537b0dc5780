// How many words hold no operation.
ghost use Rattle.survey.specs.Counts.{UndefinedAmong, UndefinedFrom};
ghost use Rattle.std.specs.Prelude.{◌≤◌, length};

use crate::runs::Runs;
use store::Store;
use word::{decode, words};

// How many of the words hold no operation.
fn count_undefined(words: &[u32]) -> usize
    ensures counted { UndefinedAmong words.now result }
    ensures bound { result ≤ length words.now }
{
    words.iter().filter(|word| decode(**word).is_none()).count()
}

// How many words of a line hold no operation.
pub fn undefined_among(words: &[u32; 32]) -> u32
    ensures counted { UndefinedAmong words.now result }
    ensures bound { result ≤ 32 }
{
    count_undefined(words) as u32
}

// The same of all lines of a store that are not blank, where a run of equal lines counts once.
pub fn undefined_words<S: Store>(store: &S) -> u32
    ensures { UndefinedFrom (S.meaning store.now) 0 result }
{
    let mut total = 0;
    // not by `sum`, which asks for a bound on the sum beforehand
    for run in Runs::starting_at(store, 0) {
        total += undefined_among(&words(&run.line.bytes));
    }
    total
}
