// Runs of equal lines: the same bytes and the same writability, one line after another.
ghost use Rattle.survey.specs.Runs.{FirstHeld, FirstUnlike, GivesRun, HasLine, Holds, LineAt, NextRun, RunAfter, line_of};
ghost use Rattle.std.specs.Iterator.{at_most};
ghost use Rattle.std.specs.Prelude.{◌≡◌, ◌-◌, ◌<◌, ◌↔◌, IsTrue};

use crate::blank::is_blank;
use store::Store;

// What a line shows: its bytes, and whether it can be written.
#[derive(Clone, Copy, PartialEq, Eq)]
pub struct Line {
    pub bytes: [u8; 128],
    pub writable: bool,
}

// The lines from `first` up to `after`, each of which shows `line`.
#[derive(Clone, Copy)]
pub struct Run {
    pub first: u32,
    pub after: u32,
    pub line: Line,
}

// The line of a number, where the store has it.
fn line_at<S: Store>(store: &S, number: u32) -> Option<Line>
    ensures { LineAt (S.meaning store.now) number result }
{
    // a line record for `read` to fill
    let mut bytes = [0; 128];
    store.read(number, &mut bytes).ok()?;
    Some(Line {
        bytes,
        writable: store.writable(number),
    })
}

// Whether the store has the line of a number, and it shows `line`. The bytes are compared first, so that
// only a line with the same bytes is asked whether it can be written.
fn has_line<S: Store>(store: &S, number: u32, line: &Line) -> bool
    ensures { IsTrue result ↔ HasLine (S.meaning store.now) number line.now }
{
    // a line record for `read` to fill
    let mut bytes = [0; 128];
    match store.read(number, &mut bytes) {
        Ok(()) => bytes == line.bytes && store.writable(number) == line.writable,
        Err(_) => false,
    }
}

// The first line, from line `from` on, that does not show `line`.
fn first_unlike<S: Store>(store: &S, from: u32, line: &Line) -> Option<u32>
    ensures { FirstUnlike (S.meaning store.now) from line.now result }
{
    (from..store.size()).find(|number| !has_line(store, *number, line))
}

// The line behind the unbroken run of lines that begins at `first`, where the store shows `line`.
fn end_of_run<S: Store>(store: &S, first: u32, line: &Line) -> u32
    requires there { first < (S.meaning store.now).size }
    requires shown { line.now ≡ line_of (S.meaning store.now) first }
    ensures { RunAfter (S.meaning store.now) first result }
{
    first_unlike(store, first + 1, line).unwrap_or(store.size())
}

// The line behind the unbroken run of lines that begins at `first` and are equal to it. Where there is
// no line `first` the run is empty and ends there, so that any number has an answer.
pub fn run_after<S: Store>(store: &S, first: u32) -> u32
    ensures { RunAfter (S.meaning store.now) first result }
{
    match line_at(store, first) {
        Some(line) => end_of_run(store, first, &line),
        None => first,
    }
}

// The bytes of a line that is there and not blank.
fn held<S: Store>(store: &S, number: u32) -> Option<[u8; 128]>
    ensures { Holds (S.meaning store.now) number result }
{
    // a line record for `read` to fill
    let mut bytes = [0; 128];
    store.read(number, &mut bytes).ok()?;
    if is_blank(&bytes) {
        return None;
    }
    Some(bytes)
}

// The first line, from line `from` on, that is not blank, and its bytes.
fn first_held<S: Store>(store: &S, from: u32) -> Option<(u32, [u8; 128])>
    ensures { FirstHeld (S.meaning store.now) from result }
{
    (from..store.size()).find_map(|number| Some((number, held(store, number)?)))
}

// The first run, from line `from` on, of lines that are not blank.
pub fn next_run<S: Store>(store: &S, from: u32) -> Option<Run>
    ensures { NextRun (S.meaning store.now) from result }
{
    let (first, bytes) = first_held(store, from)?;
    let line = Line {
        bytes,
        writable: store.writable(first),
    };
    Some(Run {
        first,
        after: end_of_run(store, first, &line),
        line,
    })
}

// The runs of a store's lines that are not blank, one after another: those from line `from` on.
#[derive(Drop)]
pub struct Runs<'a, S> {
    store: &'a S,
    from: u32,
}

impl<'a, S: Store> Runs<'a, S> {
    // All runs of the store.
    pub fn new(store: &'a S) -> Self
        ensures store { result.store.now ≡ store.now }
        ensures from { result.from ≡ 0 }
    {
        Runs::starting_at(store, 0)
    }

    // The runs of the store from line `from` on.
    pub(crate) fn starting_at(store: &'a S, from: u32) -> Self
        ensures store { result.store.now ≡ store.now }
        ensures from { result.from ≡ from }
    {
        Runs { store, from }
    }
}

impl<'a, S: Store> Iterator for Runs<'a, S> {
    type Item = Run;

    ghost next_gives = { λ s r t. (t.store ≡ s.store) × GivesRun (S.meaning s.store.now) s.from r t.from };

    ghost remaining = { λ s. at_most ((S.meaning s.store.now).size - s.from) };

    fn next(&mut self) -> Option<Run> {
        let run = next_run(self.store, self.from)?;
        self.from = run.after;
        Some(run)
    }
}
