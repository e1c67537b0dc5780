// The survey of a store: what an engineer wants to know of it before a run, as functions on values.
// It finds the runs of equal lines that hold a non-zero byte, counts their undefined words, and loads
// an image and says how that went. It uses `store` for the lines, `image` for loading and `word` for
// what a word holds.
#![tactic(auto)]

mod blank;
mod counting;
mod outcome;
mod runs;

pub use blank::is_blank;
pub use counting::{undefined_among, undefined_words};
pub use outcome::take_image;
pub use runs::{Line, Run, Runs, next_run, run_after};
