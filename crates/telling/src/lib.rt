// Telling: the text of a replay, which is what its calls answered, the records of its traces and the lines that
// these sent back. It makes text and prints nothing. It uses `flat` for calls, answers and refusals, `word` for the
// types of registers, and `text` for the text of modes and hexadecimal numbers.
#![tactic(auto)]

mod answers;
mod outcomes;
mod records;
mod report;
mod rows;
mod shown;

pub use report::Report;
