// The instruction words of the machine: which operation a word of 32 bits holds, and which word
// holds an operation. `decode` reads a word, `code` writes one, and `words` cuts a line of 128
// bytes into its 32 words. `operation` in specs/Reading.antt computes what `decode` answers, for
// definitions that need an operation for each word. The types of elements, which words name, are here
// too, with their numbers, widths and signs, and so is how an operation is written for people to read.
// What it does is no part of this crate. It uses no other crate.
#![tactic(auto)]

mod coding;
mod decoding;
pub mod element;
mod fields;
mod lines;
mod no_word;
mod numbers;
pub mod opcodes;
pub mod operations;
mod round_trips;
mod texts;

pub use coding::code;
pub use decoding::{decode, worked_words};
pub use element::ElementType;
pub use lines::words;
pub use no_word::NoWord;
pub use numbers::UnknownNumber;
pub use opcodes::{Arith, Form, Reduction, Special};
pub use operations::Operation;
pub use round_trips::{recode, redecode};
