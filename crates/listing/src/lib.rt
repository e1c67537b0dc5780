// The text of a survey: a word as its operation with the fields by name, a run of lines with its
// words, and what became of an image. It makes text and prints nothing. It uses `survey` for what is
// shown, `word` for the operations and their texts, `text` for the digits of addresses and words, and
// `bench` for why no image was loaded.
#![tactic(auto)]

mod disassembly;
mod outcomes;
mod shown;

pub use disassembly::Disassembly;
pub use outcomes::OutcomeText;
pub use shown::RunText;
