// The engine: one step of a machine. Each operation is carried out on the registers with their tags by the
// contracts of the layers below, and a step is proved to be the flat machine's. It uses the machine of
// `file`, the flat machine's definitions, words, lines, arithmetic and stores.
#![tactic(auto)]

mod arithmetic;
mod changes;
mod controlling;
mod data_moves;
mod dividing;
mod fetching;
mod operands;
mod raising;
mod recording;
mod rules;
mod stepping;

pub use recording::{Recorded, step_recorded};
pub use stepping::{AfterStep, step};
