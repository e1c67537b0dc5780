// The flat machine: what the engine is proved to be. Its definitions stand in specs/, from `Bus` up to
// `Leaving`; they are what a reader must believe. Its laws stand in proofs/. The code here is only the words that
// they and the crates above share: modes, exceptions, rows of rules, the bus, calls and answers, what is
// refused, recorded and shown. It uses words, arithmetic, lines, what stores mean, and how marks are counted.
#![tactic(auto)]

mod answer;
mod bus;
mod call;
mod control;
mod exception;
mod records;
mod refusal;
mod registers;
mod rules;
mod shown;

pub use answer::Answer;
pub use bus::Bus;
pub use call::Call;
pub use control::{Control, Mode};
pub use exception::{Exception, Stepped};
pub use records::{Ran, Slots, StepRecord};
pub use refusal::Refusal;
pub use registers::{DataRegister, line_of, offset_of};
pub use rules::{Divisor, Even, Goes, Narrow, Needs, Rules, Writes};
pub use shown::{ShownData, ShownInstruction};
