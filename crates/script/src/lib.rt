// Scripts: the call that a line of text asks for. It uses the calls as values, of `flat`.
#![tactic(auto)]

mod calls;
mod numbers;

pub use calls::call_of;
