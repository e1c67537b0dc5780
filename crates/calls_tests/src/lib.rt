// Trace and lists of calls at work: what trails hold after a trace, which of them stops it, and what a list of calls
// answers, refusals too. What is expected stands here as it was written by hand from docs/machine.md. It uses
// `calls`, `store` and `trail` for what they work on, `flat` for what they are given and answer, and `word` for
// the instructions.
#![tactic(auto)]

#[cfg(test)]
mod lists;
#[cfg(test)]
mod rig;
#[cfg(test)]
mod traces;
