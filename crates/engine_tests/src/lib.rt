// The engine at work: single instructions on a file and a store, each opcode and each exception at least
// once, and the calls step and run. What is expected of each stands here as it was written by hand from
// docs/machine.md and docs/lines.md. It uses `calls` and `store`, the words of `flat` that they answer with,
// `word` for the instructions, and `tags` for registers and the counts of tags.
#![tactic(auto)]

#[cfg(test)]
mod arithmetic;
#[cfg(test)]
mod control;
#[cfg(test)]
mod moving;
#[cfg(test)]
mod raising;
#[cfg(test)]
mod rig;
#[cfg(test)]
mod runs;
