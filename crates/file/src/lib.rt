// The file: data registers with tags and a mark on each line that was written, instruction registers with
// tags, and the rest of the machine. Each operation here does to what the file stands for what the flat
// operation of the same name does, on any store, and answers what that does on the bus. Lines are read from
// the store and sent to it by the two functions of `backing` alone. It uses the definitions of the flat
// machine, banks of tags, marks, and the store's interface.
#![tactic(auto)]

mod backing;
mod data;
mod instructions;
mod machine;

pub use data::DataRegisters;
pub use instructions::{InstructionRegisters, Memory};
pub use machine::Machine;
