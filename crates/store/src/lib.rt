// Stores: where the lines lie. One trait says what a store means (its size, the bytes of each line,
// which lines can be written), what its questions answer, and what holds of every store; RAM, ROM,
// open bus and the layers fuse and split are stores. It uses no other crate.
#![tactic(auto)]

mod fault;
mod fuse;
mod open_bus;
mod ram;
mod rom;
mod split;
mod store;

pub use fault::{LineFault, LineRefusal};
pub use fuse::Fuse;
pub use open_bus::OpenBus;
pub use ram::Ram;
pub use rom::Rom;
pub use split::Split;
pub use store::{MOST_LINES, Store};
