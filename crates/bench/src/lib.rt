// The bench: the stores that programs run on, and the file that they are loaded from. It reads
// the image file and prints nothing. It uses `store` for the stores, `survey` for loading an image and
// `image` for why one is refused.
#![tactic(auto)]

mod fault;
mod file;
mod stack;

pub use fault::FileFault;
pub use file::{load_file, load_from, take_front};
pub use stack::{RAM_BYTES, on_bench};
