// The panel: what a letter that is typed at the console asks for, what that does to a machine and its
// store, and the lines that are printed. It reads and prints nothing. It uses `calls` for the file and its
// calls, with `trail` for the trails that they are handed, `flat`, `file` and `tags` for what a line shows, `text`
// for its text, `image` for what an image is refused for, and the store's interface.
#![tactic(auto)]

mod commands;
mod refused;
mod shown;

pub use commands::{Command, RUN_STEPS, call_of, command_of, obey};
pub use refused::RefusedImage;
pub use shown::Line;
