// The calls: all that anybody can do with a machine. A file is cold or warm, and the calls are its methods;
// `File::call` makes any of them from its value, and promises that the law over whole histories, which holds
// of what it finds, holds of what it leaves. It uses `engine` for a step, `file` and `tags` for registers,
// `flat` for what each call is and refuses, `trail`, `word` for the words of a line, and the store's interface.
#![tactic(auto)]

mod call;
mod files;
mod histories;
mod loops;
mod trails;

pub use files::File;
pub use histories::history;
pub use loops::MOST_STEPS;
pub use trails::Trails;
