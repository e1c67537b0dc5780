// The program `console`: a bench engineer's console, letter by letter. `desk` does it all.
#![tactic(auto)]

use desk::{Failure, open};

fn main(rt: HostRuntime) -> Result<(), Failure> {
    open(&rt)
}
