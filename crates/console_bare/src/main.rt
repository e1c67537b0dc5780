// A test program: the console where there is no image. `desk` does it all.
#![tactic(auto)]

use desk::{Failure, open};

fn main(rt: HostRuntime) -> Result<(), Failure> {
    open(&rt)
}
