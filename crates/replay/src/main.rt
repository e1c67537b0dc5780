// The program `replay`: makes the calls of a script and prints what they answer. `replay_desk` does it all.
#![tactic(auto)]

use replay_desk::{Failure, replay};

fn main(rt: HostRuntime) -> Result<(), Failure> {
    replay(&rt)
}
