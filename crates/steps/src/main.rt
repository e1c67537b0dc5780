// The program `steps`: boots the engine on RAM with an image, makes some million steps and prints what the
// machine and then the store hold. `bench/steps.sh` times it. It uses `bench` for the image, `calls` for
// the steps, and `flat`, `word`, `line` and `store` for what it prints.
#![tactic(auto)]

mod failure;
mod printing;

use bench::{RAM_BYTES, load_file};
use calls::{File, MOST_STEPS};
use failure::Failure;
use flat::Stepped;
use printing::{print_machine, print_store};
use std::env;
use store::{Ram, Store};

// Makes so many runs of a million steps.
fn run_millions<S: Store>(file: &mut File, millions: u32, store: &mut S) -> Result<(), Failure> {
    for _ in 0..millions {
        match file.run(MOST_STEPS, store)?.last {
            Stepped::Done => {}
            Stepped::Entered(_) => return Err(Failure::Entered),
        }
    }
    Ok(())
}

fn run_image(rt: &HostRuntime, path: &str, millions: u32) -> Result<(), Failure> {
    let mut bytes = [0; RAM_BYTES];
    let mut store = Ram::new(&mut bytes);
    load_file(rt, path, &mut store)?;
    let mut file = File::Cold;
    file.boot(&store)?;
    run_millions(&mut file, millions, &mut store)?;
    print_machine(rt, &file)?;
    println!(rt; "halt sends back {}", file.halt(&mut store)?)?;
    print_store(rt, &store)
}

fn main(rt: HostRuntime) -> Result<(), Failure> {
    let mut args = env::args(&rt)?.skip(1);
    let (Some(path), Some(millions)) = (args.next(), args.next()) else {
        return Err(Failure::Usage);
    };
    match millions.parse::<u32>() {
        Ok(millions) => run_image(&rt, &path, millions),
        Err(_) => Err(Failure::Usage),
    }
}
