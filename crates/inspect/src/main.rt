// The program `inspect`: loads bench.img, if it is there, into the stores of the bench and prints
// what they hold, line by line and word by word. It uses `bench` for the stores and the file,
// `survey` for what they hold and `listing` for its text; it only prints.
#![tactic(auto)]

use bench::{FileFault, RAM_BYTES, load_file, on_bench};
use listing::{OutcomeText, RunText};
use std::io;
use std::io::ErrorKind;
use store::{Ram, Store};
use survey::{Runs, undefined_words};

// Prints each run of lines that are not blank, and then how many words in them are undefined.
fn print_store<S: Store>(rt: &HostRuntime, store: &S) -> io::Result<()> {
    for run in Runs::new(store) {
        println!(rt; "{}", RunText(run))?;
    }
    println!(rt; "undefined words: {}", undefined_words(store))
}

fn main(rt: HostRuntime) -> io::Result<()> {
    let mut memory = vec![in rt.alloc(); 0; RAM_BYTES]?;
    let mut ram = Ram::new(&mut memory);
    match load_file(&rt, "bench.img", &mut ram) {
        // ends the program as any other want of memory does; three lines, and a function for both
        // programs would need a contract of its own
        Err(FileFault::OutOfMemory) => return Err(ErrorKind::OutOfMemory.into()),
        outcome => println!(rt; "{}", OutcomeText(outcome))?,
    }
    print_store(&rt, &on_bench(ram))
}
