// A test program: what becomes of files that are missing, unreadable, damaged or too long, and how
// many bytes of the bench's RAM each changes. It uses `bench` and `listing`, as `inspect` does.
#![tactic(auto)]

use bench::{FileFault, RAM_BYTES, load_file};
use listing::OutcomeText;
use std::io;
use std::io::ErrorKind;
use store::Ram;

fn try_file(rt: &HostRuntime, path: &str) -> io::Result<()> {
    let mut memory = vec![in rt.alloc(); 0; RAM_BYTES]?;
    let mut ram = Ram::new(&mut memory);
    match load_file(rt, path, &mut ram) {
        // ends the program as any other want of memory does; three lines, and a function for both
        // programs would need a contract of its own
        Err(FileFault::OutOfMemory) => return Err(ErrorKind::OutOfMemory.into()),
        outcome => println!(rt; "{path}\n{}", OutcomeText(outcome))?,
    }
    // a sum without a test or a check in each turn; the bench has far fewer bytes than a u32 counts
    let changed = memory.iter().fold(
        0u32,
        |count, byte| count.wrapping_add(u32::from(*byte != 0)),
    );
    println!(rt; "bytes changed: {changed}")
}

fn main(rt: HostRuntime) -> io::Result<()> {
    try_file(&rt, "missing.img")?;
    try_file(&rt, ".")?;
    try_file(&rt, "damaged.img")?;
    try_file(&rt, "long.img")
}
