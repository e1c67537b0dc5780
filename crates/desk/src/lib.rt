// The desk: the console as a program has it. It loads bench.img into the stores of the bench, boots a
// machine on them, and answers each letter of the input until the end. `replay_desk` loads the image in the same
// way and fails for the same reasons. It uses `bench` for the stores and
// the file, `panel` for what letters do and what is printed, and `calls` for the machine; programs only
// call it.
#![tactic(auto)]

ghost use Rattle.std.specs.Prelude.{ℕ, Result};
ghost use Rattle.bench.specs.Files.{LoadsFile};
ghost use Rattle.bench.specs.declared.fault.FileFault.{FileFault};

mod failure;

use bench::{FileFault, RAM_BYTES, load_file, on_bench};
use calls::File;
pub use failure::Failure;
use panel::{Command, Line, RefusedImage, command_of, obey};
use std::io::Read;
use store::{Ram, Store};

// Loads the image, if there is one. A refused image stays unloaded. The store is left as loading a file leaves it, of
// which no contract can say what it holds.
pub fn load<S: Store>(rt: &HostRuntime, store: &mut S) -> Result<(), Failure>
    ensures { (loaded : Result ℕ FileFault) × LoadsFile (S.meaning store.old) loaded (S.meaning store.new) }
{
    match load_file(rt, "bench.img", store) {
        Ok(_) | Err(FileFault::Missing) => {}
        Err(FileFault::Refused(fault)) => println!(rt; "{}", RefusedImage(fault.refusal()))?,
        Err(fault) => return Err(fault.into()),
    }
    Ok(())
}

// Answers each letter until q or the end of the input.
fn talk<S: Store>(rt: &HostRuntime, file: &mut File, store: &mut S) -> Result<(), Failure> {
    for byte in rt.reader().bytes() {
        let letter = char::from(byte?);
        let command = command_of(letter);
        match command {
            Command::End => break,
            Command::Skip => {}
            Command::Unknown => println!(rt; "?")?,
            Command::Step | Command::Run | Command::Flush => {
                obey(command, file, store)?;
                println!(rt; "{}", Line::of(letter, file)?)?;
            }
        }
    }
    Ok(())
}

// Runs the console to its end.
pub fn open(rt: &HostRuntime) -> Result<(), Failure> {
    let mut memory = vec![in rt.alloc(); 0; RAM_BYTES]?;
    let mut ram = Ram::new(&mut memory);
    load(rt, &mut ram)?;
    let mut store = on_bench(ram);
    let mut file = File::Cold;
    file.boot(&store)?;
    talk(rt, &mut file, &mut store)
}
