// The text of a machine's state. Bytes are left out where they are those printed last, or a line's zeros.
use crate::failure::Failure;
use calls::File;
use flat::{Control, DataRegister, Mode};
use line::zeros;
use std::io;
use store::Store;

fn print_bytes(rt: &HostRuntime, bytes: &[u8; 128]) -> io::Result<()> {
    for byte in bytes {
        print!(rt; "{byte:02x}")?;
    }
    println!(rt; "")
}

fn print_words(rt: &HostRuntime, words: &[u32; 32]) -> io::Result<()> {
    for word in words {
        print!(rt; "{word:08x}")?;
    }
    println!(rt; "")
}

fn print_control(rt: &HostRuntime, control: &Control) -> io::Result<()> {
    let mode = match control.mode {
        Mode::User => "user",
        Mode::Supervisor => "supervisor",
    };
    println!(rt;
        "{mode} ie {} xct {} pin {}",
        control.ie, control.xct, control.pin
    )?;
    for swiarg in &control.swiargs {
        print_bytes(rt, swiarg)?;
    }
    Ok(())
}

fn print_data(rt: &HostRuntime, file: &File) -> Result<(), Failure> {
    let mut last = zeros();
    for number in 0..128u8 {
        let shown = file.show_data(number)?;
        let DataRegister { address, kind } = shown.register;
        println!(rt; "data {number} {address} {}", u8::from(kind))?;
        if shown.bytes != last {
            print_bytes(rt, &shown.bytes)?;
            last = shown.bytes;
        }
    }
    Ok(())
}

fn print_instructions(rt: &HostRuntime, file: &File) -> Result<(), Failure> {
    let mut last = [0; 32];
    for number in 0..128u8 {
        let shown = file.show_instruction(number)?;
        println!(rt; "instruction {number} {}", shown.address)?;
        if shown.words != last {
            print_words(rt, &shown.words)?;
            last = shown.words;
        }
    }
    Ok(())
}

// Prints all that a warm file shows.
pub(crate) fn print_machine(rt: &HostRuntime, file: &File) -> Result<(), Failure> {
    print_control(rt, &file.show_rest()?)?;
    print_data(rt, file)?;
    print_instructions(rt, file)
}

// Prints each line of a store that is not zeros.
pub(crate) fn print_store<S: Store>(rt: &HostRuntime, store: &S) -> Result<(), Failure> {
    let mut bytes = zeros();
    for line in 0..store.size() {
        store.read(line, &mut bytes)?;
        if bytes != zeros() {
            println!(rt; "line {line}")?;
            print_bytes(rt, &bytes)?;
        }
    }
    Ok(())
}
