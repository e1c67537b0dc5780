// The script, read from the standard input.
use desk::Failure;
use flat::Call;
use script::call_of;
use std::io::{BufRead, BufReader};
use std::str;

// The call of a line. Bytes that are no text are no call.
fn call_of_bytes(line: &[u8]) -> Option<Call> {
    match str::from_utf8(line) {
        Ok(text) => call_of(text),
        Err(_) => None,
    }
}

// For each line of the script its call, if it has one.
pub(crate) fn read_script(rt: &HostRuntime) -> Result<Vec<Option<Call>>, Failure> {
    let mut script = Vec::new(rt.alloc());
    for line in BufReader::new(rt.alloc(), rt.reader())?.split(rt.alloc(), b'\n') {
        let call = call_of_bytes(&line?);
        script.push(call)?;
    }
    Ok(script)
}

// The calls alone, in order.
pub(crate) fn calls_of(rt: &HostRuntime, script: &[Option<Call>]) -> Result<Vec<Call>, Failure> {
    let mut calls = Vec::new(rt.alloc());
    for call in script {
        if let Some(call) = call {
            calls.push(*call)?;
        }
    }
    Ok(calls)
}
