// The replay as a program has it: it reads a script, loads bench.img into the stores of the bench, makes all the
// calls of the script by one call of `history`, and prints what they answered. It uses `script` and `telling` for
// what is read and printed, `bench` for the stores, `desk` for loading the image and why a program ends early, and
// `trail`, `flat` and `store` for what `history` of `calls` is handed; programs only call it.
#![tactic(auto)]

mod input;

use crate::input::{calls_of, read_script};
use bench::{RAM_BYTES, on_bench};
use calls::{Trails, history};
pub use desk::Failure;
use desk::load;
use flat::{Answer, Mode, Refusal, StepRecord, Stepped};
use std::io;
use std::io::{BufWriter, Write};
use store::Ram;
use telling::Report;
use trail::Trail;

// The slots of each trail that traces share.
const TRAIL_SLOTS: usize = 1_000_000;

const BLANK_RECORD: StepRecord = StepRecord {
    mode: Mode::Supervisor,
    address: 0,
    word: 0,
    answer: Stepped::Done,
};

fn print_report(rt: &HostRuntime, report: Report) -> Result<(), Failure> {
    let mut out = BufWriter::new(rt.alloc(), io::writer(rt))?;
    write!(out, "{report}")?;
    out.flush()?;
    Ok(())
}

// Makes the calls of the script, and prints what they answered.
pub fn replay(rt: &HostRuntime) -> Result<(), Failure> {
    let script = read_script(rt)?;
    let calls = calls_of(rt, &script)?;
    let no_answer: Result<Answer, Refusal> = Ok(Answer::Booted);
    let mut answer_slots = vec![in rt.alloc(); no_answer; calls.len()]?;
    let mut step_slots = vec![in rt.alloc(); BLANK_RECORD; TRAIL_SLOTS]?;
    let mut line_slots = vec![in rt.alloc(); 0u32; TRAIL_SLOTS]?;
    let mut answers = Trail::new(&mut answer_slots);
    let mut trails = Trails {
        steps: Trail::new(&mut step_slots),
        lines: Trail::new(&mut line_slots),
    };
    let mut memory = vec![in rt.alloc(); 0; RAM_BYTES]?;
    let mut ram = Ram::new(&mut memory);
    load(rt, &mut ram)?;
    let mut store = on_bench(ram);
    history(&calls, &mut answers, &mut trails, &mut store);
    let report = Report {
        script: &script,
        answers: answers.records(),
        steps: trails.steps.records(),
        lines: trails.lines.records(),
    };
    print_report(rt, report)
}
