// The text of a whole replay.
ghost use Rattle.std.specs.Prelude.{◌≡◌, ◌<◌, ◌++◌, [], length, take, drop, Some, MatchOption, IfSome};
ghost use Rattle.telling.specs.Reports.{answered_text, made, records_text, script_text, sent, sents_text};
ghost use Rattle.telling.specs.Entries.{entry_text, left_text};

use crate::answers::AnswerText;
use crate::records::{RecordText, SentText};
use flat::{Answer, Call, Refusal, StepRecord};
use std::fmt;

// A line for each step.
#[derive(Clone, Copy)]
struct Records<'a>(&'a [StepRecord]);

impl<'a> fmt::Display for Records<'a> {
    ghost output = { λ records. Some (records_text records.0.now) };

    fn fmt<W: fmt::Write>(&self, f: &mut fmt::Formatter<W>) -> fmt::Result {
        for step in self.0 {
            let step = RecordText(*step);
            write!(f, "{step}\n")?;
        }
        Ok(())
    }
}

// A line for each line that was sent back.
#[derive(Clone, Copy)]
struct Sents<'a>(&'a [u32]);

impl<'a> fmt::Display for Sents<'a> {
    ghost output = { λ sents. Some (sents_text sents.0.now) };

    fn fmt<W: fmt::Write>(&self, f: &mut fmt::Formatter<W>) -> fmt::Result {
        for line in self.0 {
            let line = SentText(*line);
            write!(f, "{line}\n")?;
        }
        Ok(())
    }
}

// What a call answered, and below it what it added to the trails.
#[derive(Clone, Copy)]
struct Answered<'a> {
    text: AnswerText<'a>,
    steps: &'a [StepRecord],
    lines: &'a [u32],
}

impl<'a> fmt::Display for Answered<'a> {
    ghost output = { λ one. Some (answered_text one.text.call one.text.answer.now one.steps.now one.lines.now) };

    fn fmt<W: fmt::Write>(&self, f: &mut fmt::Formatter<W>) -> fmt::Result {
        let Answered { text, steps, lines } = *self;
        let steps = Records(steps);
        let lines = Sents(lines);
        write!(f, "{text}\n{steps}{lines}")
    }
}

// How many records a call added.
fn made(answer: &Result<Answer, Refusal>) -> usize
    ensures { result ≡ made answer.now }
{
    match answer {
        Ok(Answer::Traced { ran, .. }) => ran.steps as usize,
        Ok(
            Answer::Booted
            | Answer::Stepped(_)
            | Answer::Ran(_)
            | Answer::Pinned
            | Answer::Data(_)
            | Answer::Instruction(_)
            | Answer::Rest(_)
            | Answer::Flushed(_)
            | Answer::Halted(_),
        )
        | Err(_) => 0,
    }
}

// How many lines.
fn sent(answer: &Result<Answer, Refusal>) -> usize
    ensures { result ≡ sent answer.now }
{
    match answer {
        Ok(Answer::Traced { sent, .. }) => *sent,
        Ok(
            Answer::Booted
            | Answer::Stepped(_)
            | Answer::Ran(_)
            | Answer::Pinned
            | Answer::Data(_)
            | Answer::Instruction(_)
            | Answer::Rest(_)
            | Answer::Flushed(_)
            | Answer::Halted(_),
        )
        | Err(_) => 0,
    }
}

// The first so many, or all where there are no more, and those behind them.
fn cut<T>(all: &[T], count: usize) -> (&[T], &[T])
    ensures { (result.0.now ≡ take count all.now) × (result.1.now ≡ drop count all.now) }
{
    let own = all.get(..count).unwrap_or(all);
    let left = all.get(count..).unwrap_or(&[]);
    (own, left)
}

// What stands for a line of the script.
#[derive(Clone, Copy)]
enum Entry<'a> {
    NoCall,
    Answered(Answered<'a>),
}

impl<'a> fmt::Display for Entry<'a> {
    ghost output = { λ entry_. Some (entry_text entry_) };

    fn fmt<W: fmt::Write>(&self, f: &mut fmt::Formatter<W>) -> fmt::Result {
        match *self {
            Entry::NoCall => write!(f, "?\n"),
            Entry::Answered(answered) => write!(f, "{answered}"),
        }
    }
}

// The lines of the script that are left, with what is left of the answers and the trails.
#[derive(Clone, Copy)]
struct Left<'a> {
    script: &'a [Option<Call>],
    answers: &'a [Result<Answer, Refusal>],
    steps: &'a [StepRecord],
    lines: &'a [u32],
}

// The next entry, and what is left behind it.
#[tactic(auto, using(crate::proofs::Reporting::reporting))]
fn next<'a>(left: Left<'a>) -> Option<(Entry<'a>, Left<'a>)>
    ensures text { MatchOption result (left_text left.entry ≡ []) (λ x. left_text left.entry ≡ entry_text x.0 ++ left_text x.1) }
    ensures shorter { IfSome result (λ x. length x.1.script.now < length left.entry.script.now) }
{
    let Some((call, script)) = left.script.split_first() else {
        return None;
    };
    let Some(call) = call else {
        let left = Left { script, ..left };
        return Some((Entry::NoCall, left));
    };
    let Some((answer, answers)) = left.answers.split_first() else {
        return None;
    };
    let (own_steps, steps) = cut(left.steps, made(answer));
    let (own_lines, lines) = cut(left.lines, sent(answer));
    let answered = Answered {
        text: AnswerText {
            call: *call,
            answer,
        },
        steps: own_steps,
        lines: own_lines,
    };
    let left = Left {
        script,
        answers,
        steps,
        lines,
    };
    Some((Entry::Answered(answered), left))
}

impl<'a> fmt::Display for Left<'a> {
    ghost output = { λ left. Some (left_text left) };

    fn fmt<W: fmt::Write>(&self, f: &mut fmt::Formatter<W>) -> fmt::Result {
        let mut left = *self;
        while let Some((entry, rest)) = next(left) {
            write!(f, "{entry}")?;
            left = rest;
        }
        Ok(())
    }
}

// A replay: the lines of the script, each with its call if it has one, what the calls answered, and what all
// traces kept, in order.
#[derive(Clone, Copy)]
pub struct Report<'a> {
    pub script: &'a [Option<Call>],
    pub answers: &'a [Result<Answer, Refusal>],
    pub steps: &'a [StepRecord],
    pub lines: &'a [u32],
}

impl<'a> fmt::Display for Report<'a> {
    ghost output = { λ report. Some (script_text report.script.now report.answers.now report.steps.now report.lines.now) };

    fn fmt<W: fmt::Write>(&self, f: &mut fmt::Formatter<W>) -> fmt::Result {
        let Report {
            script,
            answers,
            steps,
            lines,
        } = *self;
        let left = Left {
            script,
            answers,
            steps,
            lines,
        };
        write!(f, "{left}")
    }
}
