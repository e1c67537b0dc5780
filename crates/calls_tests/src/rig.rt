// The program of the tests, on line 0 of a store of four lines.
use flat::{Mode, StepRecord, Stepped};
use word::ElementType::U8;
use word::{Operation, code};

// What slots hold before anything is added.
pub(crate) const BLANK: StepRecord = StepRecord {
    mode: Mode::User,
    address: 0xEEEE_EEEE,
    word: 0xEEEE_EEEE,
    answer: Stepped::Done,
};

pub(crate) const NO_LINE: u32 = 0xEEEE_EEEE;

fn w(op: Operation) -> u32 {
    code(op).unwrap_or(0xFFFF_FFFF)
}

fn load(i: i16) -> u32 {
    w(Operation::Load {
        kind: U8,
        a: 5,
        b: 0,
        i,
    })
}

fn dup() -> u32 {
    w(Operation::Dup {
        kind: U8,
        a: 5,
        b: 0,
    })
}

// Line 1 is filled with zeros and left, then line 2, then line 3 is gone to; and so again. With no other register
// on these lines, steps 2 and 4 send lines 1 and 2 back, counted from 0.
pub(crate) fn program() -> [u32; 6] {
    [
        load(128),
        dup(),
        load(256),
        dup(),
        load(384),
        w(Operation::JumpZero { a: 0, b: 63, w: 0 }),
    ]
}

// The program, and three lines of ones.
pub(crate) fn memory() -> [u8; 512] {
    let words = program();
    std::array::from_fn(|k| match k {
        0..=23 => words.get(k / 4).map_or(0, |word| word.to_le_bytes()[k % 4]),
        24..=127 => 0,
        _ => 1,
    })
}

// The record of a step of the program that is done.
pub(crate) fn done(place: u8) -> StepRecord {
    StepRecord {
        mode: Mode::Supervisor,
        address: 4 * u32::from(place % 6),
        word: program().get(usize::from(place % 6)).copied().unwrap_or(0),
        answer: Stepped::Done,
    }
}
