// What the tests share: a program on line 0 of a store of eight lines, the lines that it works on, and
// what is looked at afterwards.
use calls::File;
use flat::{DataRegister, Exception, Mode, Ran, ShownData, Stepped};
use std::process::Abort;
use store::{Ram, Store};
use word::{ElementType, Operation, code};

// A byte that lines have where nothing else is said.
const FILLER: u8 = 0xEE;

pub const FILLED: [u8; 128] = [FILLER; 128];

pub const MODES: [Mode; 2] = [Mode::User, Mode::Supervisor];

// Lines 1 to 4, each of its number 128 times over.
pub const LINES: [[u8; 128]; 4] = [[1; 128], [2; 128], [3; 128], [4; 128]];

// The word of an operation, and an undefined word where none holds it.
pub(crate) fn w(op: Operation) -> u32 {
    code(op).unwrap_or(0xFFFF_FFFF)
}

pub(crate) fn load(kind: ElementType, a: u8, b: u8, i: i16) -> u32 {
    w(Operation::Load { kind, a, b, i })
}

pub(crate) fn store(kind: ElementType, a: u8, b: u8, i: i16) -> u32 {
    w(Operation::Store { kind, a, b, i })
}

pub(crate) fn dup(kind: ElementType, a: u8, b: u8) -> u32 {
    w(Operation::Dup { kind, a, b })
}

pub(crate) fn fetch(a: u8, b: u8, i: i16, j: u8) -> u32 {
    w(Operation::Fetch { a, b, i, j })
}

pub(crate) fn jump_zero(a: u8, b: u8, w: u8) -> u32 {
    self::w(Operation::JumpZero { a, b, w })
}

pub(crate) fn jump_not_zero(a: u8, b: u8, w: u8) -> u32 {
    self::w(Operation::JumpNotZero { a, b, w })
}

pub(crate) fn hand(b: u8, w: u8) -> u32 {
    self::w(Operation::Hand { b, w })
}

// The number of a register that a field names in a mode.
pub(crate) fn number(mode: Mode, field: u8) -> u8 {
    match mode {
        Mode::User => field,
        Mode::Supervisor => field.saturating_add(64),
    }
}

// How many words come before a program: in user mode, hand to the third word and retx.
pub(crate) fn lead(mode: Mode) -> u32 {
    match mode {
        Mode::User => 2,
        Mode::Supervisor => 0,
    }
}

// The address of the word after a number of words of a program.
pub(crate) fn after(mode: Mode, words: u32) -> u32 {
    lead(mode).saturating_add(words).saturating_mul(4)
}

fn word_at(program: &[u32], k: usize) -> u32 {
    program.get(k).copied().unwrap_or(0)
}

// The words of line 0: a program to be run in a mode, and word 31.
pub(crate) fn laid(mode: Mode, program: &[u32], last: u32) -> [u32; 32] {
    std::array::from_fn(|k| match (mode, k) {
        (_, 31) => last,
        (Mode::Supervisor, _) => word_at(program, k),
        (Mode::User, 0) => hand(63, 2),
        (Mode::User, 1) => w(Operation::Retx),
        (Mode::User, _) => word_at(program, k - 2),
    })
}

fn byte(words: &[u32; 32], lines: &[[u8; 128]; 4], k: usize) -> u8 {
    match k / 128 {
        0 => word_at(words, k / 4).to_le_bytes()[k % 4],
        n => lines.get(n - 1).map_or(0, |line| line[k % 128]),
    }
}

// A store of eight lines: the words, four lines, and zeros.
pub(crate) fn memory(words: &[u32; 32], lines: &[[u8; 128]; 4]) -> [u8; 1024] {
    std::array::from_fn(|k| byte(words, lines, k))
}

// A line of one element, filled up around it.
pub(crate) fn one(kind: ElementType, place: usize, bits: u64) -> [u8; 128] {
    let width = usize::from(kind.width());
    std::array::from_fn(|k| {
        if width > 0 && k / width == place / width {
            bits.to_le_bytes()[k % width % 8]
        } else {
            FILLER
        }
    })
}

// A line of two elements in turn.
pub(crate) fn pairs(kind: ElementType, bits: [u64; 2]) -> [u8; 128] {
    let width = usize::from(kind.width());
    std::array::from_fn(|k| {
        if width > 0 {
            bits[k / width % 2].to_le_bytes()[k % width % 8]
        } else {
            FILLER
        }
    })
}

// Boots a store and makes a number of steps of the program, all of which are done.
pub(crate) fn started<S: Store>(rt: &impl Abort, mode: Mode, steps: u32, store: &mut S) -> File {
    let mut file = File::Cold;
    assert_eq!(rt; file.boot(store), Ok(()));
    let steps = lead(mode).saturating_add(steps);
    let last = Stepped::Done;
    assert_eq!(rt; file.run(steps, store), Ok(Ran { steps, last }));
    file
}

// The next step enters an exception.
pub(crate) fn check_enters<S: Store>(
    rt: &impl Abort,
    file: &mut File,
    exception: Exception,
    store: &mut S,
) {
    let ran = Ran {
        steps: 1,
        last: Stepped::Entered(exception),
    };
    assert_eq!(rt; file.run(1, store), Ok(ran));
}

// The mode, the address of its ipc, and xct.
pub(crate) fn check_at(rt: &impl Abort, file: &File, mode: Mode, address: u32, xct: u32) {
    assert_eq!(rt; file.show_rest().map(|rest| rest.mode), Ok(mode));
    assert_eq!(rt; file.show_rest().map(|rest| rest.xct), Ok(xct));
    check_code(rt, file, number(mode, 63), address);
}

// The address of an instruction register.
pub(crate) fn check_code(rt: &impl Abort, file: &File, number: u8, address: u32) {
    assert_eq!(rt;
        file.show_instruction(number).map(|shown| shown.address),
        Ok(address)
    );
}

// The word at a place of an instruction register.
pub(crate) fn check_word(rt: &impl Abort, file: &File, number: u8, place: usize, word: u32) {
    match file.show_instruction(number) {
        Ok(shown) => assert_eq!(rt; shown.words.get(place), Some(&word)),
        Err(_) => panic!(rt; "a cold file"),
    }
}

// What a data register shows.
pub(crate) fn check_data(
    rt: &impl Abort,
    file: &File,
    number: u8,
    data: (u32, ElementType, [u8; 128]),
) {
    let (address, kind, bytes) = data;
    let register = DataRegister { address, kind };
    let shown = ShownData { register, bytes };
    assert_eq!(rt; file.show_data(number), Ok(shown));
}

// The bytes of a line of a store.
pub(crate) fn check_stored<S: Store>(rt: &impl Abort, store: &S, line: u32, bytes: [u8; 128]) {
    let mut out = [0; 128];
    assert_eq!(rt; store.read(line, &mut out).is_ok(), true);
    assert_eq!(rt; out, bytes);
}
