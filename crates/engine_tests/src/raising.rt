// Exceptions: what enters each, in which order, who is exempt, and that nothing else changes.
use crate::rig::{
    LINES, MODES, after, check_at, check_code, check_data, check_enters, dup, fetch, hand,
    jump_zero, laid, load, memory, number, one, started, store, w,
};
use flat::{Exception, Mode, Stepped};
use std::process::Abort;
use store::{Ram, Rom, Store};
use word::ElementType::{S8, S16, S64, U8, U16, U32, U64};
use word::{Arith, ElementType, Form, Operation, Reduction, Special};

// An exception and its number.
#[derive(Clone, Copy)]
struct Entry {
    exception: Exception,
    xct: u32,
}

const ZERO_DIVISOR: Entry = Entry {
    exception: Exception::ZeroDivisor,
    xct: 0x1,
};

const UNDEFINED: Entry = Entry {
    exception: Exception::Undefined,
    xct: 0x2,
};

const WIDE: Entry = Entry {
    exception: Exception::Wide,
    xct: 0x3,
};

const MISSING_LINE: Entry = Entry {
    exception: Exception::MissingLine,
    xct: 0x16,
};

const FIXED_LINE: Entry = Entry {
    exception: Exception::FixedLine,
    xct: 0x17,
};

fn arith(op: Arith, form: Form, a: u8, b: u8, c: u8) -> u32 {
    w(Operation::Arith { op, form, a, b, c })
}

fn add_address(form: Form, a: u8, b: u8, c: u8) -> u32 {
    w(Operation::AddAddress { form, a, b, c })
}

fn div(form: Form, a: u8, b: u8, c: u8, d: u8) -> u32 {
    w(Operation::Div { form, a, b, c, d })
}

fn reduce(op: Reduction, a: u8, b: u8) -> u32 {
    w(Operation::Reduce { op, a, b })
}

// d1 to d4 on lines 3, 1, 2 and 4, with these types, and then a word.
fn placed(kinds: [ElementType; 4], word: u32) -> [u32; 5] {
    let [a, b, c, d] = kinds;
    [
        load(a, 1, 0, 395),
        load(b, 2, 0, 147),
        load(c, 3, 0, 284),
        load(d, 4, 0, 517),
        word,
    ]
}

// The fifth word of a program enters an exception in a mode, and does nothing else.
fn check_entry<S: Store>(
    rt: &impl Abort,
    mode: Mode,
    kinds: [ElementType; 4],
    lines: &[[u8; 128]; 4],
    entry: Entry,
    store: &mut S,
) {
    let [a, b, c, d] = kinds;
    let mut file = started(rt, mode, 4, store);
    check_enters(rt, &mut file, entry.exception, store);
    check_at(rt, &file, Mode::Supervisor, 0, entry.xct);
    let user = match mode {
        Mode::User => 24,
        Mode::Supervisor => 0,
    };
    check_code(rt, &file, 63, user);
    check_data(rt, &file, number(mode, 1), (395, a, lines[2]));
    check_data(rt, &file, number(mode, 2), (147, b, lines[0]));
    check_data(rt, &file, number(mode, 3), (284, c, lines[1]));
    check_data(rt, &file, number(mode, 4), (517, d, lines[3]));
    assert_eq!(rt;
        file.show_rest().map(|rest| rest.swiargs),
        Ok([[0; 128]; 4])
    );
    assert_eq!(rt; file.show_rest().map(|rest| rest.ie), Ok(false));
    assert_eq!(rt; file.flush(store), Ok(0));
}

// In both modes, on RAM.
fn check_raises(rt: &impl Abort, kinds: [ElementType; 4], word: u32, entry: Entry) {
    for mode in MODES {
        let mut bytes = memory(&laid(mode, &placed(kinds, word), 0), &LINES);
        let mut ram = Ram::new(&mut bytes);
        check_entry(rt, mode, kinds, &LINES, entry, &mut ram);
    }
}

// In both modes, on lines that cannot be written.
fn check_raises_on_rom(rt: &impl Abort, kinds: [ElementType; 4], word: u32, entry: Entry) {
    for mode in MODES {
        let bytes = memory(&laid(mode, &placed(kinds, word), 0), &LINES);
        let mut rom = Rom::new(&bytes);
        check_entry(rt, mode, kinds, &LINES, entry, &mut rom);
    }
}

// In both modes the fifth word of a program is done.
fn check_does<S: Store>(rt: &impl Abort, mode: Mode, store: &mut S) {
    let mut file = started(rt, mode, 4, store);
    assert_eq!(rt; file.step(store), Ok(Stepped::Done));
    check_at(rt, &file, mode, after(mode, 5), 0);
}

fn check_does_on_ram(rt: &impl Abort, kinds: [ElementType; 4], word: u32) {
    for mode in MODES {
        let mut bytes = memory(&laid(mode, &placed(kinds, word), 0), &LINES);
        check_does(rt, mode, &mut Ram::new(&mut bytes));
    }
}

fn check_does_on_rom(rt: &impl Abort, kinds: [ElementType; 4], word: u32) {
    for mode in MODES {
        let bytes = memory(&laid(mode, &placed(kinds, word), 0), &LINES);
        check_does(rt, mode, &mut Rom::new(&bytes));
    }
}

// A word for each rule of what is undefined.
#[test]
fn undefined_words(rt: HostRuntime) {
    for word in [
        0b0111_0000000000000000000000000000,
        0b1001_0000000000000000000000000000,
        0b1111_0000000000000000000000000000,
        0b0000_000001_000010_000011_00000_0_1100,
        0b0000_000001_000010_000011_00000_0_1101,
        0b0001_000001_000010_000000000000_0101,
        0b0010_000001_000010_000000000000_1000,
        0b0011_000001_000010_000000000000_1000,
        0b0100_000001_000010_000000000000_1000,
        0b0101_000001_000010_00000000000_0000_0,
        0b0110_000001_000001_00000_0000000_0011,
        0b1000_000000_000000_000000_000000_1111,
        0b0001_000001_000010_000000000001_0000,
        0b0100_000001_000010_100000000000_0000,
        0b0110_000001_000001_00000_0000001_0000,
        0b0000_000000_000000_000000_00001_0_0000,
        0b0110_000001_000001_00000_0000000_0010,
        0b1000_000000_000001_000000_000000_0000,
        0b1000_000000_000000_000001_000000_0001,
        0b1000_000001_000000_000000_000000_1101,
        0b1000_000000_000000_000000_000001_1110,
        0b0000_000001_000010_000011_00100_1_1110,
        0b0000_000001_000010_000011_00100_0_1111,
        0b0110_000001_000000_00000_0000000_0000,
        0b0101_111111_000001_00000000000_0000_1,
        0b0101_111110_000001_00000000000_0001_1,
    ] {
        check_raises(&rt, [U8; 4], word, UNDEFINED);
    }
}

// Hand, reti, retx and cpy in user mode, each with its number.
#[test]
fn the_supervisors_own(rt: HostRuntime) {
    use Exception::{UserCopyIn, UserCopyOut};
    let (a, mode) = (2, Mode::User);
    for (op, exception, xct) in [
        (Operation::Hand { b: 1, w: 3 }, Exception::Undefined, 0x2),
        (Operation::Reti, Exception::UserReti, 0x5),
        (Operation::Retx, Exception::UserRetx, 0x6),
        (
            Operation::CopyOut {
                from: Special::Ie,
                a,
            },
            UserCopyOut(Special::Ie),
            0x7,
        ),
        (
            Operation::CopyIn { to: Special::Ie, a },
            UserCopyIn(Special::Ie),
            0x8,
        ),
        (
            Operation::CopyOut {
                from: Special::Xct,
                a,
            },
            UserCopyOut(Special::Xct),
            0x9,
        ),
        (
            Operation::CopyIn {
                to: Special::Xct,
                a,
            },
            UserCopyIn(Special::Xct),
            0xA,
        ),
        (
            Operation::CopyOut {
                from: Special::Swiarg0,
                a,
            },
            UserCopyOut(Special::Swiarg0),
            0xB,
        ),
        (
            Operation::CopyIn {
                to: Special::Swiarg0,
                a,
            },
            UserCopyIn(Special::Swiarg0),
            0xC,
        ),
        (
            Operation::CopyOut {
                from: Special::Swiarg1,
                a,
            },
            UserCopyOut(Special::Swiarg1),
            0xD,
        ),
        (
            Operation::CopyIn {
                to: Special::Swiarg1,
                a,
            },
            UserCopyIn(Special::Swiarg1),
            0xE,
        ),
        (
            Operation::CopyOut {
                from: Special::Swiarg2,
                a,
            },
            UserCopyOut(Special::Swiarg2),
            0xF,
        ),
        (
            Operation::CopyIn {
                to: Special::Swiarg2,
                a,
            },
            UserCopyIn(Special::Swiarg2),
            0x10,
        ),
        (
            Operation::CopyOut {
                from: Special::Swiarg3,
                a,
            },
            UserCopyOut(Special::Swiarg3),
            0x11,
        ),
        (
            Operation::CopyIn {
                to: Special::Swiarg3,
                a,
            },
            UserCopyIn(Special::Swiarg3),
            0x12,
        ),
    ] {
        let kinds = [U8, U8, U8, U8];
        let bytes = memory(&laid(mode, &placed(kinds, w(op)), 0), &LINES);
        let mut rom = Rom::new(&bytes);
        let entry = Entry { exception, xct };
        check_entry(&rt, mode, kinds, &LINES, entry, &mut rom);
    }
}

// One register of 64 bits where the operation takes none, in both forms.
#[test]
fn wide_arithmetic(rt: HostRuntime) {
    for op in [
        Arith::Slt,
        Arith::Mul,
        Arith::Shl,
        Arith::Shr,
        Arith::Rol,
        Arith::Ror,
    ] {
        for kinds in [[S64, U8, U8, U8], [U8, U64, U8, U8], [U8, U8, S64, U8]] {
            for form in [Form::Scalar, Form::Vector] {
                check_raises(&rt, kinds, arith(op, form, 1, 2, 3), WIDE);
            }
        }
    }
}

#[test]
fn wide_others(rt: HostRuntime) {
    for form in [Form::Scalar, Form::Vector] {
        for kinds in [[U64, U8, U8, U8], [U8, U8, S64, U8]] {
            check_raises(&rt, kinds, add_address(form, 1, 2, 3), WIDE);
        }
        check_raises(&rt, [U64; 4], div(form, 1, 2, 3, 4), WIDE);
        check_raises(&rt, [U8, U8, U64, U8], div(form, 1, 2, 3, 4), WIDE);
    }
    for op in [Reduction::Mul, Reduction::Max, Reduction::Min] {
        check_raises(&rt, [U64, U8, U8, U8], reduce(op, 1, 2), WIDE);
        check_raises(&rt, [S64, S64, U8, U8], reduce(op, 1, 2), WIDE);
    }
}

// All registers of 64 bits where the operation takes them.
#[test]
fn not_too_wide(rt: HostRuntime) {
    for op in [Arith::Add, Arith::Sub, Arith::And, Arith::Or, Arith::Xor] {
        for form in [Form::Scalar, Form::Vector] {
            check_does_on_ram(&rt, [U64, S64, U64, U8], arith(op, form, 1, 2, 3));
        }
    }
    check_does_on_ram(&rt, [U32, U64, U16, U8], add_address(Form::Scalar, 1, 2, 3));
    check_does_on_ram(&rt, [U64, U64, U8, U64], div(Form::Scalar, 1, 2, 3, 4));
    for op in [Reduction::Add, Reduction::And] {
        check_does_on_ram(&rt, [U64, S64, U8, U8], reduce(op, 1, 2));
    }
    for op in [Reduction::Mul, Reduction::Max, Reduction::Min] {
        check_does_on_ram(&rt, [U8, S64, U8, U8], reduce(op, 1, 2));
    }
}

// Registers of a vector form of unequal widths; d0 is a u8.
#[test]
fn unequal_widths(rt: HostRuntime) {
    let form = Form::Vector;
    for op in [Arith::Add, Arith::Slt, Arith::Mul, Arith::Xor, Arith::Ror] {
        check_raises(&rt, [U16, U8, U8, U8], arith(op, form, 1, 2, 3), UNDEFINED);
        check_raises(&rt, [U8, U16, U8, U8], arith(op, form, 1, 2, 3), UNDEFINED);
        check_raises(&rt, [U8, U8, S16, U8], arith(op, form, 1, 2, 3), UNDEFINED);
        check_raises(
            &rt,
            [U32, U32, U32, U8],
            arith(op, form, 1, 2, 0),
            UNDEFINED,
        );
        check_raises(
            &rt,
            [U32, U32, U32, U8],
            arith(op, form, 0, 2, 3),
            UNDEFINED,
        );
    }
    check_raises(
        &rt,
        [U16, U16, U8, U8],
        add_address(form, 1, 2, 3),
        UNDEFINED,
    );
    for kinds in [
        [U8, U16, U16, U16],
        [U16, U8, U16, U16],
        [U16, U16, U8, U16],
        [U16, U16, U16, U8],
    ] {
        check_raises(&rt, kinds, div(form, 1, 2, 3, 4), UNDEFINED);
    }
}

// Lines 8 and up, and line 33,554,431; d0 and i0 are not exempt.
#[test]
fn missing_lines(rt: HostRuntime) {
    for word in [
        load(U8, 1, 0, 1024),
        load(U8, 1, 0, -1),
        load(U8, 0, 0, 1024),
        store(U8, 1, 0, 1024),
        store(U8, 0, 0, 1100),
        store(U8, 1, 0, -1),
        fetch(1, 0, 256, 0),
        fetch(0, 0, 256, 0),
        fetch(1, 0, -1, 0),
        fetch(1, 0, 224, 1),
        fetch(1, 0, 0, 8),
    ] {
        check_raises(&rt, [U8; 4], word, MISSING_LINE);
        check_raises_on_rom(&rt, [U8; 4], word, MISSING_LINE);
    }
    for word in [load(U8, 1, 0, 1023), fetch(1, 0, 0, 7), fetch(1, 0, 224, 0)] {
        check_does_on_ram(&rt, [U8; 4], word);
        check_does_on_rom(&rt, [U8; 4], word);
    }
}

#[test]
fn fixed_lines(rt: HostRuntime) {
    for word in [
        arith(Arith::Add, Form::Scalar, 1, 2, 3),
        arith(Arith::Ror, Form::Vector, 1, 2, 3),
        add_address(Form::Scalar, 1, 0, 0),
        div(Form::Scalar, 1, 2, 3, 4),
        div(Form::Vector, 1, 2, 3, 0),
        div(Form::Scalar, 0, 2, 3, 4),
        reduce(Reduction::Max, 1, 2),
        dup(U16, 1, 2),
        store(U8, 1, 0, 0),
    ] {
        check_raises_on_rom(&rt, [U8; 4], word, FIXED_LINE);
    }
    for word in [
        arith(Arith::Add, Form::Scalar, 0, 2, 3),
        arith(Arith::Ror, Form::Vector, 0, 2, 3),
        div(Form::Scalar, 0, 2, 3, 0),
        div(Form::Vector, 0, 2, 3, 0),
        reduce(Reduction::Max, 0, 2),
        dup(U16, 0, 2),
        store(U8, 0, 0, 0),
        load(U8, 1, 0, 0),
    ] {
        check_does_on_rom(&rt, [U8; 4], word);
    }
}

#[test]
fn cpy_to_a_fixed_line(rt: HostRuntime) {
    let mode = Mode::Supervisor;
    for from in [
        Special::Ie,
        Special::Xct,
        Special::Swiarg0,
        Special::Swiarg3,
    ] {
        let word = w(Operation::CopyOut { from, a: 1 });
        let bytes = memory(&laid(mode, &placed([U8; 4], word), 0), &LINES);
        let mut rom = Rom::new(&bytes);
        check_entry(&rt, mode, [U8; 4], &LINES, FIXED_LINE, &mut rom);
        let word = w(Operation::CopyOut { from, a: 0 });
        let bytes = memory(&laid(mode, &placed([U8; 4], word), 0), &LINES);
        check_does(&rt, mode, &mut Rom::new(&bytes));
    }
}

// Zero after the cast to dA's type, or to u8 where dA is d0; in div.v in one place of many.
#[test]
fn zero_divisors(rt: HostRuntime) {
    let sparse: [u8; 128] = std::array::from_fn(|k| if k == 77 { 0 } else { 2 });
    for (kinds, divisors, word) in [
        ([U8, U8, U8, U8], [0; 128], div(Form::Scalar, 1, 2, 3, 4)),
        (
            [U8, U8, U16, U8],
            one(U16, 28, 0x100),
            div(Form::Scalar, 1, 2, 3, 4),
        ),
        (
            [S8, U8, U32, U8],
            one(U32, 28, 0xFFFF_FF00),
            div(Form::Scalar, 1, 2, 3, 4),
        ),
        (
            [U32, U8, U16, U8],
            one(U16, 28, 0x300),
            div(Form::Scalar, 0, 2, 3, 4),
        ),
        ([U8, U8, U8, U8], [1; 128], div(Form::Scalar, 1, 2, 0, 4)),
        ([U8, U8, U8, U8], [1; 128], div(Form::Vector, 1, 2, 0, 4)),
        ([S8, U8, S8, U8], sparse, div(Form::Vector, 1, 2, 3, 4)),
        ([U8, U8, U8, U8], [0; 128], div(Form::Scalar, 0, 0, 0, 0)),
    ] {
        let lines = [[1; 128], divisors, [3; 128], [4; 128]];
        for mode in MODES {
            let mut bytes = memory(&laid(mode, &placed(kinds, word), 0), &lines);
            let mut ram = Ram::new(&mut bytes);
            check_entry(&rt, mode, kinds, &lines, ZERO_DIVISOR, &mut ram);
        }
    }
    check_does_on_ram(&rt, [U16, U8, U16, U8], div(Form::Scalar, 1, 2, 3, 4));
}

// Where several apply, the first in the order of the rules enters.
#[test]
fn order(rt: HostRuntime) {
    for (kinds, word, entry) in [
        (
            [U64, U8, U8, U8],
            arith(Arith::Mul, Form::Vector, 1, 2, 3),
            WIDE,
        ),
        (
            [U8, U8, U16, U8],
            arith(Arith::Add, Form::Vector, 1, 2, 3),
            UNDEFINED,
        ),
        ([U8, U8, U64, U8], div(Form::Vector, 1, 2, 0, 4), FIXED_LINE),
        ([U8, U8, U16, U8], div(Form::Vector, 1, 2, 3, 4), UNDEFINED),
        ([U8, U8, U8, U8], div(Form::Scalar, 1, 2, 0, 4), FIXED_LINE),
        (
            [U8, U8, U8, U8],
            div(Form::Scalar, 0, 2, 0, 0),
            ZERO_DIVISOR,
        ),
        ([U8, U8, U8, U8], store(U8, 1, 0, 1024), MISSING_LINE),
    ] {
        check_raises_on_rom(&rt, kinds, word, entry);
    }
}

// In word 31, where no instruction register names the next line, the exceptions before it in the order.
#[test]
fn order_in_word_31(rt: HostRuntime) {
    for (word, exception, xct) in [
        (0xFFFF_FFFF, Exception::Undefined, 0x2),
        (w(Operation::Retx), Exception::UserRetx, 0x6),
        (hand(1, 0), Exception::Undefined, 0x2),
        (load(U8, 1, 0, -1), Exception::MissingLine, 0x16),
        (div(Form::Scalar, 0, 0, 0, 0), Exception::ZeroDivisor, 0x1),
        (dup(U8, 1, 0), Exception::FixedLine, 0x17),
    ] {
        let mode = Mode::User;
        let bytes = memory(&laid(mode, &[jump_zero(0, 1, 31)], word), &LINES);
        let mut rom = Rom::new(&bytes);
        let mut file = started(&rt, mode, 1, &mut rom);
        check_enters(&rt, &mut file, exception, &mut rom);
        check_at(&rt, &file, Mode::Supervisor, 0, xct);
        check_code(&rt, &file, 63, 124);
    }
}
