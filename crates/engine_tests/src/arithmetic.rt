// Arithmetic, division and reductions, in both modes. d1, dA, is at 395; d2, dB, is at 147; d3, dC, is at
// 284; d4, dD, is at 517. The bits of elements are written as unsigned numbers.
use crate::rig::{
    FILLED, MODES, after, check_at, check_data, check_stored, laid, load, memory, number, one,
    pairs, started, w,
};
use flat::{Mode, Ran, Stepped};
use std::process::Abort;
use store::Ram;
use word::ElementType::{S8, S16, S32, S64, U8, U16, U32, U64};
use word::{Arith, ElementType, Form, Operation, Reduction};

// The types of dA, dB, dC and dD, an operation on them, and the lines of dB and dC before it and of dA and dD
// after it.
#[derive(Drop)]
struct Case {
    kinds: [ElementType; 4],
    op: Operation,
    b: [u8; 128],
    c: [u8; 128],
    a: [u8; 128],
    d: [u8; 128],
}

// How many lines an operation touches.
fn touched(op: Operation) -> u32 {
    match op {
        Operation::Div { a: 1, d: 4, .. } => 2,
        _ => 1,
    }
}

fn check_in(rt: &impl Abort, mode: Mode, case: &Case) {
    let [a, b, c, d] = case.kinds;
    let program = [
        load(a, 1, 0, 395),
        load(b, 2, 0, 147),
        load(c, 3, 0, 284),
        load(d, 4, 0, 517),
        w(case.op),
    ];
    let mut bytes = memory(&laid(mode, &program, 0), &[case.b, case.c, FILLED, FILLED]);
    let mut ram = Ram::new(&mut bytes);
    let mut file = started(rt, mode, 5, &mut ram);
    check_at(rt, &file, mode, after(mode, 5), 0);
    check_data(rt, &file, number(mode, 1), (395, a, case.a));
    check_data(rt, &file, number(mode, 2), (147, b, case.b));
    check_data(rt, &file, number(mode, 3), (284, c, case.c));
    check_data(rt, &file, number(mode, 4), (517, d, case.d));
    check_stored(rt, &ram, 3, FILLED);
    check_stored(rt, &ram, 4, FILLED);
    assert_eq!(rt; file.flush(&mut ram), Ok(touched(case.op)));
    check_stored(rt, &ram, 1, case.b);
    check_stored(rt, &ram, 2, case.c);
    check_stored(rt, &ram, 3, case.a);
    check_stored(rt, &ram, 4, case.d);
}

fn check(rt: &impl Abort, case: &Case) {
    for mode in MODES {
        check_in(rt, mode, case);
    }
}

// A function of dB and dC, and its result in dA.
fn arith(op: Arith, form: Form) -> Operation {
    let (a, b, c) = (1, 2, 3);
    Operation::Arith { op, form, a, b, c }
}

fn add_address(form: Form) -> Operation {
    let (a, b, c) = (1, 2, 3);
    Operation::AddAddress { form, a, b, c }
}

// x op y is z, each by its type.
fn check_scalar(rt: &impl Abort, op: Operation, kinds: [ElementType; 3], bits: [u64; 3]) {
    let [x, y, z] = bits;
    let [to, from, by] = kinds;
    check(
        rt,
        &Case {
            kinds: [to, from, by, U8],
            op,
            b: one(from, 19, x),
            c: one(by, 28, y),
            a: one(to, 11, z),
            d: FILLED,
        },
    );
}

// The same at every element place.
fn check_vector(rt: &impl Abort, op: Operation, kinds: [ElementType; 3], bits: [[u64; 2]; 3]) {
    let [x, y, z] = bits;
    let [to, from, by] = kinds;
    check(
        rt,
        &Case {
            kinds: [to, from, by, U8],
            op,
            b: pairs(from, x),
            c: pairs(by, y),
            a: pairs(to, z),
            d: FILLED,
        },
    );
}

#[test]
fn sums_and_differences(rt: HostRuntime) {
    for (op, kinds, bits) in [
        (Arith::Add, [U8, U8, U8], [200, 100, 44]),
        (Arith::Add, [S16, S8, U8], [0xFF, 0xFF, 0x00FE]),
        (Arith::Add, [U64, U64, U64], [0xFFFF_FFFF_FFFF_FFFF, 2, 1]),
        (
            Arith::Add,
            [U32, S8, U64],
            [0xFF, 0x7_0000_0000, 0xFFFF_FFFF],
        ),
        (Arith::Sub, [U16, U16, U16], [3, 5, 0xFFFE]),
        (
            Arith::Sub,
            [S64, S64, U8],
            [0x8000_0000_0000_0000, 1, 0x7FFF_FFFF_FFFF_FFFF],
        ),
    ] {
        check_scalar(&rt, arith(op, Form::Scalar), kinds, bits);
    }
}

#[test]
fn orders_and_products(rt: HostRuntime) {
    for (op, kinds, bits) in [
        (Arith::Slt, [S8, U8, S8], [200, 5, 1]),
        (Arith::Slt, [U8, S8, U8], [200, 5, 0]),
        (Arith::Slt, [U16, S8, U16], [0xFF, 0xFFFF, 0]),
        (Arith::Mul, [S16, S16, S16], [0xFED4, 300, 0xA070]),
        (Arith::Mul, [U32, U32, U32], [0x1_0001, 0x1_0001, 0x2_0001]),
    ] {
        check_scalar(&rt, arith(op, Form::Scalar), kinds, bits);
    }
}

#[test]
fn bits_joined(rt: HostRuntime) {
    for (op, kinds, bits) in [
        (
            Arith::And,
            [U64, U64, U64],
            [
                0xFF00_FF00_FF00_FF00,
                0x0FF0_0FF0_0FF0_0FF0,
                0x0F00_0F00_0F00_0F00,
            ],
        ),
        (Arith::And, [S32, S8, U16], [0xF0, 0xABCD, 0xABC0]),
        (Arith::Or, [U16, S8, U8], [0x80, 0x01, 0xFF81]),
        (
            Arith::Xor,
            [S64, S64, U64],
            [
                0xFFFF_FFFF_FFFF_FFFF,
                0x1234_5678_9ABC_DEF0,
                0xEDCB_A987_6543_210F,
            ],
        ),
    ] {
        check_scalar(&rt, arith(op, Form::Scalar), kinds, bits);
    }
}

#[test]
fn shifts_and_rotations(rt: HostRuntime) {
    for (op, kinds, bits) in [
        (Arith::Shl, [U8, U8, U8], [0x81, 1, 0x02]),
        (Arith::Shl, [U8, U8, U8], [0x81, 8, 0]),
        (Arith::Shl, [S8, U8, U16], [0x81, 0x0101, 0x02]),
        (Arith::Shr, [S8, S8, U8], [0xFF, 9, 0xFF]),
        (Arith::Shr, [U8, U8, U8], [0x81, 1, 0x40]),
        (Arith::Shr, [S32, S32, U8], [0x8000_0000, 4, 0xF800_0000]),
        (Arith::Shr, [S16, S16, S16], [0x8001, 0xFFFF, 0xFFFF]),
        (Arith::Rol, [U8, U8, U8], [0x81, 9, 0x03]),
        (Arith::Rol, [U32, U32, U16], [0x8000_0001, 4, 0x18]),
        (Arith::Ror, [U16, U16, U8], [0x1234, 4, 0x4123]),
        (Arith::Ror, [S8, S8, U32], [0x01, 1, 0x80]),
    ] {
        check_scalar(&rt, arith(op, Form::Scalar), kinds, bits);
    }
}

// dB's address is 147, whatever its element is.
#[test]
fn addresses_are_added(rt: HostRuntime) {
    for (kinds, bits) in [
        ([U32, U8, U32], [5, 1000, 1147]),
        ([U8, U64, U8], [5, 200, 91]),
        ([S8, S16, S8], [5, 0xFF, 0x92]),
    ] {
        check_scalar(&rt, add_address(Form::Scalar), kinds, bits);
    }
}

#[test]
fn vectors(rt: HostRuntime) {
    for (op, kinds, bits) in [
        (Arith::Add, [U8, S8, U8], [[200, 1], [100, 2], [44, 3]]),
        (
            Arith::Sub,
            [S16, S16, S16],
            [[3, 0x8000], [5, 1], [0xFFFE, 0x7FFF]],
        ),
        (Arith::Slt, [U8, S8, U8], [[0xFF, 5], [1, 6], [0, 1]]),
        (
            Arith::Slt,
            [S32, S32, U32],
            [[0xFFFF_FFFF, 1], [0, 0], [1, 0]],
        ),
        (
            Arith::Mul,
            [U32, U32, U32],
            [[0x1_0001, 3], [0x1_0001, 5], [0x2_0001, 15]],
        ),
        (
            Arith::And,
            [U64, S64, U64],
            [
                [0xFFFF_FFFF_FFFF_FFFF, 1],
                [0x1234_5678_9ABC_DEF0, 2],
                [0x1234_5678_9ABC_DEF0, 0],
            ],
        ),
        (
            Arith::Or,
            [U16, U16, U16],
            [[0x1200, 0], [0x34, 0], [0x1234, 0]],
        ),
        (
            Arith::Xor,
            [S8, S8, S8],
            [[0x0F, 0xFF], [0xFF, 0xFF], [0xF0, 0]],
        ),
        (
            Arith::Shl,
            [U16, U16, U16],
            [[1, 0xFFFF], [15, 16], [0x8000, 0]],
        ),
        (
            Arith::Shr,
            [S8, U8, U8],
            [[0xFF, 0x40], [9, 2], [0xFF, 0x10]],
        ),
        (Arith::Rol, [U8, U8, U8], [[0x81, 1], [9, 4], [3, 0x10]]),
        (
            Arith::Ror,
            [U16, U16, S16],
            [[0x1234, 1], [4, 1], [0x4123, 0x8000]],
        ),
    ] {
        check_vector(&rt, arith(op, Form::Vector), kinds, bits);
    }
    for (kinds, bits) in [
        ([U32, U32, U32], [[5, 5], [1000, 0xFFFF_FFFF], [1147, 146]]),
        ([U8, U64, U8], [[5, 5], [200, 109], [91, 0]]),
    ] {
        check_vector(&rt, add_address(Form::Vector), kinds, bits);
    }
}

#[test]
fn quotients_and_remainders(rt: HostRuntime) {
    for (kinds, bits) in [
        ([S8, S8, S8, S16], [0xF9, 2, 0xFD, 0xFFFF]),
        (
            [U64, U64, U8, U8],
            [1_000_000_000_000, 7, 142_857_142_857, 1],
        ),
        ([S32, S32, S8, U64], [0x8000_0000, 0xFF, 0x8000_0000, 0]),
        (
            [S16, S16, U8, U64],
            [0xFFF9, 2, 0xFFFD, 0xFFFF_FFFF_FFFF_FFFF],
        ),
    ] {
        let [x, y, q, r] = bits;
        let [to, from, by, rest] = kinds;
        let op = Operation::Div {
            form: Form::Scalar,
            a: 1,
            b: 2,
            c: 3,
            d: 4,
        };
        let case = Case {
            kinds,
            op,
            b: one(from, 19, x),
            c: one(by, 28, y),
            a: one(to, 11, q),
            d: one(rest, 5, r),
        };
        check(&rt, &case);
    }
}

#[test]
fn quotients_and_remainders_of_lines(rt: HostRuntime) {
    for (kinds, bits) in [
        (
            [U16, U16, U16, U16],
            [[7, 0xFFFF], [2, 0x100], [3, 0xFF], [1, 0xFF]],
        ),
        (
            [S8, U8, S8, U8],
            [[0xF9, 0x80], [2, 0xFF], [0xFD, 0x80], [0xFF, 0]],
        ),
    ] {
        let [x, y, q, r] = bits;
        let [to, from, by, rest] = kinds;
        let op = Operation::Div {
            form: Form::Vector,
            a: 1,
            b: 2,
            c: 3,
            d: 4,
        };
        let case = Case {
            kinds,
            op,
            b: pairs(from, x),
            c: pairs(by, y),
            a: pairs(to, q),
            d: pairs(rest, r),
        };
        check(&rt, &case);
    }
}

// The remainder stands where both go to one element, and goes to dD where dA is d0.
#[test]
fn remainders_stand(rt: HostRuntime) {
    for form in [Form::Scalar, Form::Vector] {
        let (a, b, c, d) = (1, 2, 3, 1);
        let kinds = [U8, U8, U8, U8];
        let after = match form {
            Form::Scalar => one(U8, 11, 3),
            Form::Vector => [3; 128],
        };
        let case = Case {
            kinds,
            op: Operation::Div { form, a, b, c, d },
            b: [7; 128],
            c: [4; 128],
            a: after,
            d: FILLED,
        };
        check(&rt, &case);
        let other = match form {
            Form::Scalar => one(U8, 5, 3),
            Form::Vector => [3; 128],
        };
        let (a, d) = (0, 4);
        let case = Case {
            kinds,
            op: Operation::Div { form, a, b, c, d },
            b: [7; 128],
            c: [4; 128],
            a: FILLED,
            d: other,
        };
        check(&rt, &case);
    }
}

#[test]
fn reductions(rt: HostRuntime) {
    for (op, kinds, bits, z) in [
        (Reduction::Add, [U8, U16], [5, 5], 64),
        (Reduction::Add, [U64, U8], [255, 255], 32_640),
        (Reduction::Add, [S64, S8], [255, 0], 0xFFFF_FFFF_FFFF_FFC0),
        (Reduction::Mul, [U32, U64], [3, 5], 2_562_890_625),
        (Reduction::Max, [S16, U8], [200, 7], 200),
        (Reduction::Max, [S8, U8], [200, 7], 7),
        (Reduction::Min, [S8, U8], [200, 7], 0xC8),
        (Reduction::Min, [U8, S8], [0xFF, 3], 3),
        (
            Reduction::And,
            [U64, S8],
            [0xF0, 0xFE],
            0xFFFF_FFFF_FFFF_FFF0,
        ),
        (Reduction::And, [U8, U32], [0x1FF, 0xF3], 0xF3),
    ] {
        let [to, from] = kinds;
        let case = Case {
            kinds: [to, from, U8, U8],
            op: Operation::Reduce { op, a: 1, b: 2 },
            b: pairs(from, bits),
            c: FILLED,
            a: one(to, 11, z),
            d: FILLED,
        };
        check(&rt, &case);
    }
}

// d1 and d2 are on one line, d1's a line of u8: every operand is read before anything is written.
#[test]
fn one_line(rt: HostRuntime) {
    let form = Form::Vector;
    let (a, b, c) = (1, 2, 1);
    for mode in MODES {
        let program = [
            load(U8, 1, 0, 128),
            load(S8, 2, 0, 129),
            w(Operation::Arith {
                op: Arith::Add,
                form,
                a,
                b,
                c,
            }),
            load(U16, 2, 0, 131),
            w(Operation::Arith {
                op: Arith::Mul,
                form: Form::Scalar,
                a: 2,
                b: 1,
                c: 2,
            }),
        ];
        let lines = [pairs(U8, [100, 200]), FILLED, FILLED, FILLED];
        let mut bytes = memory(&laid(mode, &program, 0), &lines);
        let mut ram = Ram::new(&mut bytes);
        let mut file = started(&rt, mode, 3, &mut ram);
        check_data(
            &rt,
            &file,
            number(mode, 1),
            (128, U8, pairs(U8, [200, 144])),
        );
        check_data(
            &rt,
            &file,
            number(mode, 2),
            (129, S8, pairs(U8, [200, 144])),
        );
        assert_eq!(rt;
            file.run(2, &mut ram),
            Ok(Ran {
                steps: 2,
                last: Stepped::Done
            })
        );
        let mut product = pairs(U8, [200, 144]);
        product[2] = 0x40;
        product[3] = 0x1C;
        check_data(&rt, &file, number(mode, 1), (128, U8, product));
        check_data(&rt, &file, number(mode, 2), (131, U16, product));
        check_stored(&rt, &ram, 1, pairs(U8, [100, 200]));
        assert_eq!(rt; file.flush(&mut ram), Ok(1));
        check_stored(&rt, &ram, 1, product);
    }
}
