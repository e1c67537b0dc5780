// The operations that words hold, with their fields as numbers.
use crate::element::ElementType;
use crate::opcodes::{Arith, Form, Reduction, Special};

// One case for each word format. a, b, c and d are register fields, i is a signed displacement,
// j counts registers and w is a place among the words of a line.
#[derive(Clone, Copy, PartialEq, Eq, Debug)]
pub enum Operation {
    Arith {
        op: Arith,
        form: Form,
        a: u8,
        b: u8,
        c: u8,
    },
    // add with dB's address as the first operand
    AddAddress {
        form: Form,
        a: u8,
        b: u8,
        c: u8,
    },
    Div {
        form: Form,
        a: u8,
        b: u8,
        c: u8,
        d: u8,
    },
    Reduce {
        op: Reduction,
        a: u8,
        b: u8,
    },
    Load {
        kind: ElementType,
        a: u8,
        b: u8,
        i: i16,
    },
    Store {
        kind: ElementType,
        a: u8,
        b: u8,
        i: i16,
    },
    Dup {
        kind: ElementType,
        a: u8,
        b: u8,
    },
    Fetch {
        a: u8,
        b: u8,
        i: i16,
        j: u8,
    },
    JumpNotZero {
        a: u8,
        b: u8,
        w: u8,
    },
    JumpZero {
        a: u8,
        b: u8,
        w: u8,
    },
    Hand {
        b: u8,
        w: u8,
    },
    // special register out to data register a
    CopyOut {
        from: Special,
        a: u8,
    },
    // data register a in to special register
    CopyIn {
        to: Special,
        a: u8,
    },
    Swi {
        a: u8,
        b: u8,
        c: u8,
        d: u8,
    },
    Reti,
    Retx,
}
