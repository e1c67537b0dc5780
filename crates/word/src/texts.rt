// How operations and their names are written for people to read.
ghost use Rattle.std.specs.Prelude.{Some};
ghost use Rattle.word.specs.Texts.{element_text, arith_text, reduction_text, special_text, form_text, operation_text};

use crate::element::ElementType;
use crate::opcodes::{Arith, Form, Reduction, Special};
use crate::operations::Operation;
use std::fmt;

impl fmt::Display for ElementType {
    ghost output = { λ kind. Some (element_text kind) };

    fn fmt<W: fmt::Write>(&self, f: &mut fmt::Formatter<W>) -> fmt::Result {
        f.write_str(match self {
            ElementType::U8 => "u8",
            ElementType::S8 => "s8",
            ElementType::U16 => "u16",
            ElementType::S16 => "s16",
            ElementType::U32 => "u32",
            ElementType::S32 => "s32",
            ElementType::U64 => "u64",
            ElementType::S64 => "s64",
        })
    }
}

impl fmt::Display for Arith {
    ghost output = { λ op. Some (arith_text op) };

    fn fmt<W: fmt::Write>(&self, f: &mut fmt::Formatter<W>) -> fmt::Result {
        f.write_str(match self {
            Arith::Add => "add",
            Arith::Sub => "sub",
            Arith::Slt => "slt",
            Arith::Mul => "mul",
            Arith::And => "and",
            Arith::Or => "or",
            Arith::Xor => "xor",
            Arith::Shl => "shl",
            Arith::Shr => "shr",
            Arith::Rol => "rol",
            Arith::Ror => "ror",
        })
    }
}

impl fmt::Display for Reduction {
    ghost output = { λ op. Some (reduction_text op) };

    fn fmt<W: fmt::Write>(&self, f: &mut fmt::Formatter<W>) -> fmt::Result {
        f.write_str(match self {
            Reduction::Add => "add",
            Reduction::Mul => "mul",
            Reduction::Max => "max",
            Reduction::Min => "min",
            Reduction::And => "and",
        })
    }
}

impl fmt::Display for Special {
    ghost output = { λ register. Some (special_text register) };

    fn fmt<W: fmt::Write>(&self, f: &mut fmt::Formatter<W>) -> fmt::Result {
        f.write_str(match self {
            Special::Ie => "ie",
            Special::Xct => "xct",
            Special::Swiarg0 => "swiarg0",
            Special::Swiarg1 => "swiarg1",
            Special::Swiarg2 => "swiarg2",
            Special::Swiarg3 => "swiarg3",
        })
    }
}

impl fmt::Display for Form {
    ghost output = { λ form. Some (form_text form) };

    fn fmt<W: fmt::Write>(&self, f: &mut fmt::Formatter<W>) -> fmt::Result {
        f.write_str(match self {
            Form::Scalar => "s",
            Form::Vector => "v",
        })
    }
}

// The operation with its fields by name.
impl fmt::Display for Operation {
    ghost output = { λ op. Some (operation_text op) };

    fn fmt<W: fmt::Write>(&self, f: &mut fmt::Formatter<W>) -> fmt::Result {
        match self {
            Operation::Arith { op, form, a, b, c } => write!(f, "{op}.{form} a {a} b {b} c {c}"),
            Operation::AddAddress { form, a, b, c } => write!(f, "addr.{form} a {a} b {b} c {c}"),
            Operation::Div { form, a, b, c, d } => write!(f, "div.{form} a {a} b {b} c {c} d {d}"),
            Operation::Reduce { op, a, b } => write!(f, "{op}.r a {a} b {b}"),
            Operation::Load { kind, a, b, i } => write!(f, "load.{kind} a {a} b {b} i {i}"),
            Operation::Store { kind, a, b, i } => write!(f, "store.{kind} a {a} b {b} i {i}"),
            Operation::Dup { kind, a, b } => write!(f, "dup.{kind} a {a} b {b}"),
            Operation::Fetch { a, b, i, j } => write!(f, "fetch a {a} b {b} i {i} j {j}"),
            Operation::JumpNotZero { a, b, w } => write!(f, "jnz a {a} b {b} w {w}"),
            Operation::JumpZero { a, b, w } => write!(f, "jz a {a} b {b} w {w}"),
            Operation::Hand { b, w } => write!(f, "hand b {b} w {w}"),
            Operation::CopyOut { from, a } => write!(f, "cpy.out {from} a {a}"),
            Operation::CopyIn { to, a } => write!(f, "cpy.in {to} a {a}"),
            Operation::Swi { a, b, c, d } => write!(f, "swi a {a} b {b} c {c} d {d}"),
            Operation::Reti => write!(f, "reti"),
            Operation::Retx => write!(f, "retx"),
        }
    }
}
