// Reading a word: `by_group` picks by the group. A group with one format and no condition but z = 0 is read
// in its arm, and each other group has a function. Each promises `Decodes` for the words of its group,
// which it requires: a type for the words of one group would be longer than these four clauses. `decode`
// promises besides that what is read is what `operation` computes, which follows once for all groups.
ghost use Rattle.std.specs.Prelude.{◌≡◌, ◌/◌, ◌^◌, map};
ghost use Rattle.word.specs.Decodes.{Decodes};
ghost use Rattle.word.specs.Reading.{operation};
ghost use Rattle.word.specs.Worked.{words, answers};

use crate::fields::*;
use crate::opcodes::Special;
use crate::operations::Operation;

// Group 0: a6 b6 c6 d5 v1 o4.
fn arithmetic(word: u32) -> Option<Operation>
    requires { word / 2 ^ 28 ≡ 0 }
    ensures { Decodes word result }
{
    let (a, b, c, d) = (A.read(word), B.read(word), C.read(word), SHORT_D.read(word));
    let form = V.named(word)?;
    match OPCODE.read(word) {
        ADD_ADDRESS if d == 0 => Some(Operation::AddAddress { form, a, b, c }),
        0..=10 if d == 0 => {
            let op = OPCODE.named(word)?;
            Some(Operation::Arith { op, form, a, b, c })
        }
        o if o == DIV + u8::from(form) => Some(Operation::Div { form, a, b, c, d }),
        _ => None,
    }
}

// Group 5: a6 b6 i11 j4 o1.
fn fetch(word: u32) -> Option<Operation>
    requires { word / 2 ^ 28 ≡ 5 }
    ensures { Decodes word result }
{
    let (a, b, j) = (A.read(word), B.read(word), J.read(word));
    let i = SHORT_I.read_signed(word);
    match SHORT_OPCODE.read(word) {
        FETCH_OPCODE if a + j <= LAST_FETCHED => Some(Operation::Fetch { a, b, i, j }),
        _ => None,
    }
}

// Group 6: a6 b6 w5 z7 o4.
fn jump(word: u32) -> Option<Operation>
    requires { word / 2 ^ 28 ≡ 6 }
    ensures { Decodes word result }
{
    let (a, b, w) = (A.read(word), B.read(word), W.read(word));
    match OPCODE.read(word) {
        _ if b == 0 || !Z7.is_zero(word) => None,
        JUMP_NOT_ZERO => Some(Operation::JumpNotZero { a, b, w }),
        JUMP_ZERO => Some(Operation::JumpZero { a, b, w }),
        HAND if a == 0 => Some(Operation::Hand { b, w }),
        _ => None,
    }
}

// Group 8: a6 b6 c6 d6 o4. cpy has two opcodes to a special register, out of it and into it.
fn system(word: u32) -> Option<Operation>
    requires { word / 2 ^ 28 ≡ 8 }
    ensures { Decodes word result }
{
    let (a, b, c, d) = (A.read(word), B.read(word), C.read(word), D.read(word));
    match (OPCODE.read(word), a, b, c, d) {
        (SWI, ..) => Some(Operation::Swi { a, b, c, d }),
        (RETI, 0, 0, 0, 0) => Some(Operation::Reti),
        (RETX, 0, 0, 0, 0) => Some(Operation::Retx),
        (o @ 0..=11, _, 0, 0, 0) => {
            let register = Special::try_from(o / 2).ok()?;
            Some(match o % 2 {
                0 => Operation::CopyOut { from: register, a },
                _ => Operation::CopyIn { to: register, a },
            })
        }
        _ => None,
    }
}

// The operation that a word holds, by the word's group.
fn by_group(word: u32) -> Option<Operation>
    ensures { Decodes word result }
{
    let (a, b) = (A.read(word), B.read(word));
    // Load and store, and reduce and dup, differ in the case alone: one function for two arms would take
    // a closure that makes the case.
    match (GROUP.read(word), OPCODE.read(word)) {
        (ARITHMETIC, _) => arithmetic(word),
        (REDUCE, 0..=4) if Z12.is_zero(word) => {
            let op = OPCODE.named(word)?;
            Some(Operation::Reduce { op, a, b })
        }
        (LOAD, 0..=7) => {
            let (kind, i) = (OPCODE.named(word)?, I.read_signed(word));
            Some(Operation::Load { kind, a, b, i })
        }
        (STORE, 0..=7) => {
            let (kind, i) = (OPCODE.named(word)?, I.read_signed(word));
            Some(Operation::Store { kind, a, b, i })
        }
        (DUP, 0..=7) if Z12.is_zero(word) => {
            let kind = OPCODE.named(word)?;
            Some(Operation::Dup { kind, a, b })
        }
        (FETCH, _) => fetch(word),
        (JUMP, _) => jump(word),
        (SYSTEM, _) => system(word),
        _ => None,
    }
}

// The operation that a word holds, or None where the word is undefined: the one that `Codes` has a row
// for, and the one that `operation` computes.
#[tactic(auto, using(crate::proofs::Reading::is_operation))]
pub fn decode(word: u32) -> Option<Operation>
    ensures decodes { Decodes word result }
    ensures operation { result ≡ operation word }
{
    by_group(word)
}

// Worked words, each read: the first clause has what `operation` computes, the second what that is.
#[tactic(auto, using(crate::proofs::Worked::worked))]
pub fn worked_words() -> [Option<Operation>; 4]
    ensures operations { result ≡ map operation words }
    ensures answers { result ≡ answers }
{
    [
        decode(0x0000_000E),
        decode(0x0000_001E),
        decode(0x2140_0C83),
        decode(0x0000_0020),
    ]
}
