// Writing a word: one function to a word format, and `code`, which gives each operation its numbers.
// Fields are parameters in the order of the format: a struct for each format would only name them again.
ghost use Rattle.std.specs.Prelude.{[], ◌∷◌};
ghost use Rattle.word.specs.Decodes.{Coded, Written};
ghost use Rattle.word.specs.Fields.{plain, nonzero, signed};
ghost use Rattle.word.specs.Numbers.{form_number};
ghost use Rattle.word.specs.declared.operations.Operation.TheVariants.{Fetch};

use crate::fields::*;
use crate::no_word::NoWord;
use crate::opcodes::Form;
use crate::operations::Operation;

// a6 b6 z12 o4, in groups 1 and 4.
fn pair(group: u8, a: u8, b: u8, o: u8) -> Result<u32, NoWord>
    ensures { Written (plain group 4 ∷ plain a 6 ∷ plain b 6 ∷ plain 0 12 ∷ plain o 4 ∷ []) result }
{
    Ok(GROUP.write(group)? + A.write(a)? + B.write(b)? + OPCODE.write(o)?)
}

// a6 b6 c6 d5 v1 o4, in group 0.
fn arithmetic(a: u8, b: u8, c: u8, d: u8, form: Form, o: u8) -> Result<u32, NoWord>
    ensures { Written (plain 0 4 ∷ plain a 6 ∷ plain b 6 ∷ plain c 6 ∷ plain d 5 ∷ plain (form_number form) 1 ∷ plain o 4 ∷ []) result }
{
    let fields = A.write(a)? + B.write(b)? + C.write(c)? + SHORT_D.write(d)?;
    Ok(GROUP.write(ARITHMETIC)? + fields + V.write(form.into())? + OPCODE.write(o)?)
}

// a6 b6 i12 o4, in groups 2 and 3.
fn transfer(group: u8, a: u8, b: u8, i: i16, o: u8) -> Result<u32, NoWord>
    ensures { Written (plain group 4 ∷ plain a 6 ∷ plain b 6 ∷ signed i 12 ∷ plain o 4 ∷ []) result }
{
    let fields = A.write(a)? + B.write(b)? + I.write_signed(i)?;
    Ok(GROUP.write(group)? + fields + OPCODE.write(o)?)
}

// a6 b6 i11 j4 o1, in group 5.
fn fetch(a: u8, b: u8, i: i16, j: u8) -> Result<u32, NoWord>
    ensures { Coded (Fetch a b i j) result }
{
    if a.saturating_add(j) > LAST_FETCHED {
        return Err(NoWord);
    }
    let fields = A.write(a)? + B.write(b)? + SHORT_I.write_signed(i)? + J.write(j)?;
    Ok(GROUP.write(FETCH)? + fields + SHORT_OPCODE.write(FETCH_OPCODE)?)
}

// a6 b6 w5 z7 o4, in group 6, where b is not 0.
fn jump(a: u8, b: u8, w: u8, o: u8) -> Result<u32, NoWord>
    ensures { Written (plain 6 4 ∷ plain a 6 ∷ nonzero b 6 ∷ plain w 5 ∷ plain 0 7 ∷ plain o 4 ∷ []) result }
{
    if b == 0 {
        return Err(NoWord);
    }
    Ok(GROUP.write(JUMP)? + A.write(a)? + B.write(b)? + W.write(w)? + OPCODE.write(o)?)
}

// a6 b6 c6 d6 o4, in group 8.
fn system(a: u8, b: u8, c: u8, d: u8, o: u8) -> Result<u32, NoWord>
    ensures { Written (plain 8 4 ∷ plain a 6 ∷ plain b 6 ∷ plain c 6 ∷ plain d 6 ∷ plain o 4 ∷ []) result }
{
    let fields = A.write(a)? + B.write(b)? + C.write(c)? + D.write(d)?;
    Ok(GROUP.write(SYSTEM)? + fields + OPCODE.write(o)?)
}

// The word that holds an operation, refused where its fields fit no word.
pub fn code(op: Operation) -> Result<u32, NoWord>
    ensures { Coded op result }
{
    match op {
        Operation::Arith { op, form, a, b, c } => arithmetic(a, b, c, 0, form, op.into()),
        Operation::AddAddress { form, a, b, c } => arithmetic(a, b, c, 0, form, ADD_ADDRESS),
        Operation::Div { form, a, b, c, d } => arithmetic(a, b, c, d, form, DIV + u8::from(form)),
        Operation::Reduce { op, a, b } => pair(REDUCE, a, b, op.into()),
        Operation::Load { kind, a, b, i } => transfer(LOAD, a, b, i, kind.into()),
        Operation::Store { kind, a, b, i } => transfer(STORE, a, b, i, kind.into()),
        Operation::Dup { kind, a, b } => pair(DUP, a, b, kind.into()),
        Operation::Fetch { a, b, i, j } => fetch(a, b, i, j),
        Operation::JumpNotZero { a, b, w } => jump(a, b, w, JUMP_NOT_ZERO),
        Operation::JumpZero { a, b, w } => jump(a, b, w, JUMP_ZERO),
        Operation::Hand { b, w } => jump(0, b, w, HAND),
        Operation::CopyOut { from, a } => system(a, 0, 0, 0, 2 * u8::from(from)),
        Operation::CopyIn { to, a } => system(a, 0, 0, 0, 2 * u8::from(to) + 1),
        Operation::Swi { a, b, c, d } => system(a, b, c, d, SWI),
        Operation::Reti => system(0, 0, 0, 0, RETI),
        Operation::Retx => system(0, 0, 0, 0, RETX),
    }
}
