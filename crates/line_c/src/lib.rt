// Functions on lines that C and Rust can call, so that a benchmark can run them beside others. Types
// of elements go by their numbers, and each operation has a function, since C has no generic ones. It
// uses `line` for the work.
#![tactic(auto)]

ghost use Rattle.line.specs.Dividing.{any_zero, quotient_line, remainder_line};
ghost use Rattle.line.specs.Reductions.{reduced};
ghost use Rattle.line.specs.Vectors.{vector as vectorOf};
ghost use Rattle.line_c.specs.Entries.{Leaves};
ghost use Rattle.scalar.specs.Casts.{residue};
ghost use Rattle.word.specs.declared.opcodes.Arith.TheVariants.{Add as AddOf, Mul as MulOf, Shl as ShlOf};
ghost use Rattle.word.specs.declared.opcodes.Reduction.TheVariants.{Add as Sum};
ghost use Rattle.std.specs.Prelude.{◌≡◌, if◌then◌else◌};

use line::{apply, divide_lines, has_zero, reduce};
use scalar::lanes::lane;
use scalar::operations::*;
use word::{ElementType, Reduction};

// out becomes x + y at every element.
#[unsafe(no_mangle)]
pub extern "C" fn line_add(kind: u8, x: &[u8; 128], y: &[u8; 128], out: &mut [u8; 128])
    ensures { Leaves kind (λ t. vectorOf AddOf t x.now y.now) out.old out.new }
{
    if let Ok(t) = ElementType::try_from(kind) {
        apply::<Add>(t, x, y, out);
    }
}

// out becomes x * y at every element.
#[unsafe(no_mangle)]
pub extern "C" fn line_mul(kind: u8, x: &[u8; 128], y: &[u8; 128], out: &mut [u8; 128])
    ensures { Leaves kind (λ t. vectorOf MulOf t x.now y.now) out.old out.new }
{
    if let Ok(t) = ElementType::try_from(kind) {
        apply::<Mul>(t, x, y, out);
    }
}

// out becomes x shifted left by y at every element.
#[unsafe(no_mangle)]
pub extern "C" fn line_shl(kind: u8, x: &[u8; 128], y: &[u8; 128], out: &mut [u8; 128])
    ensures { Leaves kind (λ t. vectorOf ShlOf t x.now y.now) out.old out.new }
{
    if let Ok(t) = ElementType::try_from(kind) {
        apply::<Shl>(t, x, y, out);
    }
}

// out becomes x / y and rest the remainder at every element, unless an element of y is zero.
#[unsafe(no_mangle)]
pub extern "C" fn line_div(
    kind: u8,
    x: &[u8; 128],
    y: &[u8; 128],
    out: &mut [u8; 128],
    rest: &mut [u8; 128],
)
    ensures quotients { Leaves kind (λ t. if any_zero t y.now then out.old else quotient_line t x.now y.now) out.old out.new }
    ensures remainders { Leaves kind (λ t. if any_zero t y.now then rest.old else remainder_line t x.now y.now) rest.old rest.new }
{
    if let Ok(t) = ElementType::try_from(kind) {
        if !has_zero(t, y) {
            divide_lines(t, x, y, out, rest);
        }
    }
}

// The sum of the elements of x in 64 bits, or 0 for a number that no type has.
#[unsafe(no_mangle)]
pub extern "C" fn line_sum(kind: u8, x: &[u8; 128]) -> u64
    ensures { Leaves kind (λ t. residue 64 (reduced Sum t t x.now)) 0 result }
{
    match ElementType::try_from(kind) {
        Ok(t) => lane(ElementType::U64, reduce(Reduction::Add, t, t, x)),
        Err(_) => 0,
    }
}
