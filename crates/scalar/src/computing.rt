// The operations of two operands on numbers.
ghost use Rattle.scalar.specs.Arithmetic.{applied, computed};
ghost use Rattle.scalar.specs.Casts.{cast};
ghost use Rattle.std.specs.Prelude.{◌≡◌, pos};

use crate::lanes::{low_bits, value};
use crate::operations::*;
use word::{Arith, ElementType};

// The lane of one operation on numbers of any types, which are cast to the type: their lowest 64 bits are
// lanes that stand for them.
#[tactic(auto, using(crate::proofs::Casts::lanes_of_numbers))]
fn apply<O: Operation>(kind: ElementType, x: i128, y: i128) -> u64
    ensures { cast kind (pos result) ≡ applied O.make kind x y }
{
    O::apply(kind, low_bits(x), low_bits(y))
}

// The lane of what an operation of two operands gives at a type. (The
// operation is picked here once, by a match, so that no value that stands for it is called below.)
pub fn compute_lane(op: Arith, kind: ElementType, x: i128, y: i128) -> u64
    ensures { cast kind (pos result) ≡ computed op kind x y }
{
    match op {
        Arith::Add => apply::<Add>(kind, x, y),
        Arith::Sub => apply::<Sub>(kind, x, y),
        Arith::Slt => apply::<Slt>(kind, x, y),
        Arith::Mul => apply::<Mul>(kind, x, y),
        Arith::And => apply::<And>(kind, x, y),
        Arith::Or => apply::<Or>(kind, x, y),
        Arith::Xor => apply::<Xor>(kind, x, y),
        Arith::Shl => apply::<Shl>(kind, x, y),
        Arith::Shr => apply::<Shr>(kind, x, y),
        Arith::Rol => apply::<Rol>(kind, x, y),
        Arith::Ror => apply::<Ror>(kind, x, y),
    }
}

// What an operation of two operands gives at a type.
pub fn compute(op: Arith, kind: ElementType, x: i128, y: i128) -> i128
    ensures { result ≡ computed op kind x y }
{
    value(kind, compute_lane(op, kind, x, y))
}
