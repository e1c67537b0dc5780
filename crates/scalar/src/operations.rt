// The operations of two operands on lanes. Each is a type, so that a loop over many lanes is
// compiled for one operation.
#![tactic(auto, using(crate::proofs::Machine::lane_operations))]

ghost use Rattle.std.specs.Prelude.{◌≡◌, ℕ, ℤ, pos};
ghost use Rattle.word.specs.Types.{bits};
ghost use Rattle.scalar.specs.Arithmetic.{compute};
ghost use Rattle.scalar.specs.Casts.{residue, cast};
ghost use Rattle.std.specs.Int.{int_max, int_min};
ghost use Rattle.word.specs.declared.opcodes.Arith.TheVariants.{Add as AddOf, Sub as SubOf, Slt as SltOf, Mul as MulOf, And as AndOf, Or as OrOf, Xor as XorOf, Shl as ShlOf, Shr as ShrOf, Rol as RolOf, Ror as RorOf};

use crate::lanes::{is_less, low, rotate, shift_left, shift_right};
use word::ElementType;

pub trait Operation {
    // what is made of two numbers of so many bits
    ghost make: { ℕ → ℤ → ℤ → ℤ };

    // The lane of what is made of the numbers that x and y stand for.
    fn apply(kind: ElementType, x: u64, y: u64) -> u64
        ensures { result ≡ residue (bits kind) (make (bits kind) (cast kind (pos x)) (cast kind (pos y))) };
}

pub struct Add;

impl Operation for Add {
    ghost make = { compute AddOf };

    fn apply(kind: ElementType, x: u64, y: u64) -> u64 {
        low(kind, x.wrapping_add(y))
    }
}

pub struct Sub;

impl Operation for Sub {
    ghost make = { compute SubOf };

    fn apply(kind: ElementType, x: u64, y: u64) -> u64 {
        low(kind, x.wrapping_sub(y))
    }
}

pub struct Slt;

impl Operation for Slt {
    ghost make = { compute SltOf };

    fn apply(kind: ElementType, x: u64, y: u64) -> u64 {
        u64::from(is_less(kind, x, y))
    }
}

pub struct Mul;

impl Operation for Mul {
    ghost make = { compute MulOf };

    fn apply(kind: ElementType, x: u64, y: u64) -> u64 {
        low(kind, x.wrapping_mul(y))
    }
}

pub struct And;

impl Operation for And {
    ghost make = { compute AndOf };

    fn apply(kind: ElementType, x: u64, y: u64) -> u64 {
        low(kind, x & y)
    }
}

pub struct Or;

impl Operation for Or {
    ghost make = { compute OrOf };

    fn apply(kind: ElementType, x: u64, y: u64) -> u64 {
        low(kind, x | y)
    }
}

pub struct Xor;

impl Operation for Xor {
    ghost make = { compute XorOf };

    fn apply(kind: ElementType, x: u64, y: u64) -> u64 {
        low(kind, x ^ y)
    }
}

pub struct Shl;

impl Operation for Shl {
    ghost make = { compute ShlOf };

    fn apply(kind: ElementType, x: u64, y: u64) -> u64 {
        shift_left(kind, x, low(kind, y))
    }
}

pub struct Shr;

impl Operation for Shr {
    ghost make = { compute ShrOf };

    fn apply(kind: ElementType, x: u64, y: u64) -> u64 {
        shift_right(kind, x, low(kind, y))
    }
}

pub struct Rol;

impl Operation for Rol {
    ghost make = { compute RolOf };

    fn apply(kind: ElementType, x: u64, y: u64) -> u64 {
        rotate(kind, x, low(kind, y) % u64::from(kind.bits()))
    }
}

pub struct Ror;

impl Operation for Ror {
    ghost make = { compute RorOf };

    fn apply(kind: ElementType, x: u64, y: u64) -> u64 {
        let bits = u64::from(kind.bits());
        rotate(kind, x, bits - low(kind, y) % bits)
    }
}

pub struct Max;

impl Operation for Max {
    ghost make = { λ n. int_max };

    fn apply(kind: ElementType, x: u64, y: u64) -> u64 {
        if is_less(kind, y, x) {
            low(kind, x)
        } else {
            low(kind, y)
        }
    }
}

pub struct Min;

impl Operation for Min {
    ghost make = { λ n. int_min };

    fn apply(kind: ElementType, x: u64, y: u64) -> u64 {
        if is_less(kind, y, x) {
            low(kind, y)
        } else {
            low(kind, x)
        }
    }
}
