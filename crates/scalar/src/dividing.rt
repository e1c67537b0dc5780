// Division with its remainder.
#![tactic(auto, using(crate::proofs::Machine::lane_bits))]

ghost use Rattle.std.specs.Prelude.{◌≡◌, ◌/◌, ◌%◌, pos, unsigned_abs};
ghost use Rattle.word.specs.Types.{bits};
ghost use Rattle.scalar.specs.Arithmetic.{negative, with_sign, cut_quotient, cut_remainder, casts_to_zero, divided};
ghost use Rattle.scalar.specs.Casts.{residue, cast};

use crate::lanes::{extend, lane, low, value};
use word::ElementType;

// What a division gives, of numbers or of lanes.
#[derive(Clone, Copy, PartialEq, Eq, Debug)]
pub struct Division<T = i128> {
    pub quotient: T,
    pub remainder: T,
}

// The size of the number that a lane stands for.
fn size(kind: ElementType, x: u64) -> u64
    ensures { result ≡ unsigned_abs (cast kind (pos x)) }
{
    if kind.is_signed() {
        extend(kind, x).unsigned_abs()
    } else {
        low(kind, x)
    }
}

// Whether a lane stands for a number below zero.
fn is_negative(kind: ElementType, x: u64) -> bool
    ensures { result ≡ negative (cast kind (pos x)) }
{
    kind.is_signed() && extend(kind, x) < 0
}

// The lane of a number of this size, with its sign.
fn signed_lane(kind: ElementType, is_negative: bool, size: u64) -> u64
    ensures { result ≡ residue (bits kind) (with_sign is_negative size) }
{
    if is_negative {
        low(kind, size.wrapping_neg())
    } else {
        low(kind, size)
    }
}

// The quotient and the remainder of sizes. Over zero they are zero and x. (A remainder by `%` is slower
// in a loop over narrow elements.)
fn divide_sizes(x: u64, y: u64) -> Division<u64>
    ensures quotient { result.quotient ≡ x / y }
    ensures remainder { result.remainder ≡ x % y }
{
    if y == 0 {
        return Division {
            quotient: 0,
            remainder: x,
        };
    }
    let quotient = x / y;
    Division {
        quotient,
        remainder: x - quotient * y,
    }
}

// The quotient and the remainder of lanes. Over zero they are zero and x.
pub fn divide_lanes(kind: ElementType, x: u64, y: u64) -> Division<u64>
    ensures quotient { result.quotient ≡ residue (bits kind) (cut_quotient (cast kind (pos x)) (cast kind (pos y))) }
    ensures remainder { result.remainder ≡ residue (bits kind) (cut_remainder (cast kind (pos x)) (cast kind (pos y))) }
{
    let sizes = divide_sizes(size(kind, x), size(kind, y));
    let (x, y) = (is_negative(kind, x), is_negative(kind, y));
    Division {
        quotient: signed_lane(kind, x != y, sizes.quotient),
        remainder: signed_lane(kind, x, sizes.remainder),
    }
}

// Whether a lane stands for zero.
pub fn is_zero_lane(kind: ElementType, y: u64) -> bool
    ensures { result ≡ casts_to_zero kind (pos y) }
{
    size(kind, y) == 0
}

// Whether a number is zero after its cast, so that it cannot be divided by.
pub fn is_zero(kind: ElementType, y: i128) -> bool
    ensures { result ≡ casts_to_zero kind y }
{
    is_zero_lane(kind, lane(kind, y))
}

// The quotient and the remainder of x over y, or None where y is zero after its cast.
#[tactic(auto, using(crate::proofs::Casts::passed_on))]
pub fn divide(kind: ElementType, x: i128, y: i128) -> Option<Division>
    ensures { result ≡ divided kind x y }
{
    if is_zero(kind, y) {
        return None;
    }
    let lanes = divide_lanes(kind, lane(kind, x), lane(kind, y));
    Some(Division {
        quotient: value(kind, lanes.quotient),
        remainder: value(kind, lanes.remainder),
    })
}
