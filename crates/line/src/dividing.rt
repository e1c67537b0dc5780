// Division of every element of a line. (Loops count elements, as `elements` says.)
ghost use Rattle.std.specs.Prelude.{◌≡◌};
ghost use Rattle.line.specs.Dividing.{any_zero, quotient_line, remainder_line};

use crate::elements::{count, lane_at, set_lane};
use crate::kinds::by_kind;
use scalar::dividing::{divide_lanes, is_zero_lane};
use word::ElementType;

// It goes over all elements, and not by `any`: a loop that may end early takes no vector instructions.
#[tactic(auto, using(crate::proofs::Joins::places))]
#[inline(always)]
fn has_zero_as(kind: ElementType, line: &[u8; 128]) -> bool
    ensures { result ≡ any_zero kind line.now }
{
    let mut found = false;
    for k in 0..count(kind) {
        found |= is_zero_lane(kind, lane_at(kind, line, k));
    }
    found
}

// Whether some element of a line is zero, so that the line cannot be divided by.
pub fn has_zero(kind: ElementType, line: &[u8; 128]) -> bool
    ensures { result ≡ any_zero kind line.now }
{
    by_kind!(kind, has_zero_as; line)
}

#[tactic(auto, using(crate::proofs::Rows::rows))]
#[inline(always)]
fn divide_as(
    kind: ElementType,
    x: &[u8; 128],
    y: &[u8; 128],
    quotients: &mut [u8; 128],
    remainders: &mut [u8; 128],
)
    ensures quotients { quotients.new ≡ quotient_line kind x.now y.now }
    ensures remainders { remainders.new ≡ remainder_line kind x.now y.now }
{
    for k in 0..count(kind) {
        let made = divide_lanes(kind, lane_at(kind, x, k), lane_at(kind, y, k));
        set_lane(kind, quotients, k, made.quotient);
        set_lane(kind, remainders, k, made.remainder);
    }
}

// Every element of x over that of y. An element over zero gives zero, remainder x; `has_zero` says
// whether there is one.
pub fn divide_lines(
    kind: ElementType,
    x: &[u8; 128],
    y: &[u8; 128],
    quotients: &mut [u8; 128],
    remainders: &mut [u8; 128],
)
    ensures quotients { quotients.new ≡ quotient_line kind x.now y.now }
    ensures remainders { remainders.new ≡ remainder_line kind x.now y.now }
{
    by_kind!(kind, divide_as; x, y, quotients, remainders)
}
