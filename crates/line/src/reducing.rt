// The reductions: every element of a line joined into one number. (Loops count elements, as `elements`
// says.)
ghost use Rattle.std.specs.Prelude.{◌≡◌, pos};
ghost use Rattle.line.specs.Elements.{count as lanes, element as elementOf};
ghost use Rattle.line.specs.Reductions.{gathered, reduced};
ghost use Rattle.scalar.specs.Casts.{cast};

use crate::elements::{count, lane_at};
use crate::kinds::by_kind;
use scalar::lanes::{convert, value};
use scalar::operations::*;
use word::{ElementType, Reduction};

#[tactic(auto, using(crate::proofs::Joins::places))]
#[inline(always)]
fn join_as<O: Operation>(from: ElementType, to: ElementType, first: u64, line: &[u8; 128]) -> u64
    ensures { cast to (pos result) ≡ gathered O.make to (elementOf from line.now) (cast to (pos first)) (lanes from) }
{
    let mut all = first;
    for k in 0..count(from) {
        all = O::apply(to, all, convert(from, to, lane_at(from, line, k)));
    }
    all
}

#[inline(always)]
fn join_to<O: Operation>(to: ElementType, from: ElementType, first: u64, line: &[u8; 128]) -> i128
    ensures { result ≡ gathered O.make to (elementOf from line.now) (cast to (pos first)) (lanes from) }
{
    value(to, by_kind!(from, join_as::<O>; to, first, line))
}

// Joins every element of a line by one operation, beginning with a lane.
#[inline(always)]
fn join<O: Operation>(to: ElementType, from: ElementType, first: u64, line: &[u8; 128]) -> i128
    ensures { result ≡ gathered O.make to (elementOf from line.now) (cast to (pos first)) (lanes from) }
{
    by_kind!(to, join_to::<O>; from, first, line)
}

// The lane of the first element of a line, of a type that is known when built.
#[inline(always)]
fn first_as(from: ElementType, to: ElementType, line: &[u8; 128]) -> u64
    ensures { cast to (pos result) ≡ cast to (elementOf from line.now 0) }
{
    convert(from, to, lane_at(from, line, 0))
}

// The lane of the first element of a line.
fn first_lane(to: ElementType, from: ElementType, line: &[u8; 128]) -> u64
    ensures { cast to (pos result) ≡ cast to (elementOf from line.now 0) }
{
    by_kind!(from, first_as; to, line)
}

// What a reduction makes of the elements of a line of type `from`, each cast to the type `to`. (It is
// picked here once, as operations are in `vector`.)
#[tactic(auto, using(crate::proofs::Gathering::gathering))]
pub fn reduce(op: Reduction, to: ElementType, from: ElementType, line: &[u8; 128]) -> i128
    ensures { result ≡ reduced op to from line.now }
{
    match op {
        Reduction::Add => join::<Add>(to, from, 0, line),
        Reduction::Mul => join::<Mul>(to, from, 1, line),
        Reduction::Max => join::<Max>(to, from, first_lane(to, from, line), line),
        Reduction::Min => join::<Min>(to, from, first_lane(to, from, line), line),
        Reduction::And => join::<And>(to, from, u64::MAX, line),
    }
}
