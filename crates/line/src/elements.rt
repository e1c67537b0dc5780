// Reading and writing an element. A line is bytes, and its elements no values of their own, so loops go
// over the numbers of elements, by `for`: `fold` speaks of closures that act as a function at every
// number, and past the last element nothing is known of these; and the pieces of `chunks_exact` are
// slices, out of which a lane has to be read as it is out of the line.
ghost use Rattle.std.specs.Prelude.{◌≡◌, ◌+◌, ◌*◌, ◌<◌, ◌≤◌, true, pos, ◌==◌};
ghost use Rattle.word.specs.Types.{width};
ghost use Rattle.line.specs.Elements.{number, bytes, splice, zero_line};
ghost use Rattle.line.specs.Elements.{count as lanes, element as elementOf, put as replaced, Recast};
ghost use Rattle.line.specs.Places.{element_number};
ghost use Rattle.scalar.specs.Casts.{cast};

use crate::kinds::by_kind;
use crate::places::Place;
use scalar::lanes::{lane, value};
use word::ElementType;

// The zero line.
pub fn zeros() -> [u8; 128]
    ensures { result ≡ zero_line }
{
    [0; 128]
}

// How many elements of a type a line has.
pub(crate) fn count(kind: ElementType) -> usize
    ensures { result ≡ lanes kind }
{
    128 / kind.width()
}

// The number of the bytes from a place on, as many as the type has.
fn load(kind: ElementType, line: &[u8; 128], p: usize) -> u64
    requires { p + width kind ≤ 128 }
    ensures { result ≡ number (width kind) line.now p }
{
    let w = kind.width();
    let mut bytes = [0; 8];
    bytes[..w].copy_from_slice(&line[p..p + w]);
    u64::from_le_bytes(bytes)
}

// Writes the lowest bytes of v from a place on, as many as the type has.
fn store(kind: ElementType, line: &mut [u8; 128], p: usize, v: u64)
    requires { p + width kind ≤ 128 }
    ensures { line.new ≡ splice line.old p (bytes (width kind) v) }
{
    let w = kind.width();
    let bytes = v.to_le_bytes();
    line[p..p + w].copy_from_slice(&bytes[..w]);
}

// The lane of element k.
#[tactic(auto, using(crate::proofs::Rows::within), unfolding(crate::specs::Elements::element))]
pub(crate) fn lane_at(kind: ElementType, line: &[u8; 128], k: usize) -> u64
    requires { k < lanes kind }
    ensures { cast kind (pos result) ≡ elementOf kind line.now k }
{
    load(kind, line, k * kind.width())
}

// Writes the lane of element k.
#[tactic(auto, using(crate::proofs::Rows::within))]
pub(crate) fn set_lane(kind: ElementType, line: &mut [u8; 128], k: usize, v: u64)
    requires { k < lanes kind }
    ensures { line.new ≡ splice line.old (k * width kind) (bytes (width kind) v) }
{
    store(kind, line, k * kind.width(), v)
}

// The number of the element at a place.
fn number_at(kind: ElementType, place: Place) -> usize
    ensures { (result ≡ element_number kind place) × (result < lanes kind) }
{
    place.offset() / kind.width()
}

// The element at a place, of a type that is known when built.
#[inline(always)]
fn get_as(kind: ElementType, line: &[u8; 128], place: Place) -> i128
    ensures { result ≡ elementOf kind line.now (element_number kind place) }
{
    value(kind, lane_at(kind, line, number_at(kind, place)))
}

// The element at a place.
pub fn get(line: &[u8; 128], kind: ElementType, place: Place) -> i128
    ensures { result ≡ elementOf kind line.now (element_number kind place) }
{
    by_kind!(kind, get_as; line, place)
}

// Writes z, cast, to the element at a place, of a type that is known when built.
#[tactic(auto, using(crate::proofs::Readback::written))]
#[inline(always)]
fn put_as(kind: ElementType, line: &mut [u8; 128], place: Place, z: i128)
    ensures written { line.new ≡ replaced (width kind) line.old (element_number kind place) z }
    ensures read { elementOf kind line.new (element_number kind place) ≡ cast kind z }
{
    set_lane(kind, line, number_at(kind, place), lane(kind, z))
}

// Writes z, cast, to the element at a place, which is then read so.
pub fn put(line: &mut [u8; 128], kind: ElementType, place: Place, z: i128)
    ensures written { line.new ≡ replaced (width kind) line.old (element_number kind place) z }
    ensures read { elementOf kind line.new (element_number kind place) ≡ cast kind z }
{
    by_kind!(kind, put_as; line, place, z)
}

// Whether two types have one width. Their elements then have the same bytes: those of one, cast to
// the other, are the other's.
#[tactic(auto, using(crate::proofs::Readback::recast))]
pub fn same_width(a: ElementType, b: ElementType) -> bool
    ensures test { result ≡ (width a == width b) }
    ensures recast { result ≡ true → Recast a b }
{
    a.width() == b.width()
}
