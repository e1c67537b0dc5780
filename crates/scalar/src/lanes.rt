// Lanes: the bits of one element in a u64. A lane stands for a number by the element's type. Only
// its lowest bits count, as many as the type has, so every u64 is a lane of every type. What is
// made of lanes has no other bits set. (The type stands beside its lanes, since an operation has one
// type and two lanes.)
#![tactic(auto, using(crate::proofs::Machine::lane_bits))]

ghost use Rattle.std.specs.Prelude.{◌≡◌, ◌%◌, ◌^◌, ◌≤◌, true, false, pos, int_lt};
ghost use Rattle.word.specs.Types.{bits, signed};
ghost use Rattle.scalar.specs.Arithmetic.{shift_left, shift_right};
ghost use Rattle.scalar.specs.Arithmetic.{rotate as rotated};
ghost use Rattle.scalar.specs.Casts.{residue, cast};

use word::ElementType;

// The bits that count.
pub fn low(kind: ElementType, x: u64) -> u64
    ensures bits { result ≡ x % 2 ^ bits kind }
    ensures residue { result ≡ residue (bits kind) (cast kind (pos x)) }
    ensures unsigned { signed kind ≡ false → pos result ≡ cast kind (pos x) }
{
    x & (u64::MAX >> (64 - kind.bits()))
}

// The bits that count, read in two's complement.
pub(crate) fn extend(kind: ElementType, x: u64) -> i64
    ensures { signed kind ≡ true → result ≡ cast kind (pos x) }
{
    let above = 64 - kind.bits();
    (x << above).cast_signed() >> above
}

// The number that a lane stands for.
pub fn value(kind: ElementType, x: u64) -> i128
    ensures { result ≡ cast kind (pos x) }
{
    if kind.is_signed() {
        i128::from(extend(kind, x))
    } else {
        i128::from(low(kind, x))
    }
}

// The lowest 64 bits of z.
pub(crate) fn low_bits(z: i128) -> u64
    ensures { result ≡ residue 64 z }
{
    (z.cast_unsigned() & 0xffff_ffff_ffff_ffff) as u64
}

// The lane that stands for z, cast.
#[tactic(auto, using(crate::proofs::Casts::from_wide))]
pub fn lane(kind: ElementType, z: i128) -> u64
    ensures residue { result ≡ residue (bits kind) z }
    ensures casts { cast kind (pos result) ≡ cast kind z }
{
    low(kind, low_bits(z))
}

// The lane of another type that stands for the number of a lane, cast.
pub fn convert(from: ElementType, to: ElementType, x: u64) -> u64
    ensures { cast to (pos result) ≡ cast to (cast from (pos x)) }
{
    lane(to, value(from, x))
}

// The number of the type that has the lowest bits of z.
pub fn cast(kind: ElementType, z: i128) -> i128
    ensures { result ≡ cast kind z }
{
    value(kind, lane(kind, z))
}

// Whether one lane stands for a lower number than another.
pub(crate) fn is_less(kind: ElementType, x: u64, y: u64) -> bool
    ensures { result ≡ int_lt (cast kind (pos x)) (cast kind (pos y)) }
{
    if kind.is_signed() {
        extend(kind, x) < extend(kind, y)
    } else {
        low(kind, x) < low(kind, y)
    }
}

pub(crate) fn shift_left(kind: ElementType, x: u64, count: u64) -> u64
    ensures { result ≡ residue (bits kind) (shift_left (bits kind) (cast kind (pos x)) count) }
{
    let bits = u64::from(kind.bits());
    // shifted before the test, so that a loop over lanes has no branch
    let shifted = low(kind, x << (count % bits));
    if count < bits { shifted } else { 0 }
}

pub(crate) fn shift_right(kind: ElementType, x: u64, count: u64) -> u64
    ensures { result ≡ residue (bits kind) (shift_right (bits kind) (cast kind (pos x)) count) }
{
    let bits = u64::from(kind.bits());
    if kind.is_signed() {
        low(
            kind,
            (extend(kind, x) >> count.min(bits - 1)).cast_unsigned(),
        )
    } else if count < bits {
        low(kind, x) >> count
    } else {
        0
    }
}

// Rotates left.
pub(crate) fn rotate(kind: ElementType, x: u64, count: u64) -> u64
    requires { count ≤ bits kind }
    ensures { result ≡ residue (bits kind) (pos (rotated (bits kind) (residue (bits kind) (cast kind (pos x))) count)) }
{
    let bits = u64::from(kind.bits());
    let x = low(kind, x);
    if count < bits {
        low(
            kind,
            (x << count).wrapping_add((x >> 1) >> (bits - 1 - count)),
        )
    } else {
        x
    }
}
