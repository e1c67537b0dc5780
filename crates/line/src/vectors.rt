// Operations on every element of a line. The result is made in a line of its own and then written, so
// every operand is read before anything is written. (Loops count elements, as `elements` says.)
#![tactic(auto, using(crate::proofs::Rows::rows))]

ghost use Rattle.std.specs.Prelude.{◌≡◌};
ghost use Rattle.line.specs.Elements.{element as elementOf};
ghost use Rattle.line.specs.Vectors.{line_of, filled};
ghost use Rattle.line.specs.Vectors.{vector as vectorOf, vector_addr};
ghost use Rattle.scalar.specs.Arithmetic.{applied};

use crate::elements::{count, lane_at, set_lane, zeros};
use crate::kinds::by_kind;
use scalar::lanes::lane;
use scalar::operations::*;
use word::{Arith, ElementType};

#[inline(always)]
fn apply_as<O: Operation>(kind: ElementType, x: &[u8; 128], y: &[u8; 128], out: &mut [u8; 128])
    ensures { out.new ≡ line_of kind (λ k. applied O.make kind (elementOf kind x.now k) (elementOf kind y.now k)) }
{
    let mut made = zeros();
    for k in 0..count(kind) {
        let v = O::apply(kind, lane_at(kind, x, k), lane_at(kind, y, k));
        set_lane(kind, &mut made, k, v);
    }
    *out = made;
}

// One operation on every pair of elements of two lines.
pub fn apply<O: Operation>(kind: ElementType, x: &[u8; 128], y: &[u8; 128], out: &mut [u8; 128])
    ensures { out.new ≡ line_of kind (λ k. applied O.make kind (elementOf kind x.now k) (elementOf kind y.now k)) }
{
    by_kind!(kind, apply_as::<O>; x, y, out)
}

// The vector form of an operation of two operands.
// (It matches as `scalar::compute` does: one function for both would take a trait with a generic
// method, and a struct of operands for each.)
pub fn vector(op: Arith, kind: ElementType, x: &[u8; 128], y: &[u8; 128], out: &mut [u8; 128])
    ensures { out.new ≡ vectorOf op kind x.now y.now }
{
    match op {
        Arith::Add => apply::<Add>(kind, x, y, out),
        Arith::Sub => apply::<Sub>(kind, x, y, out),
        Arith::Slt => apply::<Slt>(kind, x, y, out),
        Arith::Mul => apply::<Mul>(kind, x, y, out),
        Arith::And => apply::<And>(kind, x, y, out),
        Arith::Or => apply::<Or>(kind, x, y, out),
        Arith::Xor => apply::<Xor>(kind, x, y, out),
        Arith::Shl => apply::<Shl>(kind, x, y, out),
        Arith::Shr => apply::<Shr>(kind, x, y, out),
        Arith::Rol => apply::<Rol>(kind, x, y, out),
        Arith::Ror => apply::<Ror>(kind, x, y, out),
    }
}

#[inline(always)]
fn fill_as(kind: ElementType, z: i128, out: &mut [u8; 128])
    ensures { out.new ≡ filled kind z }
{
    let v = lane(kind, z);
    for k in 0..count(kind) {
        set_lane(kind, out, k, v);
    }
}

// Writes z, cast, to every element of a line.
pub fn fill(kind: ElementType, z: i128, out: &mut [u8; 128])
    ensures { out.new ≡ filled kind z }
{
    by_kind!(kind, fill_as; z, out)
}

// A loop of its own: for that of `apply_as`, a line would be filled with the address and read again, and
// no line is copied where a value does.
#[inline(always)]
fn add_address_as(kind: ElementType, address: u32, y: &[u8; 128], out: &mut [u8; 128])
    ensures { out.new ≡ vector_addr kind address y.now }
{
    let mut made = zeros();
    for k in 0..count(kind) {
        let v = Add::apply(kind, u64::from(address), lane_at(kind, y, k));
        set_lane(kind, &mut made, k, v);
    }
    *out = made;
}

// The vector form of address add: the address, cast, added to every element.
pub fn vector_addr(kind: ElementType, address: u32, y: &[u8; 128], out: &mut [u8; 128])
    ensures { out.new ≡ vector_addr kind address y.now }
{
    by_kind!(kind, add_address_as; address, y, out)
}
