// A test program: every operation at every type on a table of edge values, scalar and vector,
// division, and every reduction. What it prints is held to what the separate program
// examples/edge_values.py works out from the rules alone. It uses `scalar` and `line` for the answers.
#![tactic(auto)]

use line::{Place, divide_lines, fill, get, has_zero, put, reduce, vector, vector_addr, zeros};
use scalar::{cast, compute, divide};
use std::io;
use word::{Arith, ElementType, Reduction};

const KINDS: [ElementType; 8] = [
    ElementType::U8,
    ElementType::S8,
    ElementType::U16,
    ElementType::S16,
    ElementType::U32,
    ElementType::S32,
    ElementType::U64,
    ElementType::S64,
];

// Each operation under the name that its rows have. Addr, address add, is add with an address as x.
const OPERATIONS: [(&str, Arith); 12] = [
    ("Add", Arith::Add),
    ("Sub", Arith::Sub),
    ("Slt", Arith::Slt),
    ("Mul", Arith::Mul),
    ("And", Arith::And),
    ("Or", Arith::Or),
    ("Xor", Arith::Xor),
    ("Shl", Arith::Shl),
    ("Shr", Arith::Shr),
    ("Rol", Arith::Rol),
    ("Ror", Arith::Ror),
    ("Addr", Arith::Add),
];

const REDUCTIONS: [Reduction; 5] = [
    Reduction::Add,
    Reduction::Mul,
    Reduction::Max,
    Reduction::Min,
    Reduction::And,
];

// Numbers at the edges of the types and of the shift counts; most types cast some of them.
const EDGES: [i128; 14] = [
    0,
    1,
    -1,
    2,
    -7,
    9,
    31,
    200,
    -128,
    32768,
    65535,
    -2147483648,
    9223372036854775807,
    18446744073709551615,
];

// What f makes of each edge value.
fn print_row<F: Fn(i128) -> i128>(rt: &HostRuntime, f: F) -> io::Result<()>
    requires { F.IsAlwaysCallable f }
{
    for x in EDGES {
        let z = f(x);
        print!(rt; " {z}")?;
    }
    println!(rt; "")
}

// Not by `print_row`: over zero there is no number to print.
fn print_divisions(rt: &HostRuntime, kind: ElementType, x: i128) -> io::Result<()> {
    print!(rt; "Div {kind:?} {x}:")?;
    for y in EDGES {
        match divide(kind, x, y) {
            Some(made) => print!(rt; " {}r{}", made.quotient, made.remainder)?,
            None => print!(rt; " zero")?,
        }
    }
    println!(rt; "")
}

fn print_scalars(rt: &HostRuntime, kind: ElementType) -> io::Result<()> {
    print!(rt; "Cast {kind:?}:")?;
    print_row(rt, |x| cast(kind, x))?;
    for (name, op) in OPERATIONS {
        for x in EDGES {
            print!(rt; "{name} {kind:?} {x}:")?;
            print_row(rt, |y| compute(op, kind, x, y))?;
        }
    }
    for x in EDGES {
        print_divisions(rt, kind, x)?;
    }
    Ok(())
}

// Writes an edge value to the element at each byte's place, `stride` further in the table each time.
fn set_edges(line: &mut [u8; 128], kind: ElementType, first: usize, stride: usize) {
    for address in 0..128u32 {
        let at = first.wrapping_add(stride.wrapping_mul(address as usize));
        put(line, kind, Place::from(address), EDGES[at % EDGES.len()]);
    }
}

fn print_line(rt: &HostRuntime, line: &[u8; 128]) -> io::Result<()> {
    for byte in line {
        print!(rt; "{byte:02x}")?;
    }
    println!(rt; "")
}

fn print_vectors(rt: &HostRuntime, kind: ElementType) -> io::Result<()> {
    let (mut x, mut y, mut out) = (zeros(), zeros(), zeros());
    set_edges(&mut x, kind, 0, 3);
    set_edges(&mut y, kind, 5, 11);
    for (name, op) in OPERATIONS {
        vector(op, kind, &x, &y, &mut out);
        print!(rt; "{name}.v {kind:?} ")?;
        print_line(rt, &out)?;
    }
    vector_addr(kind, 4294967295, &y, &mut out);
    print!(rt; "Addr.v {kind:?} ")?;
    print_line(rt, &out)
}

fn print_line_division(rt: &HostRuntime, kind: ElementType) -> io::Result<()> {
    let (mut x, mut y) = (zeros(), zeros());
    let (mut quotients, mut remainders) = (zeros(), zeros());
    set_edges(&mut x, kind, 0, 3);
    fill(kind, -7, &mut y);
    let none = has_zero(kind, &y);
    divide_lines(kind, &x, &y, &mut quotients, &mut remainders);
    print!(rt; "Div.v {kind:?} {none} ")?;
    print_line(rt, &quotients)?;
    print!(rt; "Rem.v {kind:?} ")?;
    print_line(rt, &remainders)?;
    put(&mut y, kind, Place::from(127), 0);
    let some = has_zero(kind, &y);
    let last = get(&y, kind, Place::from(126));
    println!(rt; "Zero.v {kind:?} {some} {last}")
}

fn print_reductions(rt: &HostRuntime, from: ElementType) -> io::Result<()> {
    let mut line = zeros();
    set_edges(&mut line, from, 2, 5);
    for op in REDUCTIONS {
        print!(rt; "{op:?}.r {from:?}:")?;
        for to in KINDS {
            let z = reduce(op, to, from, &line);
            print!(rt; " {z}")?;
        }
        println!(rt; "")?;
    }
    Ok(())
}

fn main(rt: HostRuntime) -> io::Result<()> {
    for kind in KINDS {
        print_scalars(&rt, kind)?;
        print_vectors(&rt, kind)?;
        print_line_division(&rt, kind)?;
        print_reductions(&rt, kind)?;
    }
    Ok(())
}
