// The table of worked sums: small questions to the crates below, each with the answer that the rules
// give, worked out by hand and proved. It uses the crates whose answers it holds.
#![tactic(auto, using(scalar::proofs::Casts::passed_on, word::proofs::Worked::worked_load, word::proofs::Worked::worked_add, crate::proofs::Machine::machine_rows), unfolding(scalar::specs::Casts::cast, scalar::specs::Casts::read_bits, scalar::specs::Casts::residue))]

ghost use Rattle.std.specs.Prelude.{◌≡◌};
ghost use Rattle.sums.specs.Table.{asked, table};

mod rows;

use line::{fill, reduce, zeros};
pub use rows::Sums;
use scalar::{cast, compute, divide};
use word::{Arith, ElementType, Reduction, decode};

// Asks every question of the table. (Those to the flat machine are asked of its definition.)
pub fn sums() -> Sums
    ensures { asked result ≡ table }
{
    Sums {
        load: decode(0x2140_0C83),
        unused_field: decode(0x0000_0020),
        cast: cast(ElementType::S8, 200),
        division: divide(ElementType::S8, -7, 2),
        shift: compute(Arith::Shr, ElementType::S8, -1, 9),
        rotation: compute(Arith::Rol, ElementType::U8, 0x81, 9),
        sum: sum(),
    }
}

// The elements of a line of fives at u16, added into u8.
fn sum() -> i128
    ensures { result ≡ table.sums.sum }
{
    let mut fives = zeros();
    fill(ElementType::U16, 5, &mut fives);
    reduce(Reduction::Add, ElementType::U8, ElementType::U16, &fives)
}
