// Lines of 128 bytes as rows of elements: reading and writing one element, the operations on every
// element of a line, and the reductions of a line to one number. A loop over a line is inlined for each
// type and each operation. Operands are a type and line records of the caller's; they stand as
// parameters, since a struct of them would be made for one call and taken apart in it. It uses `word`
// for the types and the names of the operations, and `scalar` for the arithmetic of one element.
#![tactic(auto)]

mod dividing;
mod elements;
mod kinds;
pub mod places;
mod reducing;
mod vectors;

pub use dividing::{divide_lines, has_zero};
pub use elements::{get, put, same_width, zeros};
pub use places::Place;
pub use reducing::reduce;
pub use vectors::{apply, fill, vector, vector_addr};
