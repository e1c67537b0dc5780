// The arithmetic of single numbers: casts to the types of elements, the operations of two operands,
// and division with its remainder. Numbers go in and out as i128, which holds every type, but that
// `compute_lane` answers a lane of the result, for a caller that only writes it. Below that lies `lanes`,
// arithmetic on the bits of one element, which the vector forms use too. It uses `word` for the types and
// the names of the operations.
#![tactic(auto)]

mod computing;
pub mod dividing;
pub mod lanes;
pub mod operations;

pub use computing::{compute, compute_lane};
pub use dividing::{Division, divide, is_zero};
pub use lanes::cast;
