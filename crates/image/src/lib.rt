// The image loader: reads an image of records and writes its places into any store, or says which
// record is at fault and why and leaves the store as it was. It uses the stores.
#![tactic(auto)]

mod fault;
mod lent;
mod loading;
mod place;
mod places;
mod putting;
mod record;
mod records;

pub use fault::{Cause, Fault, ImageRefusal};
pub use lent::load_bytes;
pub use loading::load;
