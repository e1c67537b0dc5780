// The texts that programs share: numbers and bytes in hexadecimal digits, and the letter of a mode, each with its
// promised text. It prints nothing. It uses `flat` for modes.
#![tactic(auto)]

mod hex;
mod modes;

pub use hex::{Hex, HexByte};
pub use modes::mode_text;
