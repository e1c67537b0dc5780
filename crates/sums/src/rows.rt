// The rows of the table.
use scalar::Division;
use word::Operation;

#[derive(Clone, Copy)]
pub struct Sums {
    // what the word 0x21400C83 decodes to
    pub load: Option<Operation>,
    // what the word 0x00000020 decodes to: an add with a one in its unused field d
    pub unused_field: Option<Operation>,
    // 200 cast to s8
    pub cast: i128,
    // s8 -7 over 2
    pub division: Option<Division>,
    // s8 -1 shr 9
    pub shift: i128,
    // u8 0x81 rol 9
    pub rotation: i128,
    // add.r into u8 of a line of 64 u16 fives
    pub sum: i128,
}
