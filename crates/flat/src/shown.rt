// What show gives of a register. (Of everything else it gives `Control`.)
use crate::registers::DataRegister;

#[derive(Clone, Copy, PartialEq, Eq, Debug)]
pub struct ShownData {
    pub register: DataRegister,
    pub bytes: [u8; 128],
}

#[derive(Clone, Copy, PartialEq, Eq, Debug)]
pub struct ShownInstruction {
    pub address: u32,
    pub words: [u32; 32],
}
