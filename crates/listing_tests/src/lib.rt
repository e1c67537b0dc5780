// The texts that a listing is made of: every operation and every name, and each cause by
// which a word is undefined. It uses `listing`.
#![tactic(auto)]

#[cfg(test)]
mod tests {
    use listing::Disassembly;
    use std::process::Abort;
    use std::test::Fail;

    // Checks that each word is shown so.
    fn check_texts(rt: &(impl Abort + AllocGlobal), rows: &[(u32, &str)]) -> Result<(), Fail> {
        for (word, text) in rows {
            let shown = Disassembly(*word).to_string(rt.alloc())?;
            assert!(rt; shown.as_str() == *text);
        }
        Ok(())
    }

    #[test]
    fn arithmetic_and_reductions(rt: HostRuntime) -> Result<(), Fail> {
        check_texts(
            &rt,
            &[
                (0x0042_0C00, "add.s a 1 b 2 c 3"),
                (0x0FC0_F810, "add.v a 63 b 0 c 62"),
                (0x0042_0C01, "sub.s a 1 b 2 c 3"),
                (0x0FC0_F811, "sub.v a 63 b 0 c 62"),
                (0x0042_0C02, "slt.s a 1 b 2 c 3"),
                (0x0FC0_F812, "slt.v a 63 b 0 c 62"),
                (0x0042_0C03, "mul.s a 1 b 2 c 3"),
                (0x0FC0_F813, "mul.v a 63 b 0 c 62"),
                (0x0042_0C04, "and.s a 1 b 2 c 3"),
                (0x0FC0_F814, "and.v a 63 b 0 c 62"),
                (0x0042_0C05, "or.s a 1 b 2 c 3"),
                (0x0FC0_F815, "or.v a 63 b 0 c 62"),
                (0x0042_0C06, "xor.s a 1 b 2 c 3"),
                (0x0FC0_F816, "xor.v a 63 b 0 c 62"),
                (0x0042_0C07, "shl.s a 1 b 2 c 3"),
                (0x0FC0_F817, "shl.v a 63 b 0 c 62"),
                (0x0042_0C08, "shr.s a 1 b 2 c 3"),
                (0x0FC0_F818, "shr.v a 63 b 0 c 62"),
                (0x0042_0C09, "rol.s a 1 b 2 c 3"),
                (0x0FC0_F819, "rol.v a 63 b 0 c 62"),
                (0x0042_0C0A, "ror.s a 1 b 2 c 3"),
                (0x0FC0_F81A, "ror.v a 63 b 0 c 62"),
                (0x0042_0C0B, "addr.s a 1 b 2 c 3"),
                (0x0FC0_F81B, "addr.v a 63 b 0 c 62"),
                (0x0248_1FEE, "div.s a 9 b 8 c 7 d 31"),
                (0x0248_1CDF, "div.v a 9 b 8 c 7 d 6"),
                (0x1105_0000, "add.r a 4 b 5"),
                (0x1105_0001, "mul.r a 4 b 5"),
                (0x1105_0002, "max.r a 4 b 5"),
                (0x1105_0003, "min.r a 4 b 5"),
                (0x1105_0004, "and.r a 4 b 5"),
            ],
        )
    }

    #[test]
    fn loads_stores_and_dups(rt: HostRuntime) -> Result<(), Fail> {
        check_texts(
            &rt,
            &[
                (0x2140_7FF0, "load.u8 a 5 b 0 i 2047"),
                (0x3187_0010, "store.u8 a 6 b 7 i 1"),
                (0x4209_0000, "dup.u8 a 8 b 9"),
                (0x2140_8001, "load.s8 a 5 b 0 i -2048"),
                (0x3187_FFF1, "store.s8 a 6 b 7 i -1"),
                (0x4209_0001, "dup.s8 a 8 b 9"),
                (0x2140_7FF2, "load.u16 a 5 b 0 i 2047"),
                (0x3187_0012, "store.u16 a 6 b 7 i 1"),
                (0x4209_0002, "dup.u16 a 8 b 9"),
                (0x2140_8003, "load.s16 a 5 b 0 i -2048"),
                (0x3187_FFF3, "store.s16 a 6 b 7 i -1"),
                (0x4209_0003, "dup.s16 a 8 b 9"),
                (0x2140_7FF4, "load.u32 a 5 b 0 i 2047"),
                (0x3187_0014, "store.u32 a 6 b 7 i 1"),
                (0x4209_0004, "dup.u32 a 8 b 9"),
                (0x2140_8005, "load.s32 a 5 b 0 i -2048"),
                (0x3187_FFF5, "store.s32 a 6 b 7 i -1"),
                (0x4209_0005, "dup.s32 a 8 b 9"),
                (0x2140_7FF6, "load.u64 a 5 b 0 i 2047"),
                (0x3187_0016, "store.u64 a 6 b 7 i 1"),
                (0x4209_0006, "dup.u64 a 8 b 9"),
                (0x2140_8007, "load.s64 a 5 b 0 i -2048"),
                (0x3187_FFF7, "store.s64 a 6 b 7 i -1"),
                (0x4209_0007, "dup.s64 a 8 b 9"),
                (0x2140_0C83, "load.s16 a 5 b 0 i 200"),
            ],
        )
    }

    #[test]
    fn control_and_special_registers(rt: HostRuntime) -> Result<(), Fail> {
        check_texts(
            &rt,
            &[
                (0x5F03_8005, "fetch a 60 b 3 i -1024 j 2"),
                (0x507F_7FFF, "fetch a 1 b 63 i 1023 j 15"),
                (0x62CC_F800, "jnz a 11 b 12 w 31"),
                (0x62CC_F001, "jz a 11 b 12 w 30"),
                (0x600D_0802, "hand b 13 w 1"),
                (0x8042_0C4C, "swi a 1 b 2 c 3 d 4"),
                (0x8000_000D, "reti"),
                (0x8000_000E, "retx"),
                (0x80C0_0000, "cpy.out ie a 3"),
                (0x80C0_0001, "cpy.in ie a 3"),
                (0x80C0_0002, "cpy.out xct a 3"),
                (0x80C0_0003, "cpy.in xct a 3"),
                (0x80C0_0004, "cpy.out swiarg0 a 3"),
                (0x80C0_0005, "cpy.in swiarg0 a 3"),
                (0x80C0_0006, "cpy.out swiarg1 a 3"),
                (0x80C0_0007, "cpy.in swiarg1 a 3"),
                (0x80C0_0008, "cpy.out swiarg2 a 3"),
                (0x80C0_0009, "cpy.in swiarg2 a 3"),
                (0x80C0_000A, "cpy.out swiarg3 a 3"),
                (0x80C0_000B, "cpy.in swiarg3 a 3"),
            ],
        )
    }

    #[test]
    fn words_that_hold_nothing(rt: HostRuntime) -> Result<(), Fail> {
        for word in [
            0x0000_0020, // d in add
            0x0000_000C, // opcode 12 in group 0
            0x0000_001E, // div.s with v
            0x0000_000F, // div.v without v
            0x1000_0005, // opcode 5 in group 1
            0x1000_0010, // z in a reduction
            0x2000_0008, // opcode 8 in group 2
            0x3000_0008, // opcode 8 in group 3
            0x4000_0008, // opcode 8 in group 4
            0x4000_0010, // z in dup
            0x5000_0000, // opcode 0 in group 5
            0x5F80_0003, // a + j over 62
            0x6000_0000, // b 0 in jnz
            0x6001_0010, // z in jnz
            0x6001_0003, // opcode 3 in group 6
            0x6041_0002, // a in hand
            0x7000_0000, // group 7
            0x8001_0000, // b in cpy
            0x8000_001D, // d in reti
            0x8040_000E, // a in retx
            0x8000_000F, // opcode 15 in group 8
            0x9000_0000, // group 9
            0xFFFF_FFFF, // group 15
        ] {
            check_texts(&rt, &[(word, "undefined")])?;
        }
        Ok(())
    }
}
