// Images loaded into RAM, and beneath a fuse: which are refused, with which number, at which byte
// place and for which line, and which bytes an accepted one writes. Records are byte arrays, and
// every answer stands as a number that was written by hand. It uses `image` and `store`.
#![tactic(auto)]

#[cfg(test)]
mod tests {
    use image::{Fault, load_bytes};
    use std::alloc::{AllocError, Global};
    use std::process::Abort;
    use std::test::Fail;
    use store::{OpenBus, Ram, Split};

    // Accepted, or the refusal's number, the byte place of the record and the line.
    type Answer = Result<(), (u8, usize, u32)>;

    fn answer(res: Result<(), Fault>) -> Answer {
        res.map_err(|fault| (u8::from(fault.refusal()), fault.at, fault.line()))
    }

    // Places the byte 9 at 0.
    const PLACED: [u8; 11] = [5, 0, 0, 0, 1, 0, 0, 0, 0, 0, 9];

    // Places the byte 9 at 256, on line 2.
    const THIRD_LINE: [u8; 11] = [5, 0, 0, 0, 1, 0, 0, 1, 0, 0, 9];

    const END: [u8; 6] = [0, 0, 0, 0, 2, 0];

    // The bytes of an image: its records in a row.
    fn joined(heap: Global, records: &[&[u8]]) -> Result<Vec<u8>, AllocError> {
        records.concat(heap)
    }

    // Loads the records into RAM of 2 lines and 44 bytes.
    fn load(heap: Global, records: &[&[u8]]) -> Result<(Answer, [u8; 300]), AllocError> {
        let image = joined(heap, records)?;
        let mut bytes = [7; 300];
        let mut ram = Ram::new(&mut bytes);
        let loaded = answer(image::load(&mut ram, &image));
        Ok((loaded, bytes))
    }

    // The records are refused so, and the RAM is left as it was.
    fn check_refused(
        rt: &impl Abort,
        heap: Global,
        records: &[&[u8]],
        why: (u8, usize, u32),
    ) -> Result<(), Fail> {
        let (loaded, bytes) = load(heap, records)?;
        assert_eq!(rt; loaded, Err(why), "{records:?}");
        assert_eq!(rt; bytes, [7; 300], "{records:?}");
        Ok(())
    }

    #[test]
    fn cut_records_are_refused(rt: HostRuntime) -> Result<(), Fail> {
        let cases: [(&[&[u8]], usize); 10] = [
            // no record
            (&[], 0),
            // no end
            (&[&PLACED], 11),
            // a header of 1 byte, and of 5
            (&[&PLACED, &[0]], 11),
            (&[&PLACED, &[0, 0, 0, 0, 2]], 11),
            // a body of 6 bytes of which 5 are there
            (&[&PLACED, &[6, 0, 0, 0, 1, 0, 1, 0, 0, 0, 9]], 11),
            // a body of 5 + 2 ^ 24 bytes of which 11 are there
            (&[&[5, 0, 0, 1, 1, 0, 0, 0, 0, 0, 9], &END], 0),
            // a place of no byte, and of 3 bytes
            (&[&PLACED, &[0, 0, 0, 0, 1, 0], &END], 11),
            (&[&PLACED, &[3, 0, 0, 0, 1, 0, 0, 0, 0], &END], 11),
            // a byte behind the end, and a second end behind it
            (&[&PLACED, &END, &[0]], 17),
            (&[&PLACED, &END, &END], 17),
        ];
        for (records, at) in cases {
            check_refused(&rt, rt.alloc(), records, (7, at, 0))?;
        }
        Ok(())
    }

    #[test]
    fn unknown_kinds_are_refused(rt: HostRuntime) -> Result<(), Fail> {
        let cases: [(&[&[u8]], usize); 6] = [
            // kinds 0, 3 and 257
            (&[&[0, 0, 0, 0, 0, 0]], 0),
            (&[&PLACED, &[0, 0, 0, 0, 3, 0], &END], 11),
            (&[&PLACED, &[5, 0, 0, 0, 1, 1, 0, 0, 0, 0, 9], &END], 11),
            // an end with a body of a byte
            (&[&PLACED, &[1, 0, 0, 0, 2, 0, 0]], 11),
            // kind 3, and an end, with a body that is not there
            (&[&PLACED, &[1, 0, 0, 0, 3, 0]], 11),
            (&[&PLACED, &[1, 0, 0, 0, 2, 0]], 11),
        ];
        for (records, at) in cases {
            check_refused(&rt, rt.alloc(), records, (8, at, 0))?;
        }
        Ok(())
    }

    // A fault is printed with its refusal's number.
    #[test]
    fn faults_are_printed(rt: HostRuntime) -> Result<(), Fail> {
        let cases: [(&[&[u8]], &str); 3] = [
            (&[&PLACED], "x 7\nrecord at byte 11, line 0"),
            (&[&[0, 0, 0, 0, 0, 0]], "x 8\nrecord at byte 0, line 0"),
            (
                &[&PLACED, &THIRD_LINE, &END],
                "x 9\nrecord at byte 11, line 2",
            ),
        ];
        for (records, text) in cases {
            let image = joined(rt.alloc(), records)?;
            let fault = load_bytes(&mut [7; 300], 0, &image).err().ok_or("taken")?;
            assert_eq!(rt; format!(in rt.alloc(); "{fault}")?.as_str(), text);
        }
        Ok(())
    }

    // The RAM has lines 0 and 1.
    #[test]
    fn places_off_the_store_are_refused(rt: HostRuntime) -> Result<(), Fail> {
        let cases: [(&[&[u8]], usize, u32); 7] = [
            // a byte at 256, at 2 ^ 16 and at 2 ^ 24
            (&[&THIRD_LINE, &END], 0, 2),
            (&[&[5, 0, 0, 0, 1, 0, 0, 0, 1, 0, 9], &END], 0, 512),
            (&[&[5, 0, 0, 0, 1, 0, 0, 0, 0, 1, 9], &END], 0, 131_072),
            // two bytes at 255, of which the second is on line 2
            (&[&[6, 0, 0, 0, 1, 0, 255, 0, 0, 0, 9, 9], &END], 0, 2),
            // two bytes at the last address, of which the first is at fault
            (
                &[&[6, 0, 0, 0, 1, 0, 255, 255, 255, 255, 9, 9], &END],
                0,
                33_554_431,
            ),
            // a byte at 0, and then one at 256
            (&[&PLACED, &THIRD_LINE, &END], 11, 2),
            // a byte at 384, and then one at 256
            (
                &[&[5, 0, 0, 0, 1, 0, 128, 1, 0, 0, 9], &THIRD_LINE, &END],
                0,
                3,
            ),
        ];
        for (records, at, line) in cases {
            check_refused(&rt, rt.alloc(), records, (9, at, line))?;
        }
        Ok(())
    }

    // A byte at 256, where no line is, and then no end, or a record of kind 3.
    #[test]
    fn records_are_checked_before_places(rt: HostRuntime) -> Result<(), Fail> {
        let unknown = [0, 0, 0, 0, 3, 0];
        check_refused(&rt, rt.alloc(), &[&THIRD_LINE], (7, 11, 0))?;
        check_refused(&rt, rt.alloc(), &[&THIRD_LINE, &unknown], (8, 11, 0))
    }

    // An end alone, and places of no bytes at 0, at 256 and at the last address.
    #[test]
    fn nothing_placed_is_on_no_line(rt: HostRuntime) -> Result<(), Fail> {
        assert_eq!(rt; load(rt.alloc(), &[&END])?, (Ok(()), [7; 300]));
        for place in [
            [4, 0, 0, 0, 1, 0, 0, 0, 0, 0],
            [4, 0, 0, 0, 1, 0, 0, 1, 0, 0],
            [4, 0, 0, 0, 1, 0, 255, 255, 255, 255],
        ] {
            assert_eq!(rt; load(rt.alloc(), &[&place, &END])?, (Ok(()), [7; 300]));
        }
        Ok(())
    }

    // 9 at 0, and 8 at 255.
    #[test]
    fn the_first_and_the_last_byte_are_places(rt: HostRuntime) -> Result<(), Fail> {
        let last = [5, 0, 0, 0, 1, 0, 255, 0, 0, 0, 8];
        let (loaded, bytes) = load(rt.alloc(), &[&PLACED, &last, &END])?;
        assert_eq!(rt; loaded, Ok(()));
        assert_eq!(rt; bytes[0], 9);
        assert_eq!(rt; &bytes[1..255], [7; 254].as_slice());
        assert_eq!(rt; bytes[255], 8);
        assert_eq!(rt; &bytes[256..300], [7; 44].as_slice());
        Ok(())
    }

    // The bytes 1 to 144 at 120: 8 fall on line 0, 128 on line 1, and 8 on line 2.
    #[test]
    fn a_place_may_run_over_three_lines(rt: HostRuntime) -> Result<(), Fail> {
        let head = [148, 0, 0, 0, 1, 0, 120, 0, 0, 0];
        let placed: [u8; 144] = std::array::from_fn(|k| k as u8 + 1);
        let image = joined(rt.alloc(), &[&head, &placed, &END])?;
        let mut bytes = [0xEE; 400];
        let mut ram = Ram::new(&mut bytes);
        assert_eq!(rt; answer(image::load(&mut ram, &image)), Ok(()));
        assert_eq!(rt; &bytes[0..120], [0xEE; 120].as_slice());
        assert_eq!(rt; &bytes[120..264], placed.as_slice());
        assert_eq!(rt; &bytes[264..400], [0xEE; 136].as_slice());
        Ok(())
    }

    // 1, 2, 3 and 4 at 126, and then 9 at 127.
    #[test]
    fn later_places_win(rt: HostRuntime) -> Result<(), Fail> {
        let first = [8, 0, 0, 0, 1, 0, 126, 0, 0, 0, 1, 2, 3, 4];
        let second = [5, 0, 0, 0, 1, 0, 127, 0, 0, 0, 9];
        let (loaded, bytes) = load(rt.alloc(), &[&first, &second, &END])?;
        assert_eq!(rt; loaded, Ok(()));
        assert_eq!(rt; &bytes[0..126], [7; 126].as_slice());
        assert_eq!(rt; &bytes[126..130], [1, 9, 3, 4].as_slice());
        assert_eq!(rt; &bytes[130..300], [7; 170].as_slice());
        Ok(())
    }

    // A byte at 256, on line 2, and then one at 255, on line 1.
    #[test]
    fn a_fused_line_is_refused(rt: HostRuntime) -> Result<(), Fail> {
        let fused = [5, 0, 0, 0, 1, 0, 255, 0, 0, 0, 8];
        let image = joined(rt.alloc(), &[&THIRD_LINE, &fused, &END])?;
        let mut bytes = [7; 400];
        assert_eq!(rt; answer(load_bytes(&mut bytes, 2, &image)), Err((9, 11, 1)));
        assert_eq!(rt; bytes, [7; 400]);
        assert_eq!(rt; answer(load_bytes(&mut bytes, 1, &image)), Ok(()));
        assert_eq!(rt; &bytes[0..255], [7; 255].as_slice());
        assert_eq!(rt; &bytes[255..257], [8, 9].as_slice());
        assert_eq!(rt; &bytes[257..400], [7; 143].as_slice());
        Ok(())
    }

    // No bytes at 0, beneath the fuse, and then 1 and 2 at 256.
    #[test]
    fn lines_past_the_fuse_are_written(rt: HostRuntime) -> Result<(), Fail> {
        let empty = [4, 0, 0, 0, 1, 0, 0, 0, 0, 0];
        let free = [6, 0, 0, 0, 1, 0, 0, 1, 0, 0, 1, 2];
        let image = joined(rt.alloc(), &[&empty, &free, &END])?;
        let mut bytes = [7; 400];
        assert_eq!(rt; answer(load_bytes(&mut bytes, 2, &image)), Ok(()));
        assert_eq!(rt; &bytes[0..256], [7; 256].as_slice());
        assert_eq!(rt; &bytes[256..258], [1, 2].as_slice());
        assert_eq!(rt; &bytes[258..400], [7; 142].as_slice());
        assert_eq!(rt; answer(load_bytes(&mut bytes, 3, &image)), Err((9, 10, 2)));
        Ok(())
    }

    // Two bytes at 127, of which the second is on the open bus.
    #[test]
    fn a_place_may_not_run_off_the_ram(rt: HostRuntime) {
        let image = [6, 0, 0, 0, 1, 0, 127, 0, 0, 0, 1, 2, 0, 0, 0, 0, 2, 0];
        let mut bytes = [7; 128];
        let mut both = Split {
            low: Ram::new(&mut bytes),
            high: OpenBus::new(1),
        };
        assert_eq!(rt; answer(image::load(&mut both, &image)), Err((9, 0, 1)));
        assert_eq!(rt; bytes, [7; 128]);
    }

    // One line of RAM is the last that any store has, and the other is cut off.
    #[test]
    fn the_last_address_is_a_place(rt: HostRuntime) {
        let one = [5, 0, 0, 0, 1, 0, 255, 255, 255, 255, 9, 0, 0, 0, 0, 2, 0];
        let two = [6, 0, 0, 0, 1, 0, 255, 255, 255, 255, 9, 9, 0, 0, 0, 0, 2, 0];
        let mut bytes = [7; 256];
        let mut both = Split {
            low: OpenBus::new(33_554_431),
            high: Ram::new(&mut bytes),
        };
        assert_eq!(rt;
            answer(image::load(&mut both, &two)),
            Err((9, 0, 33_554_432))
        );
        assert_eq!(rt; answer(image::load(&mut both, &one)), Ok(()));
        assert_eq!(rt; &bytes[0..127], [7; 127].as_slice());
        assert_eq!(rt; bytes[127], 9);
        assert_eq!(rt; &bytes[128..256], [7; 128].as_slice());
    }
}
