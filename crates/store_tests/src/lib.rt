// Stores and layers at work: which lines RAM, ROM, open bus, fuse and split have, what they read,
// which writes they take, and what they refuse with which line. Every answer here stands as a
// number that was written by hand. It uses `store`.
#![tactic(auto)]

#[cfg(test)]
mod tests {
    use store::{Fuse, LineFault, OpenBus, Ram, Rom, Split, Store};

    // Done, or the refusal's number and the line.
    type Answer = Result<(), (u8, u32)>;

    fn answer(res: Result<(), LineFault>) -> Answer {
        res.map_err(|fault| (u8::from(fault.cause), fault.line))
    }

    // Reads a line into a record of bytes 0xA5, which a refused read leaves.
    fn read<S: Store>(store: &S, line: u32) -> (Answer, [u8; 128]) {
        let mut out = [0xA5; 128];
        let done = answer(store.read(line, &mut out));
        (done, out)
    }

    // A line of which byte k is k.
    fn counting() -> [u8; 128] {
        std::array::from_fn(|k| k as u8)
    }

    // RAM on lines 0 and 1, ROM on 2 and 3, and nothing behind 4, 5 and 6.
    fn layered<'a>(
        bytes: &'a mut [u8; 300],
        fixed: &'a [u8; 256],
    ) -> Split<Split<Ram<'a>, Rom<'a>>, OpenBus> {
        let low = Split {
            low: Ram::new(bytes),
            high: Rom::new(fixed),
        };
        let high = OpenBus::new(3);
        Split { low, high }
    }

    #[test]
    fn ram_drops_and_rom_fills_a_part_of_a_line(rt: HostRuntime) {
        assert_eq!(rt; Rom::new(&[]).size(), 0);
        assert_eq!(rt; Rom::new(&[7; 1]).size(), 1);
        assert_eq!(rt; Rom::new(&[7; 128]).size(), 1);
        assert_eq!(rt; Rom::new(&[7; 129]).size(), 2);
        assert_eq!(rt; Ram::new(&mut []).size(), 0);
        assert_eq!(rt; Ram::new(&mut [7; 127]).size(), 0);
        assert_eq!(rt; Ram::new(&mut [7; 255]).size(), 1);
        assert_eq!(rt; Ram::new(&mut [7; 256]).size(), 2);
    }

    #[test]
    fn ram_has_its_whole_lines(rt: HostRuntime) {
        let mut bytes = [7; 300];
        let ram = Ram::new(&mut bytes);
        assert_eq!(rt; ram.size(), 2);
        assert_eq!(rt; ram.writable(0), true);
        assert_eq!(rt; ram.writable(1), true);
        assert_eq!(rt; ram.writable(2), false);
        assert_eq!(rt; read(&ram, 1), (Ok(()), [7; 128]));
        assert_eq!(rt; read(&ram, 2), (Err((10, 2)), [0xA5; 128]));
    }

    #[test]
    fn ram_writes_one_line(rt: HostRuntime) {
        let mut bytes = [7; 300];
        let mut ram = Ram::new(&mut bytes);
        assert_eq!(rt; answer(ram.write(1, &counting())), Ok(()));
        assert_eq!(rt; answer(ram.write(2, &[9; 128])), Err((10, 2)));
        assert_eq!(rt; read(&ram, 1), (Ok(()), counting()));
        assert_eq!(rt; &bytes[0..128], [7; 128].as_slice());
        assert_eq!(rt; &bytes[128..256], counting().as_slice());
        assert_eq!(rt; &bytes[256..300], [7; 44].as_slice());
    }

    #[test]
    fn ram_can_be_taken(rt: HostRuntime) {
        let mut bytes = [7; 300];
        let mut place = Ram::new(&mut bytes);
        let ram = place.take();
        assert_eq!(rt; place.size(), 0);
        assert_eq!(rt; ram.size(), 2);
        assert_eq!(rt; read(&ram, 1), (Ok(()), [7; 128]));
    }

    #[test]
    fn rom_fills_its_last_line_with_zeros(rt: HostRuntime) {
        let mut bytes = [7; 130];
        bytes[128] = 0x81;
        bytes[129] = 0x82;
        let rom = Rom::new(&bytes);
        let mut last = [0; 128];
        last[0] = 0x81;
        last[1] = 0x82;
        assert_eq!(rt; rom.size(), 2);
        assert_eq!(rt; read(&rom, 0), (Ok(()), [7; 128]));
        assert_eq!(rt; read(&rom, 1), (Ok(()), last));
        assert_eq!(rt; read(&rom, 2), (Err((10, 2)), [0xA5; 128]));
    }

    #[test]
    fn rom_takes_no_write(rt: HostRuntime) {
        let bytes = [7; 130];
        let mut rom = Rom::new(&bytes);
        assert_eq!(rt; rom.writable(0), false);
        assert_eq!(rt; rom.writable(2), false);
        assert_eq!(rt; answer(rom.write(0, &[9; 128])), Err((11, 0)));
        assert_eq!(rt; answer(rom.write(2, &[9; 128])), Err((10, 2)));
        assert_eq!(rt; read(&rom, 0), (Ok(()), [7; 128]));
    }

    #[test]
    fn open_bus_reads_ones(rt: HostRuntime) {
        let mut bus = OpenBus::new(3);
        assert_eq!(rt; bus.size(), 3);
        assert_eq!(rt; bus.writable(2), false);
        assert_eq!(rt; answer(bus.write(2, &[9; 128])), Err((11, 2)));
        assert_eq!(rt; answer(bus.write(3, &[9; 128])), Err((10, 3)));
        for line in 0..3 {
            assert_eq!(rt; read(&bus, line), (Ok(()), [0xFF; 128]));
        }
        assert_eq!(rt; read(&bus, 3), (Err((10, 3)), [0xA5; 128]));
    }

    #[test]
    fn open_bus_has_no_line_past_the_most(rt: HostRuntime) {
        let mut bus = OpenBus::new(40_000_000);
        assert_eq!(rt; bus.size(), 33_554_432);
        assert_eq!(rt;
            answer(bus.write(33_554_431, &[9; 128])),
            Err((11, 33_554_431))
        );
        assert_eq!(rt;
            answer(bus.write(33_554_432, &[9; 128])),
            Err((10, 33_554_432))
        );
        assert_eq!(rt;
            read(&bus, 33_554_432),
            (Err((10, 33_554_432)), [0xA5; 128])
        );
    }

    #[test]
    fn fuse_keeps_the_lines_below(rt: HostRuntime) {
        let mut bytes = [7; 400];
        let mut fuse = Fuse {
            below: 2,
            under: Ram::new(&mut bytes),
        };
        assert_eq!(rt; fuse.size(), 3);
        assert_eq!(rt; fuse.writable(1), false);
        assert_eq!(rt; fuse.writable(2), true);
        assert_eq!(rt; fuse.writable(3), false);
        assert_eq!(rt; answer(fuse.write(1, &[9; 128])), Err((11, 1)));
        assert_eq!(rt; answer(fuse.write(2, &counting())), Ok(()));
        assert_eq!(rt; answer(fuse.write(3, &[9; 128])), Err((10, 3)));
        assert_eq!(rt; read(&fuse, 1), (Ok(()), [7; 128]));
        assert_eq!(rt; read(&fuse, 2), (Ok(()), counting()));
    }

    #[test]
    fn lines_are_asked_for_before_a_write(rt: HostRuntime) {
        let mut bytes = [7; 400];
        let fuse = Fuse {
            below: 2,
            under: Ram::new(&mut bytes),
        };
        assert_eq!(rt; answer(fuse.admit(1)), Err((11, 1)));
        assert_eq!(rt; answer(fuse.admit(2)), Ok(()));
        assert_eq!(rt; answer(fuse.admit(3)), Err((10, 3)));
        assert_eq!(rt; answer(Err(fuse.refuse(1))), Err((11, 1)));
        assert_eq!(rt; answer(Err(fuse.refuse(3))), Err((10, 3)));
        assert_eq!(rt; answer(fuse.find(1)), Ok(()));
        assert_eq!(rt; answer(fuse.find(3)), Err((10, 3)));
    }

    #[test]
    fn fuse_past_the_end_still_says_missing(rt: HostRuntime) {
        let mut bytes = [7; 400];
        let mut fuse = Fuse {
            below: 9,
            under: Ram::new(&mut bytes),
        };
        assert_eq!(rt; answer(fuse.write(2, &[9; 128])), Err((11, 2)));
        assert_eq!(rt; answer(fuse.write(3, &[9; 128])), Err((10, 3)));
        assert_eq!(rt; answer(fuse.write(9, &[9; 128])), Err((10, 9)));
        assert_eq!(rt; read(&fuse, 3), (Err((10, 3)), [0xA5; 128]));
        assert_eq!(rt; bytes, [7; 400]);
    }

    #[test]
    fn split_sets_lines_in_a_row(rt: HostRuntime) {
        let mut bytes = [7; 300];
        let fixed = [8; 256];
        let all = layered(&mut bytes, &fixed);
        assert_eq!(rt; all.size(), 7);
        for (line, writable, byte) in [
            (0, true, 7),
            (1, true, 7),
            (2, false, 8),
            (3, false, 8),
            (4, false, 0xFF),
            (6, false, 0xFF),
        ] {
            assert_eq!(rt; all.writable(line), writable);
            assert_eq!(rt; read(&all, line), (Ok(()), [byte; 128]));
        }
        assert_eq!(rt; all.writable(7), false);
        assert_eq!(rt; read(&all, 7), (Err((10, 7)), [0xA5; 128]));
    }

    #[test]
    fn split_reports_its_own_lines(rt: HostRuntime) {
        let mut bytes = [7; 300];
        let fixed = [8; 256];
        let mut all = layered(&mut bytes, &fixed);
        assert_eq!(rt; answer(all.write(1, &counting())), Ok(()));
        assert_eq!(rt; answer(all.write(3, &[9; 128])), Err((11, 3)));
        assert_eq!(rt; answer(all.write(5, &[9; 128])), Err((11, 5)));
        assert_eq!(rt; answer(all.write(7, &[9; 128])), Err((10, 7)));
        assert_eq!(rt; read(&all, 1), (Ok(()), counting()));
        assert_eq!(rt; &bytes[0..128], [7; 128].as_slice());
        assert_eq!(rt; &bytes[128..256], counting().as_slice());
        assert_eq!(rt; &bytes[256..300], [7; 44].as_slice());
    }

    // RAM above ROM: what is written to line 3 lands on line 1 of the RAM.
    #[test]
    fn split_writes_to_the_store_above(rt: HostRuntime) {
        let mut bytes = [7; 300];
        let fixed = [8; 130];
        let mut all = Split {
            low: Rom::new(&fixed),
            high: Ram::new(&mut bytes),
        };
        assert_eq!(rt; answer(all.write(3, &counting())), Ok(()));
        assert_eq!(rt; answer(all.write(1, &[9; 128])), Err((11, 1)));
        assert_eq!(rt; answer(all.write(4, &[9; 128])), Err((10, 4)));
        assert_eq!(rt; read(&all, 3), (Ok(()), counting()));
        assert_eq!(rt; &bytes[0..128], [7; 128].as_slice());
        assert_eq!(rt; &bytes[128..256], counting().as_slice());
        assert_eq!(rt; &bytes[256..300], [7; 44].as_slice());
    }

    // Of two lines of RAM behind all lines but one, the second is cut off.
    #[test]
    fn split_has_no_line_past_the_most(rt: HostRuntime) {
        let mut bytes = [7; 300];
        let mut all = Split {
            low: OpenBus::new(33_554_431),
            high: Ram::new(&mut bytes),
        };
        assert_eq!(rt; all.size(), 33_554_432);
        assert_eq!(rt; all.writable(33_554_430), false);
        assert_eq!(rt; all.writable(33_554_431), true);
        assert_eq!(rt; all.writable(33_554_432), false);
        assert_eq!(rt; answer(all.write(33_554_431, &[9; 128])), Ok(()));
        assert_eq!(rt;
            answer(all.write(33_554_432, &[9; 128])),
            Err((10, 33_554_432))
        );
        assert_eq!(rt;
            read(&all, 33_554_432),
            (Err((10, 33_554_432)), [0xA5; 128])
        );
        assert_eq!(rt; &bytes[0..128], [9; 128].as_slice());
        assert_eq!(rt; &bytes[128..300], [7; 172].as_slice());
    }
}
