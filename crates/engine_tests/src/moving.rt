// Load, store, dup and fetch, in both modes, with what tags and store have afterwards.
use crate::rig::{
    LINES, MODES, after, check_at, check_code, check_data, check_stored, check_word, dup, fetch,
    jump_zero, laid, load, memory, number, one, started, store,
};
use calls::File;
use flat::{Mode, Stepped};
use std::process::Abort;
use store::Ram;
use tags::Register;
use word::ElementType;
use word::ElementType::{S8, S16, S32, S64, U8, U16, U32, U64};

const KINDS: [ElementType; 8] = [U8, S8, U16, S16, U32, S32, U64, S64];

// How many data registers carry the tag of a register.
fn count(file: &File, mode: Mode, field: u8) -> Option<u8> {
    match file.machine() {
        Ok(machine) => {
            let bank = machine.registers.bank();
            Some(bank.count(bank.tag(Register::of(mode, field))))
        }
        Err(_) => None,
    }
}

// What d8, which stays on line 0, shows.
fn first_line(file: &File) -> [u8; 128] {
    file.show_data(8).map_or([0; 128], |shown| shown.bytes)
}

fn other(mode: Mode) -> Mode {
    match mode {
        Mode::User => Mode::Supervisor,
        Mode::Supervisor => Mode::User,
    }
}

#[test]
fn loads(rt: HostRuntime) {
    for mode in MODES {
        let program = [
            load(S16, 5, 0, 200),
            load(U32, 6, 5, -72),
            load(U64, 5, 5, 61),
            load(S8, 0, 0, 200),
        ];
        let mut bytes = memory(&laid(mode, &program, 0), &LINES);
        let mut ram = Ram::new(&mut bytes);
        let mut file = started(&rt, mode, 1, &mut ram);
        check_data(&rt, &file, number(mode, 5), (200, S16, [1; 128]));
        assert_eq!(rt; count(&file, mode, 5), Some(1));
        assert_eq!(rt; file.step(&mut ram), Ok(Stepped::Done));
        check_data(&rt, &file, number(mode, 6), (128, U32, [1; 128]));
        assert_eq!(rt; count(&file, mode, 5), Some(2));
        assert_eq!(rt; file.step(&mut ram), Ok(Stepped::Done));
        check_data(&rt, &file, number(mode, 5), (261, U64, [2; 128]));
        assert_eq!(rt; count(&file, mode, 6), Some(1));
        assert_eq!(rt; file.step(&mut ram), Ok(Stepped::Done));
        check_data(&rt, &file, number(mode, 0), (0, U8, [0; 128]));
        check_at(&rt, &file, mode, after(mode, 4), 0);
        assert_eq!(rt; file.flush(&mut ram), Ok(0));
    }
}

// d5 goes from line 1, untouched, to line 2, which gets its bytes; then from line 2, touched, to line 3,
// and line 2 is sent back.
#[test]
fn stores(rt: HostRuntime) {
    for mode in MODES {
        let program = [
            load(U8, 5, 0, 128),
            store(S16, 5, 0, 260),
            store(U64, 5, 5, 124),
            store(U8, 0, 0, 512),
        ];
        let mut bytes = memory(&laid(mode, &program, 0), &LINES);
        let mut ram = Ram::new(&mut bytes);
        let mut file = started(&rt, mode, 2, &mut ram);
        check_data(&rt, &file, number(mode, 5), (260, S16, [1; 128]));
        check_stored(&rt, &ram, 2, [2; 128]);
        assert_eq!(rt; file.step(&mut ram), Ok(Stepped::Done));
        check_data(&rt, &file, number(mode, 5), (384, U64, [1; 128]));
        check_stored(&rt, &ram, 2, [1; 128]);
        check_stored(&rt, &ram, 3, [3; 128]);
        assert_eq!(rt; file.step(&mut ram), Ok(Stepped::Done));
        check_data(&rt, &file, number(mode, 0), (0, U8, [0; 128]));
        check_at(&rt, &file, mode, after(mode, 4), 0);
        assert_eq!(rt; file.flush(&mut ram), Ok(1));
        check_stored(&rt, &ram, 3, [1; 128]);
        check_stored(&rt, &ram, 4, [4; 128]);
    }
}

// A store to the register's own line touches it; d6 sees it.
#[test]
fn a_store_to_its_own_line(rt: HostRuntime) {
    let mode = Mode::Supervisor;
    let program = [
        load(U8, 5, 0, 128),
        load(U8, 6, 0, 255),
        store(U16, 5, 5, 64),
    ];
    let mut bytes = memory(&laid(mode, &program, 0), &LINES);
    let mut ram = Ram::new(&mut bytes);
    let mut file = started(&rt, mode, 3, &mut ram);
    check_data(&rt, &file, 69, (192, U16, [1; 128]));
    check_data(&rt, &file, 70, (255, U8, [1; 128]));
    assert_eq!(rt; count(&file, mode, 5), Some(2));
    assert_eq!(rt; file.flush(&mut ram), Ok(1));
}

#[test]
fn dups(rt: HostRuntime) {
    for mode in MODES {
        let program = [
            load(U8, 5, 0, 387),
            load(S8, 6, 0, 147),
            dup(U16, 5, 6),
            dup(U16, 0, 6),
        ];
        let lines = [one(S8, 19, 0x80), [2; 128], [3; 128], [4; 128]];
        let mut bytes = memory(&laid(mode, &program, 0), &lines);
        let mut ram = Ram::new(&mut bytes);
        let mut file = started(&rt, mode, 4, &mut ram);
        let filled = std::array::from_fn(|k| [0x80, 0xFF][k % 2]);
        check_data(&rt, &file, number(mode, 5), (387, U16, filled));
        check_data(&rt, &file, number(mode, 0), (0, U8, [0; 128]));
        check_at(&rt, &file, mode, after(mode, 4), 0);
        check_stored(&rt, &ram, 3, [3; 128]);
        assert_eq!(rt; file.flush(&mut ram), Ok(1));
        check_stored(&rt, &ram, 3, filled);
    }
}

// The store is RAM of 4 lines; the worked case of the page on the machine.
#[test]
fn two_registers_on_a_line(rt: HostRuntime) {
    let mode = Mode::Supervisor;
    let program = [
        load(U8, 5, 0, 128),
        load(U8, 6, 0, 130),
        dup(U8, 5, 0),
        store(U8, 5, 0, 256),
    ];
    let eight = memory(&laid(mode, &program, 0), &LINES);
    let mut bytes: [u8; 512] = std::array::from_fn(|k| eight.get(k).copied().unwrap_or(0));
    let mut ram = Ram::new(&mut bytes);
    let mut file = started(&rt, mode, 2, &mut ram);
    assert_eq!(rt; count(&file, mode, 5), Some(2));
    assert_eq!(rt; count(&file, mode, 6), Some(2));
    assert_eq!(rt; count(&file, mode, 7), Some(124));
    check_data(&rt, &file, 70, (130, U8, [1; 128]));
    assert_eq!(rt; file.step(&mut ram), Ok(Stepped::Done));
    check_data(&rt, &file, 69, (128, U8, [0; 128]));
    check_data(&rt, &file, 70, (130, U8, [0; 128]));
    assert_eq!(rt; file.step(&mut ram), Ok(Stepped::Done));
    check_data(&rt, &file, 69, (256, U8, [0; 128]));
    assert_eq!(rt; count(&file, mode, 5), Some(1));
    assert_eq!(rt; count(&file, mode, 6), Some(1));
    check_stored(&rt, &ram, 1, [1; 128]);
    check_stored(&rt, &ram, 2, [2; 128]);
    assert_eq!(rt; file.flush(&mut ram), Ok(2));
    check_stored(&rt, &ram, 1, [0; 128]);
    check_stored(&rt, &ram, 2, [0; 128]);
}

// Fetch from i0, from ipc before it moves on, from another register, and into i0.
#[test]
fn fetches(rt: HostRuntime) {
    for mode in MODES {
        let program = [
            fetch(1, 0, 33, 1),
            fetch(3, 63, 96, 0),
            fetch(4, 2, -32, 0),
            fetch(0, 0, 128, 1),
        ];
        let mut bytes = memory(&laid(mode, &program, 0), &LINES);
        let mut ram = Ram::new(&mut bytes);
        let file = started(&rt, mode, 4, &mut ram);
        check_code(&rt, &file, number(mode, 1), 640);
        check_word(&rt, &file, number(mode, 1), 31, 0);
        check_code(&rt, &file, number(mode, 2), 260);
        check_word(&rt, &file, number(mode, 2), 31, 0x0202_0202);
        check_code(
            &rt,
            &file,
            number(mode, 3),
            after(mode, 1).saturating_add(384),
        );
        check_word(&rt, &file, number(mode, 3), 0, 0x0303_0303);
        check_code(&rt, &file, number(mode, 4), 132);
        check_word(&rt, &file, number(mode, 4), 5, 0x0101_0101);
        check_code(&rt, &file, number(mode, 0), 0);
        check_word(&rt, &file, number(mode, 0), 0, 0);
        check_at(&rt, &file, mode, after(mode, 4), 0);
    }
}

// i1 keeps its words, and i2 copies them, whatever d5 has written. After both have left the line, i3 takes
// what d5 has written, though it is not in the store.
#[test]
fn a_fetch_sees_newer_bytes(rt: HostRuntime) {
    for mode in MODES {
        let program = [
            fetch(1, 0, 32, 0),
            load(U8, 5, 0, 128),
            dup(U8, 5, 0),
            fetch(2, 0, 32, 0),
            fetch(1, 0, 0, 1),
            fetch(1, 0, 0, 0),
            fetch(2, 0, 0, 0),
            fetch(3, 0, 32, 0),
        ];
        let mut bytes = memory(&laid(mode, &program, 0), &LINES);
        let mut ram = Ram::new(&mut bytes);
        let mut file = started(&rt, mode, 4, &mut ram);
        check_word(&rt, &file, number(mode, 1), 0, 0x0101_0101);
        check_word(&rt, &file, number(mode, 2), 0, 0x0101_0101);
        for _ in 0..4u8 {
            assert_eq!(rt; file.step(&mut ram), Ok(Stepped::Done));
        }
        check_word(&rt, &file, number(mode, 3), 0, 0);
        check_code(&rt, &file, number(mode, 3), 128);
        check_stored(&rt, &ram, 1, [1; 128]);
    }
}

// Each type is an opcode of its own; d0's element is 0.
#[test]
fn every_type(rt: HostRuntime) {
    for mode in MODES {
        for kind in KINDS {
            let program = [
                load(kind, 5, 0, 140),
                store(kind, 6, 5, 128),
                dup(kind, 7, 0),
            ];
            let mut bytes = memory(&laid(mode, &program, 0), &LINES);
            let mut ram = Ram::new(&mut bytes);
            let mut file = started(&rt, mode, 1, &mut ram);
            check_data(&rt, &file, number(mode, 5), (140, kind, [1; 128]));
            let first = first_line(&file);
            assert_eq!(rt; file.step(&mut ram), Ok(Stepped::Done));
            check_data(&rt, &file, number(mode, 6), (268, kind, first));
            assert_eq!(rt; file.step(&mut ram), Ok(Stepped::Done));
            check_data(&rt, &file, number(mode, 7), (0, kind, [0; 128]));
            check_data(&rt, &file, number(other(mode), 7), (0, U8, [0; 128]));
            check_at(&rt, &file, mode, after(mode, 3), 0);
            assert_eq!(rt; file.flush(&mut ram), Ok(2));
            check_stored(&rt, &ram, 0, [0; 128]);
            check_stored(&rt, &ram, 2, first);
        }
    }
}

// d5 writes line 1 and leaves it: it is sent back when d6 has left it too, and by a load alone.
#[test]
fn a_load_sends_back(rt: HostRuntime) {
    for mode in MODES {
        let program = [
            load(U8, 5, 0, 128),
            load(U8, 6, 0, 130),
            dup(U8, 5, 0),
            load(U8, 5, 0, 256),
            load(U8, 6, 6, 124),
            load(U8, 6, 6, 2),
        ];
        let mut bytes = memory(&laid(mode, &program, 0), &LINES);
        let mut ram = Ram::new(&mut bytes);
        let mut file = started(&rt, mode, 4, &mut ram);
        check_stored(&rt, &ram, 1, [1; 128]);
        check_data(&rt, &file, number(mode, 6), (130, U8, [0; 128]));
        assert_eq!(rt; file.step(&mut ram), Ok(Stepped::Done));
        check_data(&rt, &file, number(mode, 6), (254, U8, [0; 128]));
        check_stored(&rt, &ram, 1, [1; 128]);
        assert_eq!(rt; file.step(&mut ram), Ok(Stepped::Done));
        check_data(&rt, &file, number(mode, 6), (256, U8, [2; 128]));
        check_stored(&rt, &ram, 1, [0; 128]);
        assert_eq!(rt; file.flush(&mut ram), Ok(0));
    }
}

// d6 is on the line that d5 is stored to.
#[test]
fn a_store_to_a_line_in_use(rt: HostRuntime) {
    for mode in MODES {
        let program = [
            load(U8, 5, 0, 128),
            load(S16, 6, 0, 300),
            store(U32, 5, 6, 20),
        ];
        let mut bytes = memory(&laid(mode, &program, 0), &LINES);
        let mut ram = Ram::new(&mut bytes);
        let mut file = started(&rt, mode, 3, &mut ram);
        check_data(&rt, &file, number(mode, 5), (320, U32, [1; 128]));
        check_data(&rt, &file, number(mode, 6), (300, S16, [1; 128]));
        assert_eq!(rt; count(&file, mode, 5), Some(2));
        check_stored(&rt, &ram, 2, [2; 128]);
        assert_eq!(rt; file.flush(&mut ram), Ok(1));
        check_stored(&rt, &ram, 1, [1; 128]);
        check_stored(&rt, &ram, 2, [1; 128]);
    }
}

// The element is read before the line is filled, by the type before.
#[test]
fn a_dup_of_its_own_element(rt: HostRuntime) {
    for mode in MODES {
        let program = [load(S8, 5, 0, 147), dup(U32, 5, 5)];
        let lines = [one(S8, 19, 0x80), [2; 128], [3; 128], [4; 128]];
        let mut bytes = memory(&laid(mode, &program, 0), &lines);
        let mut ram = Ram::new(&mut bytes);
        let file = started(&rt, mode, 2, &mut ram);
        let filled = std::array::from_fn(|k| [0x80, 0xFF, 0xFF, 0xFF][k % 4]);
        check_data(&rt, &file, number(mode, 5), (147, U32, filled));
    }
}

// The start is i1's address before it goes; in word 31, ipc is on line 1 before i1 leaves it.
#[test]
fn fetches_from_a_register_that_goes(rt: HostRuntime) {
    for mode in MODES {
        let program = [
            fetch(1, 0, 32, 0),
            load(U8, 5, 0, 128),
            dup(U8, 5, 0),
            jump_zero(0, 63, 31),
        ];
        let mut bytes = memory(&laid(mode, &program, fetch(1, 1, 32, 1)), &LINES);
        let mut ram = Ram::new(&mut bytes);
        let file = started(&rt, mode, 5, &mut ram);
        check_at(&rt, &file, mode, 128, 0);
        check_word(&rt, &file, number(mode, 63), 0, 0x0101_0101);
        check_code(&rt, &file, number(mode, 1), 256);
        check_word(&rt, &file, number(mode, 1), 9, 0x0202_0202);
        check_code(&rt, &file, number(mode, 2), 384);
        check_word(&rt, &file, number(mode, 2), 9, 0x0303_0303);
        check_stored(&rt, &ram, 1, [1; 128]);
    }
}

// ipc is on line 1 before i1 leaves it, and i2 copies ipc's words there, whatever d5 has written.
#[test]
fn fetches_after_ipc_has_moved_on(rt: HostRuntime) {
    for mode in MODES {
        let program = [
            fetch(1, 0, 32, 0),
            load(U8, 5, 0, 128),
            dup(U8, 5, 0),
            jump_zero(0, 63, 31),
        ];
        let mut bytes = memory(&laid(mode, &program, fetch(1, 0, 0, 1)), &LINES);
        let mut ram = Ram::new(&mut bytes);
        let file = started(&rt, mode, 5, &mut ram);
        check_at(&rt, &file, mode, 128, 0);
        check_code(&rt, &file, number(mode, 1), 0);
        check_code(&rt, &file, number(mode, 2), 128);
        check_word(&rt, &file, number(mode, 2), 0, 0x0101_0101);
    }
}
