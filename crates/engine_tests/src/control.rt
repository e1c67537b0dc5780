// Jumps, hand, cpy, swi, reti and retx, the move to the next line, and interrupts.
use crate::rig::{
    LINES, MODES, after, check_at, check_code, check_data, check_enters, check_stored, check_word,
    dup, fetch, hand, jump_not_zero, jump_zero, laid, load, memory, number, one, started, w,
};
use calls::File;
use flat::{DataRegister, Exception, Mode, Stepped};
use std::process::Abort;
use store::{Ram, Store};
use tags::Register;
use word::ElementType::{S8, U8, U16, U64};
use word::{Operation, Special};

const SWIARGS: [Special; 4] = [
    Special::Swiarg0,
    Special::Swiarg1,
    Special::Swiarg2,
    Special::Swiarg3,
];

fn copy_in(to: Special, a: u8) -> u32 {
    w(Operation::CopyIn { to, a })
}

fn copy_out(from: Special, a: u8) -> u32 {
    w(Operation::CopyOut { from, a })
}

fn swi(a: u8, b: u8, c: u8, d: u8) -> u32 {
    w(Operation::Swi { a, b, c, d })
}

fn reti() -> u32 {
    w(Operation::Reti)
}

fn retx() -> u32 {
    w(Operation::Retx)
}

fn check_done<S: Store>(rt: &impl Abort, file: &mut File, store: &mut S) {
    assert_eq!(rt; file.step(store), Ok(Stepped::Done));
}

fn check_ie(rt: &impl Abort, file: &File, ie: bool) {
    assert_eq!(rt; file.show_rest().map(|rest| rest.ie), Ok(ie));
}

fn check_swiargs(rt: &impl Abort, file: &File, swiargs: [[u8; 128]; 4]) {
    assert_eq!(rt; file.show_rest().map(|rest| rest.swiargs), Ok(swiargs));
}

// The second byte of an element counts too.
#[test]
fn jumps_on_an_element(rt: HostRuntime) {
    for mode in MODES {
        let program = [
            load(U16, 5, 0, 147),
            jump_zero(5, 1, 20),
            jump_not_zero(5, 1, 20),
        ];
        let lines = [one(U16, 19, 0x100), [2; 128], [3; 128], [4; 128]];
        let mut bytes = memory(&laid(mode, &program, 0), &lines);
        let mut ram = Ram::new(&mut bytes);
        let mut file = started(&rt, mode, 2, &mut ram);
        check_at(&rt, &file, mode, after(mode, 2), 0);
        check_done(&rt, &mut file, &mut ram);
        check_at(&rt, &file, mode, 80, 0);
        assert_eq!(rt; file.flush(&mut ram), Ok(0));
    }
}

#[test]
fn jumps_on_zero(rt: HostRuntime) {
    for mode in MODES {
        let program = [jump_not_zero(0, 63, 20), jump_zero(0, 63, 20)];
        let mut bytes = memory(&laid(mode, &program, 0), &LINES);
        let mut ram = Ram::new(&mut bytes);
        let mut file = started(&rt, mode, 1, &mut ram);
        check_at(&rt, &file, mode, after(mode, 1), 0);
        check_done(&rt, &mut file, &mut ram);
        check_at(&rt, &file, mode, 80, 0);
    }
}

#[test]
fn jumps_to_another_line(rt: HostRuntime) {
    for mode in MODES {
        let program = [fetch(1, 0, 33, 0), jump_zero(0, 1, 7)];
        let mut bytes = memory(&laid(mode, &program, 0), &LINES);
        let mut ram = Ram::new(&mut bytes);
        let file = started(&rt, mode, 2, &mut ram);
        check_at(&rt, &file, mode, 156, 0);
        check_word(&rt, &file, number(mode, 63), 7, 0x0101_0101);
        check_code(&rt, &file, number(mode, 1), 132);
    }
}

#[test]
fn hand_puts_the_users_ipc(rt: HostRuntime) {
    let mode = Mode::Supervisor;
    let program = [fetch(1, 0, 33, 0), hand(1, 5)];
    let mut bytes = memory(&laid(mode, &program, 0), &LINES);
    let mut ram = Ram::new(&mut bytes);
    let file = started(&rt, mode, 2, &mut ram);
    check_at(&rt, &file, mode, 8, 0);
    check_code(&rt, &file, 63, 148);
    check_word(&rt, &file, 63, 5, 0x0101_0101);
    check_code(&rt, &file, 65, 132);
}

// The supervisor's ipc is the only instruction register on line 0, and moves on from it: the user's ipc
// takes the line from memory, where d5 has written.
#[test]
fn hand_in_word_31(rt: HostRuntime) {
    let mode = Mode::Supervisor;
    let program = [dup(U8, 5, 0), jump_zero(0, 63, 31)];
    let mut bytes = memory(&laid(mode, &program, hand(63, 4)), &LINES);
    let mut ram = Ram::new(&mut bytes);
    let mut file = started(&rt, mode, 2, &mut ram);
    if let File::Warm(machine) = &mut file {
        for field in 1..63u8 {
            machine.take_line(Register::of(Mode::User, field), 128, &ram);
            machine.take_line(Register::of(Mode::Supervisor, field), 128, &ram);
        }
        machine.take_line(Register::of(Mode::User, 63), 128, &ram);
    }
    check_word(&rt, &file, 127, 31, hand(63, 4));
    check_done(&rt, &mut file, &mut ram);
    check_at(&rt, &file, mode, 128, 0);
    check_word(&rt, &file, 127, 0, 0x0101_0101);
    check_code(&rt, &file, 63, 16);
    check_word(&rt, &file, 63, 0, 0);
    check_word(&rt, &file, 63, 31, 0);
    assert_eq!(rt; file.flush(&mut ram), Ok(1));
}

#[test]
fn cpy_of_ie(rt: HostRuntime) {
    let mode = Mode::Supervisor;
    let program = [
        load(U8, 5, 0, 128),
        copy_in(Special::Ie, 5),
        load(U16, 6, 0, 515),
        copy_out(Special::Ie, 6),
        load(U8, 5, 0, 256),
        copy_in(Special::Ie, 5),
        copy_out(Special::Ie, 6),
    ];
    let lines = [[3; 128], [2; 128], [3; 128], [4; 128]];
    let mut bytes = memory(&laid(mode, &program, 0), &lines);
    let mut ram = Ram::new(&mut bytes);
    let mut file = started(&rt, mode, 2, &mut ram);
    check_ie(&rt, &file, true);
    check_done(&rt, &mut file, &mut ram);
    check_done(&rt, &mut file, &mut ram);
    let mut shown = [4; 128];
    shown[2] = 1;
    shown[3] = 0;
    check_data(&rt, &file, 70, (515, U16, shown));
    check_done(&rt, &mut file, &mut ram);
    check_done(&rt, &mut file, &mut ram);
    check_ie(&rt, &file, false);
    check_done(&rt, &mut file, &mut ram);
    shown[2] = 0;
    check_data(&rt, &file, 70, (515, U16, shown));
    assert_eq!(rt; file.flush(&mut ram), Ok(1));
}

// An element is cast to u32 on its way in, and xct to dA's type on its way out.
#[test]
fn cpy_of_xct(rt: HostRuntime) {
    let mode = Mode::Supervisor;
    let program = [
        load(S8, 5, 0, 147),
        copy_in(Special::Xct, 5),
        load(U64, 6, 0, 525),
        copy_out(Special::Xct, 6),
        load(U64, 5, 0, 280),
        copy_in(Special::Xct, 5),
        load(U8, 6, 0, 512),
        copy_out(Special::Xct, 6),
    ];
    let lines = [
        one(S8, 19, 0xFF),
        one(U64, 24, 0x1_0000_0107),
        [3; 128],
        [4; 128],
    ];
    let mut bytes = memory(&laid(mode, &program, 0), &lines);
    let mut ram = Ram::new(&mut bytes);
    let mut file = started(&rt, mode, 2, &mut ram);
    check_at(&rt, &file, mode, 8, 0xFFFF_FFFF);
    check_done(&rt, &mut file, &mut ram);
    check_done(&rt, &mut file, &mut ram);
    let mut shown = [4; 128];
    for place in 8..12usize {
        shown[place] = 0xFF;
        shown[place + 4] = 0;
    }
    check_data(&rt, &file, 70, (525, U64, shown));
    check_done(&rt, &mut file, &mut ram);
    check_done(&rt, &mut file, &mut ram);
    check_at(&rt, &file, mode, 24, 0x107);
    check_done(&rt, &mut file, &mut ram);
    check_done(&rt, &mut file, &mut ram);
    shown[0] = 7;
    check_data(&rt, &file, 70, (512, U8, shown));
}

#[test]
fn cpy_of_swiargs(rt: HostRuntime) {
    let mode = Mode::Supervisor;
    for (number, special) in SWIARGS.into_iter().enumerate() {
        let program = [
            load(U8, 5, 0, 128),
            copy_in(special, 5),
            load(U16, 6, 0, 260),
            copy_out(special, 6),
        ];
        let mut bytes = memory(&laid(mode, &program, 0), &LINES);
        let mut ram = Ram::new(&mut bytes);
        let mut file = started(&rt, mode, 4, &mut ram);
        check_swiargs(
            &rt,
            &file,
            std::array::from_fn(|k| if k == number { [1; 128] } else { [0; 128] }),
        );
        check_data(&rt, &file, 70, (260, U16, [1; 128]));
        check_at(&rt, &file, mode, 16, 0);
        check_stored(&rt, &ram, 2, [2; 128]);
        assert_eq!(rt; file.flush(&mut ram), Ok(1));
    }
}

// Nothing goes into d0, and zeros come out of it.
#[test]
fn cpy_of_d0(rt: HostRuntime) {
    let mode = Mode::Supervisor;
    let program = [
        load(U8, 5, 0, 128),
        copy_in(Special::Xct, 5),
        copy_in(Special::Swiarg2, 5),
        copy_out(Special::Xct, 0),
        copy_out(Special::Swiarg2, 0),
        copy_in(Special::Swiarg2, 0),
        copy_in(Special::Xct, 0),
    ];
    let mut bytes = memory(&laid(mode, &program, 0), &LINES);
    let mut ram = Ram::new(&mut bytes);
    let mut file = started(&rt, mode, 5, &mut ram);
    check_data(&rt, &file, 64, (0, U8, [0; 128]));
    check_at(&rt, &file, mode, 20, 1);
    check_done(&rt, &mut file, &mut ram);
    check_swiargs(&rt, &file, [[0; 128]; 4]);
    check_done(&rt, &mut file, &mut ram);
    check_at(&rt, &file, mode, 28, 0);
    assert_eq!(rt; file.flush(&mut ram), Ok(0));
}

#[test]
fn software_interrupts(rt: HostRuntime) {
    for (mode, user) in [(Mode::User, 24), (Mode::Supervisor, 0)] {
        let program = [
            load(U8, 1, 0, 128),
            load(U64, 2, 0, 256),
            load(S8, 4, 0, 512),
            swi(1, 2, 0, 4),
        ];
        let mut bytes = memory(&laid(mode, &program, 0), &LINES);
        let mut ram = Ram::new(&mut bytes);
        let mut file = started(&rt, mode, 3, &mut ram);
        check_enters(&rt, &mut file, Exception::Software, &mut ram);
        check_swiargs(&rt, &file, [[1; 128], [2; 128], [0; 128], [4; 128]]);
        check_at(&rt, &file, Mode::Supervisor, 0, 4);
        check_code(&rt, &file, 63, user);
        check_ie(&rt, &file, false);
        assert_eq!(rt; file.flush(&mut ram), Ok(0));
    }
}

// Each leaves both ipcs where they are, in word 31 too.
#[test]
fn returns_to_the_user(rt: HostRuntime) {
    let mode = Mode::Supervisor;
    for (word, ie) in [(reti(), true), (retx(), false)] {
        let program = [hand(63, 5), jump_zero(0, 1, 31)];
        let mut bytes = memory(&laid(mode, &program, word), &LINES);
        let mut ram = Ram::new(&mut bytes);
        let file = started(&rt, mode, 3, &mut ram);
        check_ie(&rt, &file, ie);
        check_at(&rt, &file, Mode::User, 20, 0);
        check_code(&rt, &file, 127, 124);
    }
}

// An instruction register of the mode names the next line.
#[test]
fn ipc_goes_to_the_next_line(rt: HostRuntime) {
    for mode in MODES {
        let program = [fetch(1, 0, 32, 0), jump_zero(0, 2, 31)];
        let mut bytes = memory(&laid(mode, &program, 0), &LINES);
        let mut ram = Ram::new(&mut bytes);
        let file = started(&rt, mode, 3, &mut ram);
        check_at(&rt, &file, mode, 128, 0);
        check_word(&rt, &file, number(mode, 63), 0, 0x0101_0101);
    }
}

// An instruction register of the other mode names it.
#[test]
fn the_users_ipc_goes_to_a_line_of_the_supervisor(rt: HostRuntime) {
    let program = [fetch(1, 0, 32, 0), hand(63, 31), retx()];
    let mut bytes = memory(&laid(Mode::Supervisor, &program, 0), &LINES);
    let mut ram = Ram::new(&mut bytes);
    let file = started(&rt, Mode::Supervisor, 4, &mut ram);
    check_at(&rt, &file, Mode::User, 128, 0);
    check_word(&rt, &file, 63, 0, 0x0101_0101);
}

// A jump that is taken in word 31 needs no next line.
#[test]
fn a_jump_from_word_31(rt: HostRuntime) {
    for mode in MODES {
        let program = [jump_zero(0, 1, 31)];
        let mut bytes = memory(&laid(mode, &program, jump_zero(0, 1, 9)), &LINES);
        let mut ram = Ram::new(&mut bytes);
        let file = started(&rt, mode, 2, &mut ram);
        check_at(&rt, &file, mode, 36, 0);
    }
}

// In word 31 of line 0, where no instruction register names line 1.
#[test]
fn no_next_line(rt: HostRuntime) {
    for word in [
        0,
        swi(5, 5, 5, 5),
        fetch(1, 0, 32, 0),
        jump_not_zero(0, 1, 9),
        load(U8, 5, 0, 128),
        dup(U16, 5, 0),
    ] {
        for (mode, user) in [(Mode::User, 124), (Mode::Supervisor, 0)] {
            let program = [fetch(0, 0, 32, 0), jump_zero(0, 1, 31)];
            let mut bytes = memory(&laid(mode, &program, word), &LINES);
            let mut ram = Ram::new(&mut bytes);
            let mut file = started(&rt, mode, 2, &mut ram);
            check_enters(&rt, &mut file, Exception::NextLine, &mut ram);
            check_at(&rt, &file, Mode::Supervisor, 0, 0x15);
            check_code(&rt, &file, 63, user);
            check_code(&rt, &file, 1, 0);
            check_code(&rt, &file, 65, 0);
            check_swiargs(&rt, &file, [[0; 128]; 4]);
            assert_eq!(rt;
                file.show_data(69).map(|data| data.register),
                Ok(DataRegister {
                    address: 0,
                    kind: U8
                })
            );
            assert_eq!(rt; file.flush(&mut ram), Ok(0));
        }
    }
}

#[test]
fn no_next_line_for_the_supervisors_own(rt: HostRuntime) {
    for word in [
        hand(63, 9),
        copy_in(Special::Xct, 5),
        copy_out(Special::Swiarg0, 5),
    ] {
        let program = [jump_zero(0, 1, 31)];
        let mut bytes = memory(&laid(Mode::Supervisor, &program, word), &LINES);
        let mut ram = Ram::new(&mut bytes);
        let mut file = started(&rt, Mode::Supervisor, 1, &mut ram);
        check_enters(&rt, &mut file, Exception::NextLine, &mut ram);
        check_at(&rt, &file, Mode::Supervisor, 0, 0x15);
        check_code(&rt, &file, 63, 0);
        assert_eq!(rt; file.flush(&mut ram), Ok(0));
    }
}

// The interrupt comes before the word is decoded, here an undefined one.
#[test]
fn an_interrupt(rt: HostRuntime) {
    let program = [hand(63, 4), reti(), 0, 0, 0xFFFF_FFFF];
    let mut bytes = memory(&laid(Mode::Supervisor, &program, 0), &LINES);
    let mut ram = Ram::new(&mut bytes);
    let mut file = started(&rt, Mode::Supervisor, 2, &mut ram);
    assert_eq!(rt; file.pin(true), Ok(()));
    check_ie(&rt, &file, true);
    check_enters(&rt, &mut file, Exception::Interrupt, &mut ram);
    check_at(&rt, &file, Mode::Supervisor, 0, 0);
    check_code(&rt, &file, 63, 16);
    check_ie(&rt, &file, false);
    assert_eq!(rt; file.show_rest().map(|rest| rest.pin), Ok(true));
    check_done(&rt, &mut file, &mut ram);
    check_at(&rt, &file, Mode::Supervisor, 4, 0);
}

// With the pin down, or with ie 0, or in supervisor mode, no interrupt enters.
#[test]
fn no_interrupt(rt: HostRuntime) {
    for (word, pin) in [(reti(), false), (retx(), true)] {
        let program = [hand(63, 4), word];
        let mut bytes = memory(&laid(Mode::Supervisor, &program, 0), &LINES);
        let mut ram = Ram::new(&mut bytes);
        let mut file = started(&rt, Mode::Supervisor, 2, &mut ram);
        assert_eq!(rt; file.pin(pin), Ok(()));
        check_done(&rt, &mut file, &mut ram);
        check_at(&rt, &file, Mode::User, 20, 0);
    }
    let program = [load(U8, 5, 0, 128), copy_in(Special::Ie, 5), 0];
    let mut bytes = memory(&laid(Mode::Supervisor, &program, 0), &LINES);
    let mut ram = Ram::new(&mut bytes);
    let mut file = started(&rt, Mode::Supervisor, 2, &mut ram);
    assert_eq!(rt; file.pin(true), Ok(()));
    check_ie(&rt, &file, true);
    check_done(&rt, &mut file, &mut ram);
    check_at(&rt, &file, Mode::Supervisor, 12, 0);
    check_ie(&rt, &file, true);
}

// With a next line, swi in word 31 moves the user's ipc there; the supervisor's goes on to address 0.
#[test]
fn a_software_interrupt_in_word_31(rt: HostRuntime) {
    for (mode, user) in [(Mode::User, 128), (Mode::Supervisor, 0)] {
        let program = [fetch(1, 0, 32, 0), jump_zero(0, 63, 31)];
        let mut bytes = memory(&laid(mode, &program, swi(0, 0, 0, 0)), &LINES);
        let mut ram = Ram::new(&mut bytes);
        let mut file = started(&rt, mode, 2, &mut ram);
        check_enters(&rt, &mut file, Exception::Software, &mut ram);
        check_at(&rt, &file, Mode::Supervisor, 0, 4);
        check_word(&rt, &file, 127, 31, swi(0, 0, 0, 0));
        check_code(&rt, &file, 63, user);
    }
}

// ipc runs its own words, whatever is written to their line, and an entry copies them.
#[test]
fn ipc_keeps_its_words(rt: HostRuntime) {
    for mode in MODES {
        let program = [dup(U8, 5, 0), load(U16, 6, 0, 128), 0xFFFF_FFFF];
        let mut bytes = memory(&laid(mode, &program, 0), &LINES);
        let mut ram = Ram::new(&mut bytes);
        let mut file = started(&rt, mode, 2, &mut ram);
        check_data(&rt, &file, number(mode, 5), (0, U8, [0; 128]));
        check_data(&rt, &file, number(mode, 6), (128, U16, [1; 128]));
        check_enters(&rt, &mut file, Exception::Undefined, &mut ram);
        check_at(&rt, &file, Mode::Supervisor, 0, 2);
        check_word(&rt, &file, 127, 31, 0);
        assert_eq!(rt; file.flush(&mut ram), Ok(1));
    }
}
