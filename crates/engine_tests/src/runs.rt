// The calls step and run: what they answer and refuse.
use crate::rig::{
    LINES, check_at, check_code, check_data, check_stored, dup, hand, laid, load, memory, w,
};
use calls::{File, MOST_STEPS};
use flat::{Exception, Mode, Ran, Refusal, Stepped};
use store::Ram;
use word::ElementType::U8;
use word::Operation;

// The refusal's number, or that there was none.
fn refused<T: Copy>(answer: Result<T, Refusal>) -> Option<u8> {
    match answer {
        Ok(_) => None,
        Err(why) => Some(u8::from(why)),
    }
}

#[test]
fn a_cold_file(rt: HostRuntime) {
    let mut bytes = memory(&[0; 32], &LINES);
    let before = bytes;
    let mut ram = Ram::new(&mut bytes);
    let mut file = File::Cold;
    assert_eq!(rt; refused(file.step(&mut ram)), Some(2));
    assert_eq!(rt; refused(file.run(0, &mut ram)), Some(2));
    assert_eq!(rt; refused(file.run(1_000_001, &mut ram)), Some(2));
    assert_eq!(rt; refused(file.show_rest()), Some(2));
    assert_eq!(rt; bytes, before);
}

#[test]
fn a_run_over_the_limit(rt: HostRuntime) {
    let program = [load(U8, 5, 0, 128), dup(U8, 5, 0)];
    let mut bytes = memory(&laid(Mode::Supervisor, &program, 0), &LINES);
    let mut ram = Ram::new(&mut bytes);
    let mut file = File::Cold;
    assert_eq!(rt; MOST_STEPS, 1_000_000);
    assert_eq!(rt; file.boot(&ram), Ok(()));
    for limit in [1_000_001, u32::MAX] {
        assert_eq!(rt; refused(file.run(limit, &mut ram)), Some(5));
        check_at(&rt, &file, Mode::Supervisor, 0, 0);
        check_data(
            &rt,
            &file,
            69,
            (
                0,
                U8,
                memory(&laid(Mode::Supervisor, &program, 0), &LINES)
                    .first_chunk()
                    .copied()
                    .unwrap_or([0; 128]),
            ),
        );
    }
    check_stored(&rt, &ram, 1, [1; 128]);
    assert_eq!(rt; file.flush(&mut ram), Ok(0));
}

#[test]
fn a_run_of_no_steps(rt: HostRuntime) {
    let mut bytes = memory(&laid(Mode::Supervisor, &[w(Operation::Reti)], 0), &LINES);
    let mut ram = Ram::new(&mut bytes);
    let mut file = File::Cold;
    assert_eq!(rt; file.boot(&ram), Ok(()));
    let ran = Ran {
        steps: 0,
        last: Stepped::Done,
    };
    assert_eq!(rt; file.run(0, &mut ram), Ok(ran));
    check_at(&rt, &file, Mode::Supervisor, 0, 0);
}

// The second example of the page on the machine, and a run of the longest limit.
#[test]
fn zero_lines(rt: HostRuntime) {
    let mut bytes = [0; 32_768];
    let mut ram = Ram::new(&mut bytes);
    let mut file = File::Cold;
    assert_eq!(rt; file.boot(&ram), Ok(()));
    assert_eq!(rt; file.step(&mut ram), Ok(Stepped::Done));
    check_at(&rt, &file, Mode::Supervisor, 4, 0);
    let last = Stepped::Entered(Exception::NextLine);
    assert_eq!(rt; file.run(1000, &mut ram), Ok(Ran { steps: 31, last }));
    check_at(&rt, &file, Mode::Supervisor, 0, 0x15);
    assert_eq!(rt; file.run(1_000_000, &mut ram), Ok(Ran { steps: 32, last }));
    let done = Ran {
        steps: 31,
        last: Stepped::Done,
    };
    assert_eq!(rt; file.run(31, &mut ram), Ok(done));
    check_at(&rt, &file, Mode::Supervisor, 124, 0x15);
    assert_eq!(rt; file.run(1, &mut ram), Ok(Ran { steps: 1, last }));
    assert_eq!(rt; file.flush(&mut ram), Ok(0));
}

// A run goes from the supervisor's words to the user's, and stops where swi enters.
#[test]
fn a_run_through_both_modes(rt: HostRuntime) {
    let (a, b, c, d) = (5, 0, 0, 0);
    let program = [
        hand(63, 5),
        w(Operation::Retx),
        0,
        0,
        0,
        load(U8, 5, 0, 128),
        w(Operation::Swi { a, b, c, d }),
    ];
    let mut bytes = memory(&laid(Mode::Supervisor, &program, 0), &LINES);
    let mut ram = Ram::new(&mut bytes);
    let mut file = File::Cold;
    assert_eq!(rt; file.boot(&ram), Ok(()));
    let last = Stepped::Entered(Exception::Software);
    assert_eq!(rt; file.run(100, &mut ram), Ok(Ran { steps: 4, last }));
    check_at(&rt, &file, Mode::Supervisor, 0, 4);
    check_code(&rt, &file, 63, 28);
    check_data(&rt, &file, 5, (128, U8, [1; 128]));
}
