// The call trace.
use crate::rig::{BLANK, NO_LINE, done, memory};
use calls::{File, MOST_STEPS, Trails};
use flat::{Exception, Mode, Ran, Refusal, Slots, StepRecord, Stepped};
use store::Ram;
use trail::Trail;

fn ran(steps: u32) -> Result<Ran, Refusal> {
    Ok(Ran {
        steps,
        last: Stepped::Done,
    })
}

#[test]
fn a_trail_of_steps_is_filled(rt: HostRuntime) {
    let mut bytes = memory();
    let mut ram = Ram::new(&mut bytes);
    let mut file = File::Cold;
    assert_eq!(rt; file.boot(&ram), Ok(()));
    let mut step_slots = [BLANK; 3];
    let mut line_slots = [NO_LINE; 3];
    let mut trails = Trails {
        steps: Trail::new(&mut step_slots),
        lines: Trail::new(&mut line_slots),
    };
    assert_eq!(rt; file.trace(9, &mut trails, &mut ram), ran(3));
    assert_eq!(rt; trails.steps.space(), 0);
    assert_eq!(rt; file.trace(9, &mut trails, &mut ram), ran(0));
    assert_eq!(rt; step_slots, [done(0), done(1), done(2)]);
    assert_eq!(rt; line_slots, [1, NO_LINE, NO_LINE]);
}

#[test]
fn a_trail_of_lines_is_filled(rt: HostRuntime) {
    let mut bytes = memory();
    let mut ram = Ram::new(&mut bytes);
    let mut file = File::Cold;
    assert_eq!(rt; file.boot(&ram), Ok(()));
    let mut step_slots = [BLANK; 8];
    let mut line_slots = [NO_LINE; 2];
    let mut trails = Trails {
        steps: Trail::new(&mut step_slots),
        lines: Trail::new(&mut line_slots),
    };
    assert_eq!(rt; file.trace(9, &mut trails, &mut ram), ran(5));
    assert_eq!(rt; trails.steps.space(), 3);
    assert_eq!(rt; trails.lines.space(), 0);
    assert_eq!(rt; file.trace(9, &mut trails, &mut ram), ran(0));
    assert_eq!(rt;
        step_slots,
        [
            done(0),
            done(1),
            done(2),
            done(3),
            done(4),
            BLANK,
            BLANK,
            BLANK
        ]
    );
    assert_eq!(rt; line_slots, [1, 2]);
}

#[test]
fn no_more_slots_than_asked(rt: HostRuntime) {
    let mut bytes = memory();
    let mut ram = Ram::new(&mut bytes);
    let mut file = File::Cold;
    assert_eq!(rt; file.boot(&ram), Ok(()));
    let mut step_slots = [BLANK; 8];
    let mut line_slots = [NO_LINE; 4];
    let mut trails = Trails {
        steps: Trail::new(&mut step_slots),
        lines: Trail::new(&mut line_slots),
    };
    let two = Slots { steps: 2, lines: 9 };
    let one = Slots {
        steps: usize::MAX,
        lines: 1,
    };
    assert_eq!(rt; file.trace_within(9, two, &mut trails, &mut ram), ran(2));
    assert_eq!(rt; file.trace_within(9, one, &mut trails, &mut ram), ran(1));
    assert_eq!(rt; file.trace_within(9, one, &mut trails, &mut ram), ran(2));
    assert_eq!(rt;
        step_slots,
        [
            done(0),
            done(1),
            done(2),
            done(3),
            done(4),
            BLANK,
            BLANK,
            BLANK
        ]
    );
    assert_eq!(rt; line_slots, [1, 2, NO_LINE, NO_LINE]);
}

#[test]
fn a_step_that_enters_is_the_last(rt: HostRuntime) {
    let mut bytes = [0xFF; 256];
    let mut ram = Ram::new(&mut bytes);
    let mut file = File::Cold;
    assert_eq!(rt; file.boot(&ram), Ok(()));
    let mut step_slots = [BLANK; 2];
    let mut line_slots = [NO_LINE; 1];
    let mut trails = Trails {
        steps: Trail::new(&mut step_slots),
        lines: Trail::new(&mut line_slots),
    };
    let last = Stepped::Entered(Exception::Undefined);
    let record = StepRecord {
        mode: Mode::Supervisor,
        address: 0,
        word: 0xFFFF_FFFF,
        answer: last,
    };
    assert_eq!(rt;
        file.trace(9, &mut trails, &mut ram),
        Ok(Ran { steps: 1, last })
    );
    assert_eq!(rt; step_slots, [record, BLANK]);
    assert_eq!(rt; line_slots, [NO_LINE]);
}

#[test]
fn refusals(rt: HostRuntime) {
    let mut bytes = memory();
    let mut ram = Ram::new(&mut bytes);
    let mut file = File::Cold;
    let mut step_slots = [BLANK; 2];
    let mut line_slots = [NO_LINE; 1];
    let mut trails = Trails {
        steps: Trail::new(&mut step_slots),
        lines: Trail::new(&mut line_slots),
    };
    let over = MOST_STEPS + 1;
    assert_eq!(rt; file.trace(over, &mut trails, &mut ram), Err(Refusal::Cold));
    assert_eq!(rt; file.boot(&ram), Ok(()));
    assert_eq!(rt;
        file.trace(over, &mut trails, &mut ram),
        Err(Refusal::OverLimit)
    );
    assert_eq!(rt; file.trace(0, &mut trails, &mut ram), ran(0));
    assert_eq!(rt; step_slots, [BLANK; 2]);
    assert_eq!(rt; line_slots, [NO_LINE]);
    assert_eq!(rt; bytes, memory());
}
