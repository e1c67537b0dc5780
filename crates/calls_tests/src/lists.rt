// Lists of calls.
use crate::rig::{BLANK, NO_LINE, done, memory};
use calls::{File, Trails, history};
use flat::{Answer, Call, Control, DataRegister, Mode, Ran, Refusal, ShownData, Slots, Stepped};
use store::Ram;
use trail::Trail;
use word::ElementType::U8;

// What a slot holds that got no answer.
const UNANSWERED: Result<Answer, Refusal> = Ok(Answer::Halted(NO_LINE));

fn is_cold(file: &File) -> bool {
    match file {
        File::Cold => true,
        File::Warm(_) => false,
    }
}

#[test]
fn every_call_and_every_refusal(rt: HostRuntime) {
    let calls = [
        Call::Step,
        Call::Run(0),
        Call::Trace {
            limit: 1,
            most: Slots { steps: 1, lines: 1 },
        },
        Call::Pin(true),
        Call::ShowData(200),
        Call::ShowInstruction(0),
        Call::ShowRest,
        Call::Flush,
        Call::Halt,
        Call::Boot,
        Call::Boot,
        Call::ShowData(128),
        Call::ShowInstruction(128),
        Call::Run(1_000_001),
        Call::Step,
        Call::Trace {
            limit: 9,
            most: Slots { steps: 3, lines: 9 },
        },
        Call::Trace {
            limit: 1_000_001,
            most: Slots { steps: 3, lines: 9 },
        },
        Call::Pin(true),
        Call::ShowRest,
        Call::ShowData(69),
        Call::Flush,
        Call::Run(2),
        Call::Halt,
        Call::Flush,
    ];
    let mut answer_slots = [UNANSWERED; 24];
    let mut step_slots = [BLANK; 5];
    let mut line_slots = [NO_LINE; 2];
    let mut bytes = memory();
    let mut ram = Ram::new(&mut bytes);
    let mut answers = Trail::new(&mut answer_slots);
    let mut trails = Trails {
        steps: Trail::new(&mut step_slots),
        lines: Trail::new(&mut line_slots),
    };
    let file = history(&calls, &mut answers, &mut trails, &mut ram);
    assert_eq!(rt; is_cold(&file), true);
    let two = Ran {
        steps: 2,
        last: Stepped::Done,
    };
    let three = Ran {
        steps: 3,
        last: Stepped::Done,
    };
    let control = Control {
        mode: Mode::Supervisor,
        ie: false,
        xct: 0,
        swiargs: [[0; 128]; 4],
        pin: true,
    };
    let shown = ShownData {
        register: DataRegister {
            address: 256,
            kind: U8,
        },
        bytes: [0; 128],
    };
    assert_eq!(rt;
        answer_slots,
        [
            Err(Refusal::Cold),
            Err(Refusal::Cold),
            Err(Refusal::Cold),
            Err(Refusal::Cold),
            Err(Refusal::Cold),
            Err(Refusal::Cold),
            Err(Refusal::Cold),
            Err(Refusal::Cold),
            Err(Refusal::Cold),
            Ok(Answer::Booted),
            Err(Refusal::Warm),
            Err(Refusal::NoRegister),
            Err(Refusal::NoRegister),
            Err(Refusal::OverLimit),
            Ok(Answer::Stepped(Stepped::Done)),
            Ok(Answer::Traced {
                ran: three,
                sent: 1
            }),
            Err(Refusal::OverLimit),
            Ok(Answer::Pinned),
            Ok(Answer::Rest(control)),
            Ok(Answer::Data(shown)),
            Ok(Answer::Flushed(1)),
            Ok(Answer::Ran(two)),
            Ok(Answer::Halted(0)),
            Err(Refusal::Cold),
        ]
    );
    assert_eq!(rt; step_slots, [done(1), done(2), done(3), BLANK, BLANK]);
    assert_eq!(rt; line_slots, [1, NO_LINE]);
    let zeros: [u8; 256] = [0; 256];
    assert_eq!(rt; bytes.get(128..384), Some(&zeros[..]));
    assert_eq!(rt; bytes.get(384), Some(&1));
}

#[test]
fn no_lines(rt: HostRuntime) {
    let mut answer_slots = [UNANSWERED; 1];
    let mut bytes = [0; 100];
    let mut ram = Ram::new(&mut bytes);
    let mut answers = Trail::new(&mut answer_slots);
    let mut trails = Trails {
        steps: Trail::new(&mut []),
        lines: Trail::new(&mut []),
    };
    let file = history(&[Call::Boot], &mut answers, &mut trails, &mut ram);
    assert_eq!(rt; is_cold(&file), true);
    assert_eq!(rt; answer_slots, [Err(Refusal::NoLines)]);
}

// Calls whose answers have no space are not made.
#[test]
fn no_space_for_answers(rt: HostRuntime) {
    let mut answer_slots = [UNANSWERED; 2];
    let mut bytes = memory();
    let mut ram = Ram::new(&mut bytes);
    let mut answers = Trail::new(&mut answer_slots);
    let mut trails = Trails {
        steps: Trail::new(&mut []),
        lines: Trail::new(&mut []),
    };
    let calls = [Call::Boot, Call::Run(2), Call::Halt];
    let file = history(&calls, &mut answers, &mut trails, &mut ram);
    assert_eq!(rt; is_cold(&file), false);
    let two = Ran {
        steps: 2,
        last: Stepped::Done,
    };
    assert_eq!(rt; answer_slots, [Ok(Answer::Booted), Ok(Answer::Ran(two))]);
    assert_eq!(rt; bytes, memory());
}

// Steps 1 to 4 of the program, traced in two pieces that share their trails: the second gets what is left.
#[test]
fn traces_share_their_trails(rt: HostRuntime) {
    let mut answer_slots = [UNANSWERED; 3];
    let mut step_slots = [BLANK; 3];
    let mut line_slots = [NO_LINE; 9];
    let mut bytes = memory();
    let mut ram = Ram::new(&mut bytes);
    let mut answers = Trail::new(&mut answer_slots);
    let mut trails = Trails {
        steps: Trail::new(&mut step_slots),
        lines: Trail::new(&mut line_slots),
    };
    let half = Call::Trace {
        limit: 2,
        most: Slots { steps: 9, lines: 9 },
    };
    history(
        &[Call::Boot, half, half],
        &mut answers,
        &mut trails,
        &mut ram,
    );
    let one = Ran {
        steps: 1,
        last: Stepped::Done,
    };
    assert_eq!(rt;
        answer_slots.get(2),
        Some(&Ok(Answer::Traced { ran: one, sent: 1 }))
    );
    assert_eq!(rt; step_slots, [done(0), done(1), done(2)]);
    assert_eq!(rt; line_slots.first(), Some(&1));
}
