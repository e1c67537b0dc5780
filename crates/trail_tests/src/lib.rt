// Trails at work on two kinds of record, a number and a struct: what a caller knows of its slots
// once the trail has ended, and short runs. It uses `trail`.
#![tactic(auto)]

ghost use Rattle.std.specs.Prelude.{◌≡◌, ◌<◌, min, [], ◌∷◌, length, take, MatchResult};
ghost use Rattle.trail.specs.Trails.{filled};

use trail::{FullTrail, Trail};

// A record of several fields.
#[derive(Clone, Copy, PartialEq, Debug)]
struct Sent {
    line: u32,
    first: u8,
}

// Keeps as many of the numbers as there are slots for.
fn keep(slots: &mut [u32], numbers: &[u32]) -> usize
    ensures count { result ≡ min (length slots.old) (length numbers.now) }
    ensures slots { slots.new ≡ filled slots.old (take result numbers.now) }
{
    let mut trail = Trail::new(slots);
    trail.add_all(numbers)
}

// Sends one record; with no slot at all it is refused and nothing changes.
fn send(slots: &mut [Sent], sent: Sent) -> Result<(), FullTrail>
    ensures { MatchResult result (λ _. (0 < length slots.old) × (slots.new ≡ filled slots.old (sent ∷ []))) (λ _. (length slots.old ≡ 0) × (slots.new ≡ slots.old)) }
{
    let mut trail = Trail::new(slots);
    trail.add(sent)
}

#[cfg(test)]
mod tests {
    use super::*;

    #[test]
    fn an_empty_slice_is_full_at_once(rt: HostRuntime) {
        let mut slots: [u32; 0] = [];
        let mut trail = Trail::new(&mut slots);
        assert_eq!(rt; trail.space(), 0);
        assert_eq!(rt; trail.add(7), Err(FullTrail));
    }

    #[test]
    fn a_full_trail_refuses_and_keeps_its_slots(rt: HostRuntime) {
        let mut slots = [0u32; 2];
        let mut trail = Trail::new(&mut slots);
        assert_eq!(rt; trail.add(5), Ok(()));
        assert_eq!(rt; trail.space(), 1);
        assert_eq!(rt; trail.add(6), Ok(()));
        assert_eq!(rt; trail.add(7), Err(FullTrail));
        assert_eq!(rt; slots, [5, 6]);
    }

    #[test]
    fn records_come_in_order(rt: HostRuntime) {
        let mut slots = [9u32; 4];
        let mut trail = Trail::new(&mut slots);
        assert_eq!(rt; trail.records().len(), 0);
        assert_eq!(rt; trail.add_all(&[1, 2]), 2);
        assert_eq!(rt; trail.add(3), Ok(()));
        assert_eq!(rt; trail.records(), [1, 2, 3].as_slice());
        assert_eq!(rt; slots, [1, 2, 3, 9]);
    }

    #[test]
    fn what_does_not_fit_is_left(rt: HostRuntime) {
        let mut slots = [0u32; 2];
        assert_eq!(rt; keep(&mut slots, &[1, 2, 3]), 2);
        assert_eq!(rt; slots, [1, 2]);
    }

    #[test]
    fn a_struct_is_a_record_too(rt: HostRuntime) {
        let unsent = Sent { line: 0, first: 0 };
        let sent = Sent {
            line: 4,
            first: 0x21,
        };
        let mut slots = [unsent, unsent];
        assert_eq!(rt; send(&mut slots, sent), Ok(()));
        assert_eq!(rt; slots, [sent, unsent]);
    }
}
