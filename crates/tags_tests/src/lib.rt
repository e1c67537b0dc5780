// A bank at work: which tags registers carry, how many carry each, and what bytes lines have when
// registers go from line to line. Every answer here stands as a number that was written by hand. It
// uses `tags`, `flat` for the modes, and `refusal`.
#![tactic(auto)]

#[cfg(test)]
mod lent;

#[cfg(test)]
mod tests {
    use crate::lent::{Poke, Same};
    use flat::{Mode, Refusal};
    use tags::{Bank, Register};

    fn user(field: u8) -> Register {
        Register::of(Mode::User, field)
    }

    // The number of a register's tag, and how many carry it.
    fn tag(bank: &Bank, register: Register) -> (u8, u8) {
        let tag = bank.tag(register);
        (tag.number(), bank.count(tag))
    }

    // The number of the tag that names a line.
    fn search(bank: &Bank, line: u32) -> Option<u8> {
        bank.search(line).map(|tag| tag.number())
    }

    // The first and the last byte of a register's line.
    fn ends(bank: &Bank, register: Register) -> (u8, u8) {
        let bytes = bank.bytes(bank.tag(register));
        (bytes[0], bytes[127])
    }

    #[test]
    fn registers_are_numbers_below_128(rt: HostRuntime) {
        assert_eq!(rt; Register::try_from(127).map(|r| r.number()), Ok(127));
        assert_eq!(rt;
            Register::try_from(128).map(|r| r.number()),
            Err(Refusal::NoRegister)
        );
        assert_eq!(rt; Register::of(Mode::Supervisor, 5).number(), 69);
        assert_eq!(rt; Register::of(Mode::User, 69).number(), 5);
        assert_eq!(rt; user(0).is_zero(), true);
        assert_eq!(rt; Register::of(Mode::Supervisor, 0).is_zero(), true);
        assert_eq!(rt; user(63).is_zero(), false);
    }

    #[test]
    fn a_bank_starts_with_one_tag(rt: HostRuntime) {
        let bank = Bank::new(&[9; 128]);
        assert_eq!(rt; tag(&bank, user(1)), (1, 126));
        assert_eq!(rt; tag(&bank, Register::of(Mode::Supervisor, 63)), (1, 126));
        assert_eq!(rt; tag(&bank, user(0)), (0, 0));
        assert_eq!(rt; search(&bank, 0), Some(1));
        assert_eq!(rt; search(&bank, 1), None);
        assert_eq!(rt; search(&bank, u32::MAX), None);
        assert_eq!(rt; bank.line(bank.tag(user(1))), Some(0));
        assert_eq!(rt; bank.line(bank.tag(user(0))), None);
        assert_eq!(rt; bank.is_last(user(1)), false);
        assert_eq!(rt; bank.is_last(user(0)), false);
        assert_eq!(rt; ends(&bank, user(1)), (9, 9));
        assert_eq!(rt; ends(&bank, user(0)), (0, 0));
    }

    #[test]
    fn registers_on_one_line_share_a_tag(rt: HostRuntime) {
        let mut bank = Bank::new(&[9; 128]);
        let lines = Same::new([7; 128]);
        bank.move_to(user(5), 130, &lines);
        bank.move_to(user(6), 200, &lines);
        assert_eq!(rt; tag(&bank, user(5)), (2, 2));
        assert_eq!(rt; tag(&bank, user(6)), (2, 2));
        assert_eq!(rt; tag(&bank, user(7)), (1, 124));
        assert_eq!(rt; bank.address(user(5)), 130);
        assert_eq!(rt; ends(&bank, user(6)), (7, 7));
        bank.move_to(user(5), 256, &lines);
        assert_eq!(rt; tag(&bank, user(6)), (2, 1));
        assert_eq!(rt; tag(&bank, user(5)), (3, 1));
        assert_eq!(rt; bank.is_last(user(6)), true);
        bank.move_to(user(6), 0, &lines);
        assert_eq!(rt; tag(&bank, user(6)), (1, 125));
        assert_eq!(rt; search(&bank, 1), None);
        assert_eq!(rt; search(&bank, 2), Some(3));
    }

    #[test]
    fn zero_registers_stay(rt: HostRuntime) {
        let mut bank = Bank::new(&[9; 128]);
        let lines = Same::new([7; 128]);
        bank.move_to(user(0), 256, &lines);
        bank.write(user(0), &Poke::new(0, 5));
        bank.carry(user(0), 256);
        assert_eq!(rt; tag(&bank, user(0)), (0, 0));
        assert_eq!(rt; bank.address(user(0)), 0);
        assert_eq!(rt; search(&bank, 2), None);
        assert_eq!(rt; ends(&bank, user(0)), (0, 0));
    }

    #[test]
    fn writes_are_seen_by_every_register_on_the_line(rt: HostRuntime) {
        let mut bank = Bank::new(&[9; 128]);
        let lines = Same::new([7; 128]);
        bank.move_to(user(5), 128, &lines);
        bank.write(user(1), &Poke::new(127, 3));
        assert_eq!(rt; ends(&bank, user(2)), (9, 3));
        assert_eq!(rt; ends(&bank, user(5)), (7, 7));
    }

    #[test]
    fn a_carried_line_covers_what_lies_there(rt: HostRuntime) {
        let mut bank = Bank::new(&[9; 128]);
        let lines = Same::new([7; 128]);
        bank.move_to(user(5), 128, &lines);
        bank.carry(user(1), 132);
        assert_eq!(rt; tag(&bank, user(1)), (2, 2));
        assert_eq!(rt; bank.address(user(1)), 132);
        assert_eq!(rt; ends(&bank, user(5)), (9, 9));
        bank.write(user(5), &Poke::new(127, 3));
        bank.carry(user(5), 256);
        assert_eq!(rt; tag(&bank, user(5)), (3, 1));
        assert_eq!(rt; search(&bank, 2), Some(3));
        assert_eq!(rt; ends(&bank, user(5)), (9, 3));
        assert_eq!(rt; ends(&bank, user(1)), (9, 3));
        assert_eq!(rt; ends(&bank, user(2)), (9, 9));
        bank.carry(user(5), 260);
        assert_eq!(rt; tag(&bank, user(5)), (3, 1));
        assert_eq!(rt; bank.address(user(5)), 260);
        assert_eq!(rt; ends(&bank, user(5)), (9, 3));
    }

    #[test]
    fn every_register_has_a_line_of_its_own(rt: HostRuntime) {
        let mut bank = Bank::new(&[9; 128]);
        let lines = Same::new([7; 128]);
        for field in 1..64u8 {
            bank.move_to(user(field), 128 * u32::from(field), &lines);
            bank.move_to(
                Register::of(Mode::Supervisor, field),
                128 * u32::from(field) + 8192,
                &lines,
            );
        }
        for field in 1..64u8 {
            assert_eq!(rt; bank.count(bank.tag(user(field))), 1);
            assert_eq!(rt; bank.line(bank.tag(user(field))), Some(u32::from(field)));
        }
        bank.move_to(user(1), u32::MAX, &lines);
        assert_eq!(rt; bank.is_last(user(1)), true);
        assert_eq!(rt; bank.line(bank.tag(user(1))), Some(33_554_431));
    }
}
