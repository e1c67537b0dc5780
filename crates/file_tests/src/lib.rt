// The file at work: what its calls answer and refuse, what they leave in the store, and what registers
// show. Every answer here stands as a number that was written by hand. It uses `calls` and `file`, `store`
// for what the file is handed, and `tags`, `flat` and `word` for what it is told and answers.
#![tactic(auto)]

#[cfg(test)]
mod poke;

#[cfg(test)]
mod tests {
    use crate::poke::Poke;
    use calls::File;
    use file::{DataRegisters, InstructionRegisters, Machine};
    use flat::{Control, DataRegister, Exception, Mode, Refusal, ShownData, ShownInstruction};
    use store::{OpenBus, Ram, Rom, Store};
    use tags::Register;
    use word::ElementType;

    fn user(field: u8) -> Register {
        Register::of(Mode::User, field)
    }

    fn supervisor(field: u8) -> Register {
        Register::of(Mode::Supervisor, field)
    }

    fn at(address: u32) -> DataRegister {
        DataRegister {
            address,
            kind: ElementType::U32,
        }
    }

    // Of eight lines, each of its number and 128 times over.
    fn numbered() -> [u8; 1024] {
        std::array::from_fn(|k| (k / 128) as u8)
    }

    // The refusal's number, or that there was none.
    fn refused<T: Copy>(answer: Result<T, Refusal>) -> Option<u8> {
        match answer {
            Ok(_) => None,
            Err(why) => Some(u8::from(why)),
        }
    }

    // The first byte of a line of a store.
    fn stored<S: Store>(store: &S, line: u32) -> Option<u8> {
        let mut out = [0; 128];
        match store.read(line, &mut out) {
            Ok(()) => Some(out[0]),
            Err(_) => None,
        }
    }

    // The first byte that a data register shows.
    fn shown(file: &File, number: u8) -> Option<u8> {
        match file.show_data(number) {
            Ok(data) => Some(data.bytes[0]),
            Err(_) => None,
        }
    }

    #[test]
    fn a_cold_file_refuses_all_but_boot(rt: HostRuntime) {
        let mut bytes = numbered();
        let mut ram = Ram::new(&mut bytes);
        let mut file = File::Cold;
        assert_eq!(rt; refused(file.pin(true)), Some(2));
        assert_eq!(rt; refused(file.show_data(5)), Some(2));
        assert_eq!(rt; refused(file.show_data(128)), Some(2));
        assert_eq!(rt; refused(file.show_instruction(5)), Some(2));
        assert_eq!(rt; refused(file.show_instruction(255)), Some(2));
        assert_eq!(rt; refused(file.show_rest()), Some(2));
        assert_eq!(rt; refused(file.flush(&mut ram)), Some(2));
        assert_eq!(rt; refused(file.halt(&mut ram)), Some(2));
        assert_eq!(rt; file.machine().is_err(), true);
        assert_eq!(rt; bytes, numbered());
    }

    #[test]
    fn boot_is_refused(rt: HostRuntime) {
        let bytes = numbered();
        let mut file = File::Cold;
        assert_eq!(rt; refused(file.boot(&OpenBus::new(0))), Some(1));
        assert_eq!(rt; refused(file.show_rest()), Some(2));
        assert_eq!(rt; refused(file.boot(&Rom::new(&bytes))), None);
        assert_eq!(rt; refused(file.pin(true)), None);
        assert_eq!(rt; refused(file.boot(&OpenBus::new(0))), Some(3));
        assert_eq!(rt; refused(file.boot(&OpenBus::new(1))), Some(3));
        assert_eq!(rt; file.show_rest().map(|rest| rest.pin), Ok(true));
        assert_eq!(rt; shown(&file, 5), Some(0));
    }

    #[test]
    fn show_has_128_registers_of_a_kind(rt: HostRuntime) {
        let mut file = File::Cold;
        assert_eq!(rt; refused(file.boot(&OpenBus::new(1))), None);
        let register = DataRegister {
            address: 0,
            kind: ElementType::U8,
        };
        let none = ShownData {
            register,
            bytes: [0; 128],
        };
        let ones = ShownData {
            register,
            bytes: [0xFF; 128],
        };
        for (number, data) in [(0, none), (64, none), (5, ones), (127, ones)] {
            assert_eq!(rt; file.show_data(number), Ok(data));
        }
        for (number, word) in [(0, 0), (64, 0), (5, 0xFFFF_FFFF), (127, 0xFFFF_FFFF)] {
            let words = [word; 32];
            assert_eq!(rt;
                file.show_instruction(number),
                Ok(ShownInstruction { address: 0, words })
            );
        }
        for number in [128, 255] {
            assert_eq!(rt; refused(file.show_data(number)), Some(4));
            assert_eq!(rt; refused(file.show_instruction(number)), Some(4));
        }
    }

    #[test]
    fn the_rest_starts_blank_and_the_pin_moves(rt: HostRuntime) {
        let mut file = File::Cold;
        assert_eq!(rt; refused(file.boot(&OpenBus::new(1))), None);
        let blank = Control {
            mode: Mode::Supervisor,
            ie: false,
            xct: 0,
            swiargs: [[0; 128]; 4],
            pin: false,
        };
        assert_eq!(rt; file.show_rest(), Ok(blank));
        assert_eq!(rt; file.pin(true), Ok(()));
        assert_eq!(rt; file.show_rest(), Ok(Control { pin: true, ..blank }));
        assert_eq!(rt; file.pin(false), Ok(()));
        assert_eq!(rt; file.show_rest(), Ok(blank));
    }

    #[test]
    fn an_entry_leaves_user_mode(rt: HostRuntime) {
        let bytes = numbered();
        let rom = Rom::new(&bytes);
        let mut machine = Machine::new(&rom);
        machine.control.mode = Mode::User;
        machine.control.ie = true;
        machine.take_line(user(63), 260, &rom);
        machine.take_line(supervisor(63), 388, &rom);
        machine.enter(Exception::Software, &rom);
        assert_eq!(rt; machine.control.mode, Mode::Supervisor);
        assert_eq!(rt; machine.control.ie, true);
        assert_eq!(rt; machine.control.xct, 4);
        assert_eq!(rt; machine.instructions.address(user(63)), 260);
        assert_eq!(rt; machine.instructions.bytes(user(63))[0], 2);
        assert_eq!(rt; machine.instructions.address(supervisor(63)), 0);
        assert_eq!(rt; machine.instructions.bytes(supervisor(63))[0], 0);
        machine.control.mode = Mode::User;
        machine.enter(Exception::Interrupt, &rom);
        assert_eq!(rt; machine.control.mode, Mode::Supervisor);
        assert_eq!(rt; machine.control.ie, false);
        assert_eq!(rt; machine.control.xct, 0);
    }

    #[test]
    fn instruction_registers_take_what_was_written(rt: HostRuntime) {
        let mut bytes = numbered();
        let mut ram = Ram::new(&mut bytes);
        let mut machine = Machine::new(&ram);
        machine.take_line(user(1), 256, &ram);
        machine.registers.move_to(user(5), at(256), &mut ram);
        machine.registers.write(user(5), &Poke(9));
        machine.take_line(user(2), 260, &ram);
        assert_eq!(rt; machine.instructions.bytes(user(2))[0], 2);
        machine.take_line(user(1), 0, &ram);
        machine.take_line(user(2), 0, &ram);
        machine.take_line(user(2), 260, &ram);
        assert_eq!(rt; machine.instructions.bytes(user(2))[0], 9);
        assert_eq!(rt; machine.instructions.address(user(2)), 260);
        assert_eq!(rt; stored(&ram, 2), Some(2));
        machine.take_line(user(0), 256, &ram);
        assert_eq!(rt; machine.instructions.address(user(0)), 0);
        assert_eq!(rt; machine.instructions.bytes(user(0))[0], 0);
    }

    #[test]
    fn every_register_starts_on_one_tag(rt: HostRuntime) {
        let bytes = [7; 128];
        let rom = Rom::new(&bytes);
        let registers = DataRegisters::new(&rom);
        let tag = registers.bank().tag(user(1));
        assert_eq!(rt; registers.bank().count(tag), 126);
        assert_eq!(rt; registers.bank().line(tag), Some(0));
        assert_eq!(rt; registers.bytes(supervisor(63))[127], 7);
        let file = File::Warm(Machine::new(&rom));
        assert_eq!(rt;
            file.machine().map(|machine| machine.control.pin),
            Ok(false)
        );
    }

    #[test]
    fn instruction_registers_start_on_a_line(rt: HostRuntime) {
        let registers = InstructionRegisters::new(&[7; 128]);
        assert_eq!(rt; registers.address(user(1)), 0);
        assert_eq!(rt; registers.bytes(supervisor(63))[127], 7);
        assert_eq!(rt; registers.bytes(user(0))[127], 0);
        assert_eq!(rt; registers.bank().count(registers.bank().tag(user(1))), 126);
    }

    #[test]
    fn the_last_register_sends_its_line_back(rt: HostRuntime) {
        let mut bytes = numbered();
        let mut ram = Ram::new(&mut bytes);
        let mut registers = Machine::new(&ram).registers;
        assert_eq!(rt; registers.move_to(user(5), at(256), &mut ram).sent, None);
        assert_eq!(rt; registers.move_to(user(6), at(300), &mut ram).sent, None);
        registers.write(user(5), &Poke(9));
        assert_eq!(rt; registers.register(user(6)), at(300));
        assert_eq!(rt; registers.bytes(user(6))[0], 9);
        assert_eq!(rt; registers.move_to(user(5), at(384), &mut ram).sent, None);
        assert_eq!(rt; registers.move_to(user(6), at(383), &mut ram).sent, None);
        assert_eq!(rt; stored(&ram, 2), Some(2));
        assert_eq!(rt; registers.move_to(user(6), at(384), &mut ram).sent, Some(2));
        assert_eq!(rt; stored(&ram, 2), Some(9));
        assert_eq!(rt; registers.move_to(user(5), at(0), &mut ram).sent, None);
        assert_eq!(rt; registers.move_to(user(6), at(0), &mut ram).sent, None);
        let mut out = [0; 128];
        registers.read(2, &ram, &mut out);
        assert_eq!(rt; out[0], 9);
    }

    #[test]
    fn zero_registers_write_nothing(rt: HostRuntime) {
        let mut bytes = numbered();
        let mut ram = Ram::new(&mut bytes);
        let mut registers = Machine::new(&ram).registers;
        assert_eq!(rt; registers.move_to(user(0), at(256), &mut ram).sent, None);
        registers.write(user(0), &Poke(9));
        assert_eq!(rt; registers.register(user(0)).address, 0);
        assert_eq!(rt; registers.bytes(user(0))[0], 0);
        assert_eq!(rt; registers.flush(&mut ram), 0);
    }

    #[test]
    fn flush_sends_back_the_lines_of_both_words_of_marks(rt: HostRuntime) {
        let mut bytes = [0; 16_384];
        let mut ram = Ram::new(&mut bytes);
        let mut machine = Machine::new(&ram);
        for field in 1..64u8 {
            machine
                .registers
                .move_to(user(field), at(128 * u32::from(field)), &mut ram);
            machine.registers.move_to(
                supervisor(field),
                at(128 * u32::from(field) + 8192),
                &mut ram,
            );
        }
        machine.registers.write(user(1), &Poke(1));
        machine.registers.write(supervisor(63), &Poke(2));
        let mut file = File::Warm(machine);
        assert_eq!(rt; file.flush(&mut ram), Ok(2));
        assert_eq!(rt; stored(&ram, 1), Some(1));
        assert_eq!(rt; stored(&ram, 127), Some(2));
        assert_eq!(rt; file.flush(&mut ram), Ok(0));
        assert_eq!(rt; shown(&file, 127), Some(2));
    }

    #[test]
    fn halt_sends_back_and_leaves_the_file_cold(rt: HostRuntime) {
        let mut bytes = numbered();
        let mut ram = Ram::new(&mut bytes);
        let mut machine = Machine::new(&ram);
        machine.registers.move_to(user(5), at(256), &mut ram);
        machine.registers.write(user(5), &Poke(8));
        machine.registers.write(user(6), &Poke(9));
        let mut file = File::Warm(machine);
        assert_eq!(rt; file.halt(&mut ram), Ok(2));
        assert_eq!(rt; stored(&ram, 0), Some(9));
        assert_eq!(rt; stored(&ram, 2), Some(8));
        assert_eq!(rt; refused(file.halt(&mut ram)), Some(2));
        assert_eq!(rt; refused(file.boot(&ram)), None);
        assert_eq!(rt; shown(&file, 5), Some(9));
    }

    // A store of two lines in the place of one of eight.
    #[test]
    fn a_smaller_store_loses_lines(rt: HostRuntime) {
        let mut bytes = numbered();
        let mut ram = Ram::new(&mut bytes);
        let mut machine = Machine::new(&ram);
        machine.registers.move_to(user(5), at(128), &mut ram);
        machine.registers.move_to(user(6), at(640), &mut ram);
        machine.registers.write(user(5), &Poke(8));
        machine.registers.write(user(6), &Poke(9));
        let mut few = [7; 256];
        let mut small = Ram::new(&mut few);
        machine.registers.move_to(user(7), at(768), &mut small);
        let mut file = File::Warm(machine);
        assert_eq!(rt; shown(&file, 7), Some(0));
        assert_eq!(rt; shown(&file, 6), Some(9));
        assert_eq!(rt; file.flush(&mut small), Ok(2));
        assert_eq!(rt; stored(&small, 1), Some(8));
        assert_eq!(rt; stored(&small, 5), None);
        assert_eq!(rt; stored(&ram, 5), Some(5));
        assert_eq!(rt; shown(&file, 6), Some(9));
        if let File::Warm(machine) = &mut file {
            machine.registers.write(user(6), &Poke(3));
            let bus = machine.registers.move_to(user(6), at(0), &mut small);
            assert_eq!(rt; bus.sent, Some(5));
            machine.registers.move_to(user(6), at(640), &mut small);
        }
        assert_eq!(rt; shown(&file, 6), Some(0));
        assert_eq!(rt; file.halt(&mut small), Ok(0));
    }
}
