// The element that a register shows, and changes of the bytes of a register's line.
ghost use Rattle.std.specs.Prelude.{◌≡◌, length, pos};
ghost use Rattle.word.specs.Types.{width};
ghost use Rattle.line.specs.Elements.{put as replaced};
ghost use Rattle.line.specs.Places.{element_number};
ghost use Rattle.store.specs.Meaning.{Meaning};
ghost use Rattle.flat.specs.Data.{shown_element, write, write_element};
ghost use Rattle.file.specs.Data.{stands};

use file::DataRegisters;
use flat::DataRegister;
use line::{Place, get, put};
use tags::{Change, Register};
use word::ElementType;

// A number is written, cast, to the element at a place.
#[derive(Drop)]
struct PutElement {
    kind: ElementType,
    place: Place,
    z: i128,
}

impl Change for PutElement {
    ghost use Rattle.engine.specs.Lengths.{put_whole};

    ghost changed = { λ s b. replaced (width s.kind) b (element_number s.kind s.place) s.z };

    fn change(&self, bytes: &mut [u8; 128]) {
        put(bytes, self.kind, self.place, self.z)
    }

    ghost whole = { λ s b h. put_whole s.kind s.place s.z b h };
}

// The whole line is replaced.
#[derive(Drop)]
struct Replaced<'a> {
    bytes: &'a [u8; 128],
    ghost sized: { length bytes.now ≡ 128 },
}

impl<'a> Change for Replaced<'a> {
    ghost changed = { λ s b. s.bytes.now };

    fn change(&self, bytes: &mut [u8; 128]) {
        *bytes = *self.bytes;
    }

    ghost whole = { λ s b h. s.sized };
}

// The element that a register shows.
pub(crate) fn element(registers: &DataRegisters, register: Register) -> i128
    ensures { (m : Meaning) → result ≡ shown_element (stands registers.now m) register.number }
{
    let DataRegister { address, kind } = registers.register(register);
    get(registers.bytes(register), kind, Place::from(address))
}

// Writes a number, cast, to a register's element.
#[tactic(auto, unfolding(flat::specs::Data::write_element))]
pub(crate) fn put_element(registers: &mut DataRegisters, register: Register, z: i128)
    ensures { stands registers.new ≡ (λ m. write_element register.number z (stands registers.old m)) }
{
    let DataRegister { address, kind } = registers.register(register);
    let place = Place::from(address);
    registers.write(register, &PutElement { kind, place, z });
}

// Writes a lane to a register's element.
#[tactic(auto, using(scalar::proofs::Casts::passed_on))]
pub(crate) fn put_lane(registers: &mut DataRegisters, register: Register, lane: u64)
    ensures { stands registers.new ≡ (λ m. write_element register.number (pos lane) (stands registers.old m)) }
{
    put_element(registers, register, i128::from(lane));
}

// Writes a register's whole line.
pub(crate) fn put_line(registers: &mut DataRegisters, register: Register, bytes: &[u8; 128])
    ensures { stands registers.new ≡ (λ m. write register.number bytes.now (stands registers.old m)) }
{
    registers.write(register, &Replaced { bytes });
}
