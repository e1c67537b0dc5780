// A change for the tests.
ghost use Rattle.std.specs.Prelude.{set};
ghost use Rattle.file_tests.specs.Laws.{poked};

use tags::Change;

// The first byte of a line is written.
#[derive(Drop)]
pub struct Poke(pub u8);

impl Change for Poke {
    ghost changed = { λ s b. set b 0 s.0 };

    fn change(&self, bytes: &mut [u8; 128]) {
        bytes[0] = self.0;
    }

    ghost whole = { λ s b h. poked 0 s.0 b h };
}
