// Open bus: lines with nothing behind them.
ghost use Rattle.std.specs.Prelude.{◌≡◌};
ghost use Rattle.store.specs.Kinds.{open_bus};
ghost use Rattle.store.specs.Sounds.{open_sound};

use crate::fault::LineFault;
use crate::store::{MOST_LINES, Store};

#[derive(Clone, Copy)]
pub struct OpenBus {
    lines: u32,
}

impl OpenBus {
    pub fn new(lines: u32) -> Self
        ensures { result.lines ≡ lines }
    {
        OpenBus { lines }
    }
}

impl Store for OpenBus {
    ghost meaning = { λ s. open_bus s.lines };

    fn size(&self) -> u32 {
        self.lines.min(MOST_LINES)
    }

    fn writable(&self, _line: u32) -> bool {
        false
    }

    #[tactic(auto, unfolding(crate::specs::Kinds::filled))]
    fn read(&self, line: u32, out: &mut [u8; 128]) -> Result<(), LineFault> {
        self.find(line)?;
        out.fill(0xFF);
        Ok(())
    }

    // as ROM refuses: a layer for what cannot be written would be longer than two such answers
    fn write(&mut self, line: u32, _bytes: &[u8; 128]) -> Result<(), LineFault> {
        Err(self.refuse(line))
    }

    ghost sound = { λ s. open_sound s.lines };
}
