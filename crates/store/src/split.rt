// Split: a layer that sets one store's lines after another's.
ghost use Rattle.store.specs.Kinds.{split};
ghost use Rattle.store.specs.Sounds.{split_sound};

use crate::fault::LineFault;
use crate::store::{MOST_LINES, Store};

#[derive(Drop)]
pub struct Split<S, T> {
    pub low: S,
    pub high: T,
}

impl<S: Store, T: Store> Store for Split<S, T> {
    ghost meaning = { λ s. split (S.meaning s.low) (T.meaning s.high) };

    fn size(&self) -> u32 {
        self.low
            .size()
            .saturating_add(self.high.size())
            .min(MOST_LINES)
    }

    fn writable(&self, line: u32) -> bool {
        if line >= MOST_LINES {
            return false;
        }
        // each question picks low or high by itself, since a write borrows them mutably
        let first = self.low.size();
        if line < first {
            self.low.writable(line)
        } else {
            self.high.writable(line - first)
        }
    }

    fn read(&self, line: u32, out: &mut [u8; 128]) -> Result<(), LineFault> {
        self.find(line)?;
        let first = self.low.size();
        if line < first {
            self.low.read(line, out)
        } else {
            self.high.read(line - first, out)
        }
    }

    fn write(&mut self, line: u32, bytes: &[u8; 128]) -> Result<(), LineFault> {
        self.find(line)?;
        let first = self.low.size();
        if line < first {
            return self.low.write(line, bytes);
        }
        self.high
            .write(line - first, bytes)
            .map_err(|fault| LineFault { line, ..fault })
    }

    ghost sound = { λ s. split_sound (S.meaning s.low) (T.meaning s.high) (S.sound s.low) (T.sound s.high) };
}
