// Fuse: a layer that makes the lines below a number unwritable.
ghost use Rattle.store.specs.Kinds.{fuse};
ghost use Rattle.store.specs.Sounds.{fuse_sound};

use crate::fault::LineFault;
use crate::store::Store;

#[derive(Drop)]
pub struct Fuse<S> {
    pub below: u32,
    pub under: S,
}

impl<S: Store> Store for Fuse<S> {
    ghost meaning = { λ s. fuse s.below (S.meaning s.under) };

    fn size(&self) -> u32 {
        self.under.size()
    }

    fn writable(&self, line: u32) -> bool {
        line >= self.below && self.under.writable(line)
    }

    fn read(&self, line: u32, out: &mut [u8; 128]) -> Result<(), LineFault> {
        self.under.read(line, out)
    }

    fn write(&mut self, line: u32, bytes: &[u8; 128]) -> Result<(), LineFault> {
        if line < self.below {
            return Err(self.refuse(line));
        }
        self.under.write(line, bytes)
    }

    ghost sound = { λ s. fuse_sound s.below (S.meaning s.under) (S.sound s.under) };
}
