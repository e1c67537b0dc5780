// RAM over bytes that a caller lent.
ghost use Rattle.std.specs.Prelude.{◌≡◌, ◌<◌, []};
ghost use Rattle.store.specs.Kinds.{ram, whole_lines};
ghost use Rattle.store.specs.Meaning.{with_line};
ghost use Rattle.store.specs.Sounds.{ram_sound};

use crate::fault::LineFault;
use crate::store::{MOST_LINES, Store};

#[derive(Drop)]
pub struct Ram<'a> {
    bytes: &'a mut [u8],
}

impl<'a> Ram<'a> {
    // The store holds the very loan, so its caller knows the bytes again once it ends.
    pub fn new(bytes: &'a mut [u8]) -> Self
        ensures { result.bytes ≡ bytes.entry }
    {
        Ram { bytes }
    }

    // Moves the RAM out of its place, to be layered, and leaves RAM of no lines there. Put back, it
    // holds the loan again, so the lender knows its bytes through the layers too.
    pub fn take(&mut self) -> Ram<'a>
        ensures { (result ≡ self.old) × (self.new.bytes.now ≡ []) }
    {
        std::mem::replace(self, Ram { bytes: &mut [] })
    }

    // Replaces the bytes of a line that is there. Lines are slices at their places, here and where they
    // are read: std says nothing of what a slice holds once it was written through `as_chunks_mut`.
    fn put(&mut self, line: u32, new: &[u8; 128])
        requires { line < whole_lines self.old.bytes.now }
        ensures { ram self.new.bytes.ghost_name self.new.bytes.now ≡ with_line (ram self.old.bytes.ghost_name self.old.bytes.now) line new.now }
    {
        let at = 128 * line as usize;
        self.bytes[at..at + 128].copy_from_slice(new);
    }
}

impl<'a> Store for Ram<'a> {
    ghost meaning = { λ s. ram s.bytes.ghost_name s.bytes.now };

    fn size(&self) -> u32 {
        (self.bytes.len() / 128).min(MOST_LINES as usize) as u32
    }

    fn writable(&self, line: u32) -> bool {
        line < self.size()
    }

    fn read(&self, line: u32, out: &mut [u8; 128]) -> Result<(), LineFault> {
        self.find(line)?;
        let at = 128 * line as usize;
        out.copy_from_slice(&self.bytes[at..at + 128]);
        Ok(())
    }

    fn write(&mut self, line: u32, bytes: &[u8; 128]) -> Result<(), LineFault> {
        self.admit(line)?;
        self.put(line, bytes);
        Ok(())
    }

    ghost sound = { λ s. ram_sound s.bytes.ghost_name s.bytes.now };
}
