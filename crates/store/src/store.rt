// The interface of every store.
ghost use Rattle.std.specs.Prelude.{◌≡◌};
ghost use Rattle.store.specs.Meaning.{Meaning, Sound};
ghost use Rattle.store.specs.Rules.{Admits, Finds, Reads, Writes, refused};

use crate::fault::{LineFault, LineRefusal};

// No store has more lines.
pub const MOST_LINES: u32 = 33_554_432;

pub trait Store {
    // its size, the bytes of each line, which lines can be written, and what it has to give back
    ghost meaning: { Self → Meaning };

    fn size(&self) -> u32
        ensures { result ≡ (meaning self.now).size };

    fn writable(&self, line: u32) -> bool
        ensures { result ≡ (meaning self.now).canwrite line };

    // Fills `out`, a line record of the caller's, with the line's bytes.
    fn read(&self, line: u32, out: &mut [u8; 128]) -> Result<(), LineFault>
        ensures { Reads (meaning self.now) line out.old result out.new };

    // Replaces the line's bytes.
    fn write(&mut self, line: u32, bytes: &[u8; 128]) -> Result<(), LineFault>
        ensures { Writes (meaning self.old) line bytes.now result (meaning self.new) };

    // Why the store refuses a line that it would not take.
    fn refuse(&self, line: u32) -> LineFault
        ensures { result ≡ refused (meaning self.now) line }
    {
        let cause = if line < self.size() {
            LineRefusal::FixedLine
        } else {
            LineRefusal::MissingLine
        };
        LineFault { cause, line }
    }

    // Whether the store has a line, and if not, why.
    fn find(&self, line: u32) -> Result<(), LineFault>
        ensures { Finds (meaning self.now) line result }
    {
        if line >= self.size() {
            return Err(self.refuse(line));
        }
        Ok(())
    }

    // Whether the store would take a line, and if not, why.
    fn admit(&self, line: u32) -> Result<(), LineFault>
        ensures { Admits (meaning self.now) line result }
    {
        if !self.writable(line) {
            return Err(self.refuse(line));
        }
        Ok(())
    }

    // At most 33,554,432 lines, each of 128 bytes, and only lines below the size can be written.
    ghost sound: { (s : Self) → Sound (meaning s) };
}
