// ROM over bytes held for reading.
ghost use Rattle.std.specs.Prelude.{◌≡◌, ◌*◌, ◌≤◌, length};
ghost use Rattle.store.specs.Kinds.{line_of, rom};
ghost use Rattle.store.specs.Sounds.{rom_sound};

use crate::fault::LineFault;
use crate::store::{MOST_LINES, Store};

#[derive(Drop)]
pub struct Rom<'a> {
    bytes: &'a [u8],
}

impl<'a> Rom<'a> {
    pub fn new(bytes: &'a [u8]) -> Self
        ensures { result.bytes.now ≡ bytes.now }
    {
        Rom { bytes }
    }
}

impl<'a> Store for Rom<'a> {
    ghost meaning = { λ s. rom s.bytes.now };

    fn size(&self) -> u32 {
        self.bytes.len().div_ceil(128).min(MOST_LINES as usize) as u32
    }

    fn writable(&self, _line: u32) -> bool {
        false
    }

    #[tactic(auto, unfolding(crate::specs::Kinds::filled))]
    fn read(&self, line: u32, out: &mut [u8; 128]) -> Result<(), LineFault> {
        self.find(line)?;
        let part = there(self.bytes, line);
        let (front, back) = out.split_at_mut(part.len());
        front.copy_from_slice(part);
        back.fill(0);
        Ok(())
    }

    fn write(&mut self, line: u32, _bytes: &[u8; 128]) -> Result<(), LineFault> {
        Err(self.refuse(line))
    }

    ghost sound = { λ s. rom_sound s.bytes.now };
}

// What is there of a line, as a slice: its last line may be there in part.
fn there(bytes: &[u8], line: u32) -> &[u8]
    requires { 128 * line ≤ length bytes.now }
    ensures { (result.now ≡ line_of bytes.now line) × (length result.now ≤ 128) }
{
    let rest = &bytes[128 * line as usize..];
    &rest[..rest.len().min(128)]
}
