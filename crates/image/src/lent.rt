// Loading into bytes that a caller lends as RAM, beneath a fuse.
ghost use Rattle.std.specs.Prelude.{◌≡◌};
ghost use Rattle.image.specs.Loading.{LoadsBytes};

use crate::fault::Fault;
use crate::loading::load;
use store::{Fuse, Ram};

// Lays a fuse over the RAM, loads the image through it, and takes the fuse off again. The RAM holds
// the loan that it held.
fn load_fused(memory: &mut Ram, below: u32, image: &[u8]) -> Result<(), Fault>
    ensures { (memory.new.bytes.ghost_name ≡ memory.old.bytes.ghost_name) × LoadsBytes below memory.old.bytes.now image.now result memory.new.bytes.now }
{
    let mut fused = Fuse {
        below,
        under: memory.take(),
    };
    let result = load(&mut fused, image);
    let Fuse { below: _, under } = fused;
    *memory = under;
    result
}

// Loads an image into the bytes, of which the lines below `below` cannot be written.
pub fn load_bytes(bytes: &mut [u8], below: u32, image: &[u8]) -> Result<(), Fault>
    ensures { LoadsBytes below bytes.old image.now result bytes.new }
{
    let mut memory = Ram::new(bytes);
    load_fused(&mut memory, below, image)
}
