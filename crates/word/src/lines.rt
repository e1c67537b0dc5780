// The words of a line of 128 bytes.
ghost use Rattle.std.specs.Prelude.{◌≡◌, ◌*◌, ◌<◌};
ghost use Rattle.word.specs.Lines.{little_endian, WordsOf};

use std::array;

// Word k of a line: the little-endian number of four bytes.
// By index, as with `as_chunks::<4>()` the goal on word k of `words` stays open: the chunks that the
// closure has at turn k are not tied to those of the line.
fn word_at(line: &[u8; 128], k: usize) -> u32
    requires { k < 32 }
    ensures { result ≡ little_endian line.now (4 * k) }
{
    let p = 4 * k;
    u32::from_le_bytes([line[p], line[p + 1], line[p + 2], line[p + 3]])
}

// The 32 words of a line.
pub fn words(line: &[u8; 128]) -> [u32; 32]
    ensures { WordsOf line.now result }
{
    array::from_fn(|k| word_at(line, k))
}
