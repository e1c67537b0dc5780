// Reading and writing undo one another.
ghost use Rattle.word.specs.Decodes.{Recoded, Redecoded};

use crate::coding::code;
use crate::decoding::decode;
use crate::operations::Operation;

// A defined word, read and written again, is the same word; an undefined one gives None.
pub fn recode(word: u32) -> Option<u32>
    ensures { Recoded word result }
{
    code(decode(word)?).ok()
}

// An operation that some word holds, written and read again, is the same operation; one that no
// word holds gives None.
pub fn redecode(op: Operation) -> Option<Operation>
    ensures { Redecoded op result }
{
    code(op).ok().and_then(decode)
}
