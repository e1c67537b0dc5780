// Marks: which of the tags 0 to 127 are marked, one bit for each tag in two words, so that the marked
// tags are counted, and the lowest is found, a word at a time. The tags whose lines were written are
// marked so, and, apart from those, the tags that are free. A tag is a number here, and numbers from 128
// on are never marked. It uses no other crate.
#![tactic(auto)]

ghost use Rattle.std.specs.Prelude.{if◌then◌else◌, ◌≡◌, nat_lt, true, false};

// Tag t is bit t % 64 of word t / 64.
#[derive(Clone, Copy, PartialEq, Eq, Debug)]
pub struct Marks {
    words: [u64; 2],
}

#[tactic(auto, using(crate::proofs::Words::tags))]
impl Marks {
    ghost use Rattle.marks.specs.Marks.{marked, none, with_mark, how_many, Finds};

    // No tag is marked.
    pub fn new() -> Self
        ensures { marked result ≡ none }
    {
        Marks { words: [0; 2] }
    }

    // Whether the tag is marked.
    pub fn contains(self, tag: u8) -> bool
        ensures { result ≡ marked self tag }
    {
        let [low, high] = self.words;
        let word = if tag < 64 { low } else { high };
        tag < 128 && (word >> (tag % 64)) & 1 == 1
    }

    // Marks the tag.
    pub fn insert(&mut self, tag: u8)
        ensures { marked self.new ≡ (if nat_lt tag 128 then with_mark (marked self.old) tag true else marked self.old) }
    {
        if tag < 128 {
            self.words[usize::from(tag / 64)] |= 1 << (tag % 64);
        }
    }

    // Takes the tag's mark away.
    pub fn remove(&mut self, tag: u8)
        ensures { marked self.new ≡ with_mark (marked self.old) tag false }
    {
        if tag < 128 {
            self.words[usize::from(tag / 64)] &= !(1 << (tag % 64));
        }
    }

    // Takes every mark away.
    pub fn clear(&mut self)
        ensures { marked self.new ≡ none }
    {
        *self = Marks::new();
    }

    // The lowest marked tag.
    pub fn first(self) -> Option<u8>
        ensures { Finds (marked self) result }
    {
        let [low, high] = self.words;
        if low != 0 {
            Some(low.trailing_zeros() as u8)
        } else if high != 0 {
            Some(64 + high.trailing_zeros() as u8)
        } else {
            None
        }
    }

    // How many tags are marked.
    pub fn count(self) -> u32
        ensures { result ≡ how_many (marked self) 128 }
    {
        let [low, high] = self.words;
        low.count_ones() + high.count_ones()
    }
}
