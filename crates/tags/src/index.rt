// Where to look for tags: how many tags hold a line of each bucket, which tag was last taken for one, and
// which tags are free. Lines fall into 128 buckets by their numbers' remainders.
ghost use Rattle.std.specs.Prelude.{◌≡◌, ◌≢◌, ◌<◌, ◌%◌, ◌+◌, ◌-◌, ◌==◌, ℕ, if◌then◌else◌, true, false, nat_le, slice_index, slice_set};
ghost use Rattle.marks.specs.Marks.{Finds, marked, with_mark};
ghost use Rattle.tags.specs.Invariants.{all};

use crate::columns::filled;
use crate::tag::Tag;
use marks::Marks;

#[derive(Drop)]
pub(crate) struct Index {
    pub(crate) held: [u8; 128],
    // (a guess, which is tried before the search)
    last: [u8; 128],
    pub(crate) free: Marks,
}

// Every tag from 2 on is marked.
fn all_but_two() -> Marks
    ensures { (t : ℕ) → t < 128 → marked result t ≡ nat_le 2 t }
{
    let mut free = Marks::new();
    for tag in 2..128u8 {
        free.insert(tag);
    }
    free
}

impl Index {
    // Tag 1 holds line 0, and those above it are free.
    pub(crate) fn new() -> Index
        ensures held { result.held ≡ slice_set (all 0) 0 1 }
        ensures free { (t : ℕ) → t < 128 → marked result.free t ≡ nat_le 2 t }
    {
        let mut held = filled(0);
        held[0] = 1;
        Index {
            held,
            last: filled(1),
            free: all_but_two(),
        }
    }

    // Whether no tag holds a line of a line's bucket.
    pub(crate) fn is_empty(&self, line: u32) -> bool
        ensures { result ≡ (slice_index self.now.held (line % 128) == 0) }
    {
        self.held[(line % 128) as usize] == 0
    }

    // The tag that was last taken for a line of a line's bucket.
    pub(crate) fn guess(&self, line: u32) -> Tag {
        Tag::of(self.last[(line % 128) as usize])
    }

    // The first free tag, if any.
    pub(crate) fn first_free(&self) -> Option<u8>
        ensures { Finds (marked self.now.free) result }
    {
        self.free.first()
    }

    // A register takes a tag for a line, which is new to a free tag.
    pub(crate) fn take(&mut self, tag: u8, line: u32, new: bool)
        requires tags { tag < 128 }
        requires space { slice_index self.old.held (line % 128) < 255 }
        ensures held { self.new.held ≡ (if new then slice_set self.old.held (line % 128) (slice_index self.old.held (line % 128) + 1) else self.old.held) }
        ensures free { marked self.new.free ≡ (if new then with_mark (marked self.old.free) tag false else marked self.old.free) }
    {
        let bucket = (line % 128) as usize;
        self.last[bucket] = tag;
        if new {
            self.held[bucket] += 1;
            self.free.remove(tag);
        }
    }

    // A tag loses its line, and is free.
    pub(crate) fn remove(&mut self, tag: u8, line: u32)
        requires tags { tag < 128 }
        requires some { slice_index self.old.held (line % 128) ≢ 0 }
        ensures held { self.new.held ≡ slice_set self.old.held (line % 128) (slice_index self.old.held (line % 128) - 1) }
        ensures free { marked self.new.free ≡ with_mark (marked self.old.free) tag true }
    {
        self.held[(line % 128) as usize] -= 1;
        self.free.insert(tag);
    }
}
