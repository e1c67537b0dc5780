// What a bank keeps of its registers and tags, column by column.
ghost use Rattle.std.specs.Prelude.{◌≡◌};
ghost use Rattle.tags.specs.Invariants.{all, Apart, Counted, Free, Indexed, Linked, NoLine, NoTag, Sized, Small, Whole};

use crate::change::Change;
use crate::index::Index;
use crate::lines::Lines;
use crate::tag::Tag;
use flat::line_of;

#[derive(Drop)]
pub(crate) struct Columns {
    // of each register
    pub(crate) addresses: [u32; 128],
    // the tag that each register carries, 0 for none
    pub(crate) carried: [u8; 128],
    // the line of each tag, FREE where no register carries it
    pub(crate) lines: [u32; 128],
    // how many registers carry each tag
    pub(crate) counts: [u8; 128],
    // the bytes of each tag's line
    pub(crate) bytes: [[u8; 128]; 128],
    // where the tags of lines, and free tags, are looked for
    pub(crate) index: Index,
    ghost sized: { Sized addresses carried lines counts },
    ghost small: { Small addresses },
    ghost whole: { Whole bytes },
    ghost no_tag: { NoTag addresses carried },
    ghost no_line: { NoLine lines counts bytes },
    ghost linked: { Linked addresses carried lines },
    ghost counted: { Counted carried counts },
    ghost free: { Free counts lines },
    ghost apart: { Apart lines },
    ghost indexed: { Indexed index lines },
}

// A tag that no register carries holds this in place of a line's number.
pub(crate) const FREE: u32 = 0xFFFF_FFFF;

// Tag 0 holds this, which is neither a line's number nor FREE.
pub(crate) const UNNAMED: u32 = 0xFFFF_FFFE;

// How many lines 32-bit addresses lie in.
pub(crate) const LINES: u32 = 0x200_0000;

// One value for each of 128.
#[tactic(auto, unfolding(crate::specs::Invariants::all))]
pub(crate) fn filled<T: Copy>(value: T) -> [T; 128]
    ensures { result ≡ all value }
{
    [value; 128]
}

impl Columns {
    ghost use Rattle.tags.specs.Invariants.{Warm};
    ghost use Rattle.tags.specs.Names.{find, names_of, started};
    ghost use Rattle.tags.specs.Numbers.{number};
    ghost use Rattle.std.specs.Prelude.{◌≢◌, ◌==◌, ◌-◌, ◌+◌, ◌<◌, ◌/◌, ◌^◌, false, ℕ, if◌then◌else◌, slice_index, get_or, option_map, set, slice_set};
    ghost use Rattle.flat.specs.Registers.{is_zero};
    ghost use Rattle.tags.specs.Invariants.{filled_for, free, no_bytes, laid_down};

    // Every register at address 0. All but the zero registers carry tag 1, which has line 0 and these
    // bytes.
    pub(crate) fn new(line: &[u8; 128]) -> Columns
        ensures names { names_of result.addresses result.lines result.bytes ≡ started line.now }
        ensures warm { Warm result.carried }
    {
        let mut carried = filled(1);
        carried[0] = 0;
        carried[64] = 0;
        let mut lines = filled(FREE);
        lines[0] = UNNAMED;
        lines[1] = 0;
        let mut counts = filled(0);
        counts[1] = 126;
        let mut bytes = filled(filled(0));
        bytes[1] = *line;
        Columns {
            addresses: filled(0),
            carried,
            lines,
            counts,
            bytes,
            index: Index::new(),
        }
    }

    // The tag that holds a line, if any: none where no tag holds a line of its bucket, and mostly the tag
    // that was last taken for one.
    pub(crate) fn holder(&self, line: u32) -> Option<Tag>
        ensures { option_map number result ≡ find self.now.lines line }
    {
        if line >= LINES {
            return None;
        }
        if self.index.is_empty(line) {
            return None;
        }
        let guess = self.index.guess(line);
        if self.lines[usize::from(guess.number())] == line {
            return Some(guess);
        }
        self.search(line)
    }

    // The tag that holds a line, if any. The loop has no way out, so that several tags are compared at
    // once.
    #[inline(never)]
    fn search(&self, line: u32) -> Option<Tag>
        requires { line < 2 ^ 25 }
        ensures { option_map number result ≡ find self.now.lines line }
    {
        let mut holder = 0;
        for tag in 0..128u32 {
            if self.lines[tag as usize] == line {
                holder = tag;
            }
        }
        if holder == 0 {
            return None;
        }
        Some(Tag::new(holder as u8))
    }

    // Register r lays down its tag, which is free when no other carries it.
    fn lay_down(&mut self, r: usize)
        requires register { r < 128 }
        requires real { is_zero r ≡ false }
        requires tag { slice_index self.old.carried r ≢ 0 }
        ensures addresses { self.new.addresses ≡ self.old.addresses }
        ensures carried { self.new.carried ≡ slice_set self.old.carried r 0 }
        ensures lines { self.new.lines ≡ laid_down self.old.lines self.old.counts (slice_index self.old.carried r) }
        ensures bytes { self.new.bytes ≡ self.old.bytes }
    {
        let tag = usize::from(self.carried[r]);
        let left = self.counts[tag] - 1;
        self.carried[r] = 0;
        self.counts[tag] = left;
        if left == 0 {
            self.index.remove(tag as u8, self.lines[tag]);
            self.lines[tag] = FREE;
        }
    }

    // Register r, which carries no tag, goes to an address and takes the tag of its line: the one that
    // holds the line, or a free one where none does.
    fn take_up(&mut self, r: usize, tag: usize, address: u32)
        requires register { r < 128 }
        requires real { is_zero r ≡ false }
        requires bare { slice_index self.old.carried r ≡ 0 }
        requires some { 0 < tag }
        requires tags { tag < 128 }
        requires only { (u : ℕ) → u < 128 → slice_index self.old.lines u ≡ address / 128 → u ≡ tag }
        requires ready { slice_index self.old.lines tag ≢ free → slice_index self.old.lines tag ≡ address / 128 }
        ensures addresses { self.new.addresses ≡ slice_set self.old.addresses r address }
        ensures carried { self.new.carried ≡ slice_set self.old.carried r tag }
        ensures lines { self.new.lines ≡ slice_set self.old.lines tag (address / 128) }
        ensures bytes { self.new.bytes ≡ self.old.bytes }
    {
        self.addresses[r] = address;
        self.carried[r] = tag as u8;
        self.counts[tag] += 1;
        let line = line_of(address);
        self.index.take(tag as u8, line, self.lines[tag] == FREE);
        self.lines[tag] = line;
    }

    // Register r goes to another address on its line.
    pub(crate) fn stay(&mut self, r: usize, address: u32)
        requires register { r < 128 }
        requires real { is_zero r ≡ false }
        requires line { address / 128 ≡ slice_index self.old.addresses r / 128 }
        ensures addresses { self.new.addresses ≡ slice_set self.old.addresses r address }
        ensures carried { self.new.carried ≡ self.old.carried }
        ensures lines { self.new.lines ≡ self.old.lines }
        ensures bytes { self.new.bytes ≡ self.old.bytes }
    {
        self.addresses[r] = address;
    }

    // The tag for a line: the one that holds it, or a free one where none does.
    pub(crate) fn tag_for(&self, line: u32) -> usize
        requires { line < 2 ^ 25 }
        ensures some { 0 < result }
        ensures tags { result < 128 }
        ensures only { (u : ℕ) → u < 128 → slice_index self.now.lines u ≡ line → u ≡ result }
        ensures ready { slice_index self.now.lines result ≢ free → slice_index self.now.lines result ≡ line }
    {
        match self.holder(line) {
            Some(tag) => usize::from(tag.number()),
            None => self.first_free(),
        }
    }

    // Register r lays down its tag, goes to an address and takes up the tag of its line: the one that holds
    // the line, or a free one where none does.
    pub(crate) fn exchange(&mut self, r: usize, tag: usize, address: u32)
        requires register { r < 128 }
        requires real { is_zero r ≡ false }
        requires carried { slice_index self.old.carried r ≢ 0 }
        requires some { 0 < tag }
        requires tags { tag < 128 }
        requires only { (u : ℕ) → u < 128 → slice_index self.old.lines u ≡ address / 128 → u ≡ tag }
        requires ready { slice_index self.old.lines tag ≢ free → slice_index self.old.lines tag ≡ address / 128 }
        ensures addresses { self.new.addresses ≡ slice_set self.old.addresses r address }
        ensures carried { self.new.carried ≡ slice_set (slice_set self.old.carried r 0) r tag }
        ensures lines { self.new.lines ≡ slice_set (laid_down self.old.lines self.old.counts (slice_index self.old.carried r)) tag (address / 128) }
        ensures bytes { self.new.bytes ≡ self.old.bytes }
    {
        self.lay_down(r);
        self.take_up(r, tag, address);
    }

    // Changes a tag's bytes.
    pub(crate) fn write<C: Change>(&mut self, tag: usize, change: &C)
        requires some { 0 < tag }
        requires tags { tag < 128 }
        ensures addresses { self.new.addresses ≡ self.old.addresses }
        ensures carried { self.new.carried ≡ self.old.carried }
        ensures lines { self.new.lines ≡ self.old.lines }
        ensures bytes { self.new.bytes ≡ set self.old.bytes tag (C.changed change.now (get_or self.old.bytes tag no_bytes)) }
    {
        change.change(&mut self.bytes[tag]);
    }

    // Gives a tag the bytes of a line, unless it holds the line already.
    pub(crate) fn fill<L: Lines>(&mut self, tag: usize, line: u32, lines: &L)
        requires some { 0 < tag }
        requires tags { tag < 128 }
        ensures addresses { self.new.addresses ≡ self.old.addresses }
        ensures carried { self.new.carried ≡ self.old.carried }
        ensures lines { self.new.lines ≡ self.old.lines }
        ensures counts { self.new.counts ≡ self.old.counts }
        ensures bytes { self.new.bytes ≡ filled_for line (L.given lines.now line) tag self.old.lines self.old.bytes }
    {
        if self.lines[tag] != line {
            lines.give(line, &mut self.bytes[tag]);
        }
    }

    // Copies a tag's bytes onto another's.
    pub(crate) fn copy(&mut self, from: usize, to: usize)
        requires from { from < 128 }
        requires some { 0 < to }
        requires to { to < 128 }
        ensures addresses { self.new.addresses ≡ self.old.addresses }
        ensures carried { self.new.carried ≡ self.old.carried }
        ensures lines { self.new.lines ≡ self.old.lines }
        ensures counts { self.new.counts ≡ self.old.counts }
        ensures bytes { self.new.bytes ≡ set self.old.bytes to (get_or self.old.bytes from no_bytes) }
    {
        self.bytes.copy_within(from..from + 1, to);
    }

    // A free tag: there are more tags than registers that carry one.
    fn first_free(&self) -> usize
        ensures some { 0 < result }
        ensures tags { result < 128 }
        ensures free { slice_index self.now.lines result ≡ free }
    {
        usize::from(self.index.first_free().unwrap())
    }
}
