// Trails: records of one kind, kept in order in a slice that the caller lends. When the trail ends
// the caller has its slots again, the records in front and every other slot as it was: each contract
// keeps the name of the loan, which is how a caller knows its own slots. It uses no other crate.
#![tactic(auto)]

ghost use Rattle.std.specs.Prelude.{◌≡◌, ◌≤◌, min, [], ◌∷◌, length, take};
ghost use Rattle.trail.specs.Refusals.{refusal_number};

// A trail refuses only a record that has no space: it is full.
#[derive(Clone, Copy, PartialEq, Eq, Debug)]
pub struct FullTrail;

// The number by which documents, programs and people name the refusal.
impl From<FullTrail> for u8 {
    ghost from_gives = { λ refusal n. n ≡ refusal_number refusal };

    fn from(_refusal: FullTrail) -> u8 {
        12
    }
}

// The records held stand in the first `used` slots; the other slots are space.
#[derive(Drop)]
pub struct Trail<'a, T> {
    slots: &'a mut [T],
    used: usize,
    ghost within: { used ≤ length slots.now },
}

impl<'a, T: Drop> Trail<'a, T> {
    ghost use Rattle.trail.specs.Trails.{held, space, Added, Adds};

    // A trail that holds no record, over the caller's slots.
    pub fn new(slots: &'a mut [T]) -> Self
        ensures same { result.slots.now ≡ slots.old }
        ensures loan { result.slots.ghost_name ≡ slots.entry.ghost_name }
        ensures used { result.used ≡ 0 }
    {
        Trail { slots, used: 0 }
    }

    // How many records still fit.
    pub fn space(&self) -> usize
        ensures { result ≡ space self.now }
    {
        self.slots.len() - self.used
    }

    // Puts the record behind those held; a full trail refuses it and lets it go.
    pub fn add(&mut self, record: T) -> Result<(), FullTrail>
        ensures { Adds self.old «record» result self.new }
    {
        if self.space() == 0 {
            return Err(FullTrail);
        }
        self.slots[self.used] = record;
        self.used += 1;
        Ok(())
    }

    // Adds the records in their order while there is space, and says how many it added.
    pub fn add_all(&mut self, records: &[T]) -> usize
    where
        T: Copy,
        ensures count { result ≡ min (space self.old) (length records.now) }
        ensures added { Added self.old self.new (take result records.now) }
    {
        let count = self.space().min(records.len());
        let end = self.used + count;
        self.slots[self.used..end].copy_from_slice(&records[..count]);
        self.used = end;
        count
    }

    // The records held, in the order in which they were added.
    pub fn records(&self) -> &[T]
        ensures { result.now ≡ held self.now }
    {
        &self.slots[..self.used]
    }
}
