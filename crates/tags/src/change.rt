// Changes of a line's bytes, where they lie.
ghost use Rattle.std.specs.Prelude.{◌≡◌, ℕ, List, length};

pub trait Change {
    // what becomes of some bytes
    ghost changed: { Self → List ℕ → List ℕ };

    fn change(&self, bytes: &mut [u8; 128])
        ensures { bytes.new ≡ changed self.now bytes.old };

    // 128 bytes stay 128 bytes.
    ghost whole: { (s : Self) (b : List ℕ) → length b ≡ 128 → length (changed s b) ≡ 128 };
}
