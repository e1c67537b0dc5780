// Who gives the bytes of a line that no register names yet.
ghost use Rattle.std.specs.Prelude.{◌≡◌, ℕ, List, length};

pub trait Lines {
    // the bytes of each line
    ghost given: { Self → ℕ → List ℕ };

    // Fills `out`, a line record of the caller's, with the line's bytes.
    fn give(&self, line: u32, out: &mut [u8; 128])
        ensures { out.new ≡ given self.now line };

    // Each line has 128 bytes.
    ghost whole: { (s : Self) (n : ℕ) → length (given s n) ≡ 128 };
}
