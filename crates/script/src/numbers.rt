// Numbers as text.
ghost use Rattle.std.specs.Prelude.{◌≡◌, ◌↔◌, ◌≤◌, ℕ, Some, IsTrue};
ghost use Rattle.std.specs.Fmt.{decimal};
ghost use Rattle.script.specs.Plain.{Plain};

// Whether a text has no plus in front, and no zero in front of more.
fn is_plain(text: &[u8]) -> bool
    ensures { IsTrue result ↔ Plain text.now }
{
    match text {
        [b'+', ..] | [b'0', _, ..] => false,
        _ => true,
    }
}

// The number that a text is in decimal, with no sign and no zero in front, if it is not over `most`.
#[tactic(auto, using(crate::proofs::Reading::numbers))]
pub(crate) fn number_of(text: &str, most: u64) -> Option<u64>
    ensures { (n : ℕ) → (result ≡ Some n) ↔ ((n ≤ most) × (text.now ≡ decimal n)) }
{
    if !is_plain(text.as_bytes()) {
        return None;
    }
    match text.parse::<u64>() {
        Ok(number) if number <= most => Some(number),
        _ => None,
    }
}
