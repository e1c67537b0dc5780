// The call that a line asks for.
ghost use Rattle.std.specs.Prelude.{◌≡◌, ◌↔◌, ◌≤◌, ◌++◌, ℕ, List, codes, Some, IfSome, MatchOption};
ghost use Rattle.std.specs.Fmt.{decimal};
ghost use Rattle.flat.specs.declared.call.Call.{Call};
ghost use Rattle.script.specs.Texts.{Fits, text_of};
ghost use Rattle.script.specs.Kinds.{HasNumbers, IsTrace};

use crate::numbers::number_of;
use flat::{Call, Slots};

// The number behind these words, if it is not over `most`.
fn number_after(words: &str, line: &str, most: u64) -> Option<u64>
    ensures read { IfSome result (λ n. (n ≤ most) × (line.now ≡ words.now ++ decimal n)) }
    ensures found { (n : ℕ) → n ≤ most → line.now ≡ words.now ++ decimal n → result ≡ Some n }
{
    let rest = line.strip_prefix(words)?;
    number_of(rest, most)
}

// The number in front of a space, if it is not over `most`, and what stands behind the space.
fn number_before(line: &str, most: u64) -> Option<(u64, &str)>
    ensures read { IfSome result (λ x. (x.0 ≤ most) × (line.now ≡ decimal x.0 ++ codes " " ++ x.1.now)) }
    ensures found { (n : ℕ) (rest : List ℕ) → n ≤ most → line.now ≡ decimal n ++ codes " " ++ rest → MatchOption result ⊥ (λ x. (x.0 ≡ n) × (x.1.now ≡ rest)) }
{
    let (number, rest) = line.split_once(' ')?;
    let number = number_of(number, most)?;
    Some((number, rest))
}

// A trace, of which the line has the three numbers behind the word.
fn trace_of(line: &str) -> Option<Call>
    ensures { (c : Call) → (result ≡ Some c) ↔ (IsTrace c × Fits c × (line.now ≡ text_of c)) }
{
    let rest = line.strip_prefix("trace ")?;
    let (limit, rest) = number_before(rest, u64::from(u32::MAX))?;
    let (steps, rest) = number_before(rest, u64::MAX)?;
    let lines = number_of(rest, u64::MAX)?;
    let most = Slots {
        steps: steps as usize,
        lines: lines as usize,
    };
    Some(Call::Trace {
        limit: limit as u32,
        most,
    })
}

// A call that is given numbers.
fn numbered(line: &str) -> Option<Call>
    ensures { (c : Call) → (result ≡ Some c) ↔ (HasNumbers c × Fits c × (line.now ≡ text_of c)) }
{
    if let Some(limit) = number_after("run ", line, u64::from(u32::MAX)) {
        return Some(Call::Run(limit as u32));
    }
    if let Some(number) = number_after("show d ", line, u64::from(u8::MAX)) {
        return Some(Call::ShowData(number as u8));
    }
    if let Some(number) = number_after("show i ", line, u64::from(u8::MAX)) {
        return Some(Call::ShowInstruction(number as u8));
    }
    trace_of(line)
}

// The call whose text a line is, if it is one's.
pub fn call_of(line: &str) -> Option<Call>
    ensures { (c : Call) → (result ≡ Some c) ↔ (Fits c × (line.now ≡ text_of c)) }
{
    match line {
        "boot" => Some(Call::Boot),
        "step" => Some(Call::Step),
        "pin up" => Some(Call::Pin(true)),
        "pin down" => Some(Call::Pin(false)),
        "show rest" => Some(Call::ShowRest),
        "flush" => Some(Call::Flush),
        "halt" => Some(Call::Halt),
        _ => numbered(line),
    }
}
