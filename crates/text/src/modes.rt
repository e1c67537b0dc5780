// Modes as text.
ghost use Rattle.std.specs.Prelude.{◌≡◌};
ghost use Rattle.text.specs.Modes.{mode_text};

use flat::Mode;

// The letter of a mode.
pub fn mode_text(mode: Mode) -> &'static str
    ensures { result.now ≡ mode_text mode }
{
    match mode {
        Mode::User => "U",
        Mode::Supervisor => "S",
    }
}
