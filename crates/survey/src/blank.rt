// Lines that hold nothing.
ghost use Rattle.survey.specs.Blank.{Blank};
ghost use Rattle.std.specs.Prelude.{◌↔◌, IsTrue};

// Whether each byte of a line is 0.
pub fn is_blank(line: &[u8; 128]) -> bool
    ensures { IsTrue result ↔ Blank line.now }
{
    line.iter().all(|byte| *byte == 0)
}
