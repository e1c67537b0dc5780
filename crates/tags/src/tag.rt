// Numbers of tags. Tag 0 stands for no line.
ghost use Rattle.std.specs.Prelude.{◌<◌};

#[derive(Clone, Copy, PartialEq, Eq, Debug)]
pub struct Tag {
    number: u8,
    ghost inside: { number < 128 },
}

impl Tag {
    ghost use Rattle.std.specs.Prelude.{◌≡◌, ◌%◌};

    pub(crate) fn new(number: u8) -> Tag
        requires { number < 128 }
        ensures { result.number ≡ number }
    {
        Tag { number }
    }

    // The tag of a number, which counts modulo 128.
    pub fn of(number: u8) -> Tag
        ensures { result.number ≡ number % 128 }
    {
        Tag::new(number % 128)
    }

    pub fn number(self) -> u8
        ensures { result ≡ self.number }
    {
        self.number
    }
}
