// A place of an image: bytes and where they go.
ghost use Rattle.std.specs.Prelude.{◌≡◌, ◌/◌, ◌^◌, ◌<◌, length};
ghost use Rattle.image.specs.Format.{taken};
ghost use Rattle.image.specs.Placing.{past_line};

#[derive(Clone, Copy)]
pub(crate) struct Place<'a> {
    pub(crate) address: u32,
    pub(crate) bytes: &'a [u8],
    // the length of its record's body is a 4-byte number
    ghost short: { length bytes.now < 2 ^ 32 },
}

// The bytes of a record before its body, and of a place's body before the bytes that it places.
pub(crate) const HEADER: usize = 6;

pub(crate) const ADDRESS: usize = 4;

impl Place<'_> {
    // The number of bytes that its record takes.
    pub(crate) fn taken(self) -> usize
        ensures { result ≡ taken self.entry.bytes.now }
    {
        HEADER + ADDRESS + self.bytes.len()
    }

    // The line on which its first byte falls, if it has any.
    pub(crate) fn first_line(self) -> u32
        ensures { result ≡ self.entry.address / 128 }
    {
        self.address / 128
    }

    // The line behind the last on which a byte of it falls.
    pub(crate) fn past_line(self) -> u32
        ensures { result ≡ past_line self.entry.address self.entry.bytes.now }
    {
        if self.bytes.is_empty() {
            return self.first_line();
        }
        (self.address as usize + self.bytes.len()).div_ceil(128) as u32
    }
}
