// What is done on the bus between the machine and its store.
ghost use Rattle.std.specs.Prelude.{◌≡◌};
ghost use Rattle.flat.specs.Bus.{followed_by, quiet};

#[derive(Clone, Copy, PartialEq, Eq, Debug)]
pub struct Bus {
    // the line that is sent to the backing copy, if any
    pub sent: Option<u32>,
}

impl Bus {
    // Nothing is done.
    #[inline(always)]
    pub fn quiet() -> Bus
        ensures { result ≡ quiet }
    {
        Bus { sent: None }
    }

    // This, and then that.
    #[inline(always)]
    pub fn followed_by(self, next: Bus) -> Bus
        ensures { result ≡ followed_by self next }
    {
        Bus {
            sent: self.sent.or(next.sent),
        }
    }
}
