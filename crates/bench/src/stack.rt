// The stores of the bench, one on the other.
ghost use Rattle.std.specs.Prelude.{◌≡◌};
ghost use Rattle.bench.specs.Stack.{bench_over};

use store::{Fuse, OpenBus, Ram, Split, Store};

// 256 lines of RAM.
pub const RAM_BYTES: usize = 32_768;

// The first lines hold the supervisor's entry, and nothing may write them once an image is loaded.
const FUSED_LINES: u32 = 2;

const OPEN_LINES: u32 = 256;

// Lays the fuse over the RAM, and the open bus above.
pub fn on_bench<'a>(memory: Ram<'a>) -> Split<Fuse<Ram<'a>>, OpenBus>
    ensures { ⟦<Split<Fuse<Ram<'a>>, OpenBus> as Store>⟧.meaning result ≡ bench_over (⟦<Ram<'a> as Store>⟧.meaning memory.entry) }
{
    Split {
        low: Fuse {
            below: FUSED_LINES,
            under: memory,
        },
        high: OpenBus::new(OPEN_LINES),
    }
}
