// The store as the machine's backing copy: what it gives of a line, and what it holds once it was sent one.
ghost use Rattle.std.specs.Prelude.{◌≡◌};
ghost use Rattle.flat.specs.Data.{given, accepted};
ghost use Rattle.flat.specs.Registers.{zeros};
ghost use Rattle.file.specs.Backing.{given_whole};

use store::Store;
use tags::Lines;

// 128 zero bytes. (By itself, so that no other goal has a list of them in it.)
#[tactic(auto, unfolding(flat::specs::Registers::zeros))]
pub(crate) fn zeros() -> [u8; 128]
    ensures { result ≡ zeros }
{
    [0; 128]
}

// Reads a line; one that the store will not give is zeros.
#[tactic(auto, unfolding(flat::specs::Data::given, flat::specs::Registers::zeros))]
pub(crate) fn give<S: Store>(store: &S, line: u32, out: &mut [u8; 128])
    ensures { out.new ≡ given (S.meaning store.now) line }
{
    if store.read(line, out).is_err() {
        out.fill(0);
    }
}

// Sends a line; one that the store will not take is lost.
#[tactic(auto, unfolding(flat::specs::Data::accepted))]
pub(crate) fn send<S: Store>(store: &mut S, line: u32, bytes: &[u8; 128])
    ensures { S.meaning store.new ≡ accepted (S.meaning store.old) line bytes.now }
{
    let _lost = store.write(line, bytes);
}

// The lines of a store, for a bank.
#[derive(Drop)]
pub(crate) struct Backing<'a, S> {
    pub(crate) store: &'a S,
}

impl<'a, S: Store> Lines for Backing<'a, S> {
    ghost given = { λ b n. given (S.meaning b.store.now) n };

    fn give(&self, line: u32, out: &mut [u8; 128]) {
        give(self.store, line, out)
    }

    ghost whole = { λ b n. given_whole (S.meaning b.store.now) (S.sound b.store.now) n };
}
