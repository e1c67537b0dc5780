// The image file.
ghost use Rattle.bench.specs.Files.{LoadsFile, LoadsFrom, TakesRead};
ghost use Rattle.bench.specs.declared.fault.FileFault.TheVariants.{OutOfMemory};
ghost use Rattle.std.specs.Io.KnownBytes.{ReadConsumes};
ghost use Rattle.std.specs.Io.{ReadsAtMost};
ghost use Rattle.std.specs.IoError.{error_kind};
ghost use Rattle.std.specs.Prelude.{◌≡◌, ◌≢◌, ◌<◌, [], take, vec_capacity, Err, IfErr, MatchResult};
ghost use Rattle.std.specs.declared.io.ErrorKind.TheVariants.{Interrupted};
ghost use Rattle.survey.specs.Outcomes.{Takes};

use crate::fault::FileFault;
use image::Fault;
use std::alloc::Global;
use std::io::{ErrorKind, Read};
use std::{fs, io};
use store::Store;
use survey::take_image;

// The most bytes that count of an image.
const MOST_BYTES: usize = 65_536;

// The first `count` bytes, or all where there are no more.
fn front(bytes: &[u8], count: usize) -> &[u8]
    ensures { result.now ≡ take count bytes.now }
{
    bytes.get(..count).unwrap_or(bytes)
}

// Loads the first 65,536 bytes into a store.
pub fn take_front<S: Store>(store: &mut S, bytes: &[u8]) -> Result<usize, Fault>
    ensures { Takes (S.meaning store.old) (take 65536 bytes.now) result (S.meaning store.new) }
{
    take_image(store, front(bytes, MOST_BYTES))
}

// Loads the first 65,536 of the bytes that were read. A fault is then the image's own.
fn take_read<S: Store>(store: &mut S, bytes: &[u8]) -> Result<usize, FileFault>
    ensures { TakesRead (S.meaning store.old) (take 65536 bytes.now) result (S.meaning store.new) }
{
    Ok(take_front(store, bytes)?)
}

// Room for the bytes of an image and one more, since `read_to_end` asks for more room once all is full.
fn room(alloc: Global) -> Result<Vec<u8>, FileFault>
    ensures { MatchResult result (λ bytes. (bytes.items ≡ []) × (65536 < vec_capacity bytes)) (λ fault. fault ≡ OutOfMemory) }
{
    Vec::with_capacity(alloc, MOST_BYTES + 1).map_err(|_| FileFault::OutOfMemory)
}

// Loads the first 65,536 bytes of a reader into a store, by way of `bytes`.
fn load_through<R: Read + Drop, S: Store>(
    mut bytes: Vec<u8>,
    reader: R,
    store: &mut S,
) -> Result<usize, FileFault>
    requires empty { bytes.items ≡ [] }
    requires has_room { 65536 < vec_capacity bytes }
    ensures { LoadsFrom (S.meaning store.old) (R.remaining reader) result (S.meaning store.new) }
{
    reader.take(MOST_BYTES as u64).read_to_end(&mut bytes)?;
    // `read_to_end` does not promise that it keeps within the limit where the bytes are not known
    take_read(store, &bytes)
}

// Loads the first 65,536 bytes of a reader into a store.
pub fn load_from<R: Read + Drop, S: Store>(
    alloc: Global,
    reader: R,
    store: &mut S,
) -> Result<usize, FileFault>
    ensures { LoadsFrom (S.meaning store.old) (R.remaining reader) result (S.meaning store.new) }
{
    load_through(room(alloc)?, reader, store)
}

// A reader that fails where a read is interrupted: `read_to_end` tries such a read again.
#[derive(Drop)]
struct Once<R> {
    inner: R,
}

impl<R: Read> Read for Once<R> {
    ghost remaining = { λ once. R.remaining once.inner };

    fn read(&mut self, buf: &mut [u8]) -> io::Result<usize>
        ensures bound { ReadsAtMost result buf.new }
        ensures bytes { ReadConsumes (R.remaining self.old.inner) (R.remaining self.new.inner) result buf.new }
        ensures fails { IfErr result (λ error. error_kind error ≢ Interrupted) }
    {
        match self.inner.read(buf) {
            Err(error) if error.kind() == ErrorKind::Interrupted => Err(ErrorKind::Other.into()),
            read => read,
        }
    }
}

// Loads an image from a file into a store, by way of `bytes`. There is room for it, so want of memory is the
// system's own, and the file cannot be read.
fn load_file_through<S: Store>(
    rt: &HostRuntime,
    bytes: Vec<u8>,
    path: &str,
    store: &mut S,
) -> Result<usize, FileFault>
    requires empty { bytes.items ≡ [] }
    requires has_room { 65536 < vec_capacity bytes }
    ensures loads { LoadsFile (S.meaning store.old) result (S.meaning store.new) }
    ensures had_room { result ≢ Err OutOfMemory }
{
    let loaded = match fs::open(rt, path) {
        Ok(file) => load_through(bytes, Once { inner: file }, store),
        Err(error) => Err(FileFault::from(error)),
    };
    match loaded {
        Err(FileFault::OutOfMemory) => Err(FileFault::Unreadable),
        loaded => loaded,
    }
}

// Loads an image from a file into a store. No contract can say what the file holds.
pub fn load_file<S: Store>(rt: &HostRuntime, path: &str, store: &mut S) -> Result<usize, FileFault>
    ensures { LoadsFile (S.meaning store.old) result (S.meaning store.new) }
{
    load_file_through(rt, room(rt.alloc())?, path, store)
}
