// Images loaded from readers: whole ones, one that goes on past the bytes that count, and readers
// that fail. Every answer is written by hand. It uses `bench` and `store`.
#![tactic(auto)]

#[cfg(test)]
mod tests {
    use bench::{FileFault, load_from};
    use std::alloc::{AllocError, Global};
    use std::io;
    use std::io::{ErrorKind, Read};
    use std::process::Abort;
    use std::test::Fail;
    use store::Ram;

    // Places the byte 9 at 256, and ends.
    const IMAGE: [u8; 17] = [5, 0, 0, 0, 1, 0, 0, 1, 0, 0, 9, 0, 0, 0, 0, 2, 0];

    // Gives its bytes one by one, and then an error.
    #[derive(Drop)]
    struct Failing<'a> {
        bytes: &'a [u8],
        kind: ErrorKind,
    }

    impl Read for Failing<'_> {
        fn read(&mut self, buf: &mut [u8]) -> io::Result<usize> {
            if buf.is_empty() {
                return Ok(0);
            }
            let Some((first, rest)) = self.bytes.split_first() else {
                return Err(self.kind.into());
            };
            buf[0] = *first;
            self.bytes = rest;
            Ok(1)
        }
    }

    // Loads into RAM of 384 bytes that are all 7, and counts those that changed.
    fn load<R: Read + Drop>(heap: Global, reader: R) -> (Result<usize, FileFault>, usize) {
        let mut bytes = [7; 384];
        let mut ram = Ram::new(&mut bytes);
        let loaded = load_from(heap, reader, &mut ram);
        (loaded, bytes.iter().filter(|byte| **byte != 7).count())
    }

    #[test]
    fn a_whole_image_is_taken(rt: HostRuntime) {
        assert_eq!(rt; load(rt.alloc(), IMAGE.as_slice()), (Ok(17), 1));
    }

    // An image of 65,536 bytes that places 65,520, with one byte behind it.
    fn long_image(heap: Global) -> Result<Vec<u8>, AllocError> {
        let mut image = vec![in heap; 9; 65_537]?;
        image[..10].copy_from_slice(&[0xF4, 0xFF, 0, 0, 1, 0, 0, 0, 0, 0]);
        image[65_530..65_536].copy_from_slice(&[0, 0, 0, 0, 2, 0]);
        Ok(image)
    }

    #[test]
    fn the_first_65536_bytes_count(rt: HostRuntime) -> Result<(), Fail> {
        let image = long_image(rt.alloc())?;
        let mut bytes = vec![in rt.alloc(); 7; 65_536]?;
        let mut ram = Ram::new(&mut bytes);
        assert_eq!(rt;
            load_from(rt.alloc(), image.as_slice(), &mut ram),
            Ok(65_536)
        );
        assert_eq!(rt; bytes.iter().filter(|byte| **byte == 9).count(), 65_520);
        Ok(())
    }

    #[test]
    fn a_reader_that_fails_changes_nothing(rt: HostRuntime) {
        for (kind, fault) in [
            (ErrorKind::NotFound, FileFault::Missing),
            (ErrorKind::IsADirectory, FileFault::Unreadable),
            (ErrorKind::OutOfMemory, FileFault::OutOfMemory),
        ] {
            let reader = Failing {
                bytes: &IMAGE,
                kind,
            };
            assert_eq!(rt; load(rt.alloc(), reader), (Err(fault), 0));
        }
    }

    // Checks the text of why a reader's bytes are not loaded.
    fn check_text<R: Read + Drop>(
        rt: &(impl Abort + AllocGlobal),
        reader: R,
        text: &str,
    ) -> Result<(), Fail> {
        match load(rt.alloc(), reader).0 {
            Ok(count) => assert!(rt; false, "{count} bytes"),
            Err(fault) => {
                let shown = fault.to_string(rt.alloc())?;
                assert_eq!(rt; shown.as_str(), text);
            }
        }
        Ok(())
    }

    #[test]
    fn texts_of_faults(rt: HostRuntime) -> Result<(), Fail> {
        // no end
        check_text(&rt, &IMAGE[..11], "x 7\nrecord at byte 11, line 0")?;
        // the byte 9 at 384, on line 3
        let far = [5, 0, 0, 0, 1, 0, 128, 1, 0, 0, 9, 0, 0, 0, 0, 2, 0];
        check_text(&rt, far.as_slice(), "x 9\nrecord at byte 0, line 3")?;
        for (kind, text) in [
            (ErrorKind::NotFound, "no image"),
            (ErrorKind::TimedOut, "no image: the file cannot be read"),
            (ErrorKind::OutOfMemory, "no image: out of memory"),
        ] {
            check_text(&rt, Failing { bytes: &[], kind }, text)?;
        }
        Ok(())
    }
}
