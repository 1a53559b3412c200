use std::alloc::{AllocError, Global};
use std::io;
use std::io::{Eprint, Read, Write};
use std::process::Abort;
use std::rt::Files;
use std::sync::Wait;
use std::test::Fail;
use std::thread::Threads;
use trace::serve;

const FRAME: &str = "27 83 60 01 00 01 00 40 00 00 00 00 28 00 00 00 00 00 00 00\n";

/// Enough frames that what is printed of them takes several writes.
fn frames(alloc: Global) -> Result<Vec<u8>, AllocError> {
    let mut input = Vec::new(alloc);
    for _ in 0..300 {
        input.extend_from_slice(FRAME.as_bytes())?;
    }
    Ok(input)
}

/// How the program ends on a writer that has so many writes left, and that writer.
fn written<R: Abort + AllocGlobal + Threads + Wait + Sync + Files + Eprint>(
    rt: &R,
    words: &[&str],
    input: &[u8],
    left: usize,
) -> (u8, Full) {
    let mut full = Full::after(rt.alloc(), left);
    let ended = serve(rt, rt.alloc(), words, input, &mut full);
    (ended, full)
}

/// Whether it ends by the writer, which has a beginning of the whole.
fn is_cut<R: Abort + AllocGlobal + Threads + Wait + Sync + Files + Eprint>(
    rt: &R,
    whole: &[u8],
    input: &[u8],
    left: usize,
) -> bool {
    let (ended, full) = written(rt, &["decode"], input, left);
    ended == 4 && full.refused == 1 && whole.starts_with(&full.bytes)
}

/// Whether it ends by a writer that takes nothing.
fn fails_at_once<R: Abort + AllocGlobal + Threads + Wait + Sync + Files + Eprint>(
    rt: &R,
    words: &[&str],
    input: &[u8],
) -> bool {
    let (ended, _) = written(rt, words, input, 0);
    ended == 4
}

/// Whether it ends by the reader, and writes nothing.
fn is_torn<R: Abort + AllocGlobal + Threads + Wait + Sync + Files + Eprint>(
    rt: &R,
    input: &[u8],
) -> bool {
    let mut written = Vec::new(rt.alloc());
    let torn = Torn { bytes: input };
    serve(rt, rt.alloc(), &["decode"], torn, &mut written) == 4 && written.is_empty()
}

/// Whether a writer that takes a byte at a time has the whole in the end.
fn is_whole<R: Abort + AllocGlobal + Threads + Wait + Sync + Files + Eprint>(
    rt: &R,
    whole: &[u8],
    input: &[u8],
) -> bool {
    let mut narrow = Narrow {
        bytes: Vec::new(rt.alloc()),
    };
    let ended = serve(rt, rt.alloc(), &["decode"], input, &mut narrow);
    ended == 0 && narrow.bytes.as_slice() == whole
}

#[test]
fn reads_that_fail(rt: HostRuntime) -> Result<(), Fail> {
    let input = frames(rt.alloc())?;
    assert!(rt; is_torn(&rt, &input));
    Ok(())
}

#[test]
fn writes_that_fail(rt: HostRuntime) -> Result<(), Fail> {
    let input = frames(rt.alloc())?;
    let (ended, whole) = written(&rt, &["decode"], &input, 1000);
    let writes = 1000usize.saturating_sub(whole.left);
    assert!(rt; ended == 0 && writes > 1);
    for left in 0..writes {
        assert!(rt;
            is_cut(&rt, &whole.bytes, &input, left),
            "after {left} writes"
        );
    }
    Ok(())
}

#[test]
fn first_writes_that_fail(rt: HostRuntime) {
    assert!(rt; fails_at_once(&rt, &["run"], b"came"));
    assert!(rt; fails_at_once(&rt, &["fly"], b""));
}

#[test]
fn writes_of_one_byte(rt: HostRuntime) -> Result<(), Fail> {
    let input = frames(rt.alloc())?;
    let (ended, whole) = written(&rt, &["decode"], &input, 1000);
    assert!(rt; ended == 0 && is_whole(&rt, &whole.bytes, &input));
    Ok(())
}

/// A reader that gives some bytes and then fails.
#[derive(Drop)]
struct Torn<'a> {
    bytes: &'a [u8],
}

impl Read for Torn<'_> {
    fn read(&mut self, buf: &mut [u8]) -> io::Result<usize> {
        if self.bytes.is_empty() {
            return Err(io::Error::other("torn"));
        }
        self.bytes.read(buf)
    }
}

/// A writer that fails once it has no writes left.
#[derive(Drop)]
struct Full {
    bytes: Vec<u8>,
    /// The writes that still go well.
    left: usize,
    /// The writes that failed.
    refused: usize,
}

impl Full {
    fn after(alloc: Global, left: usize) -> Full {
        Full {
            bytes: Vec::new(alloc),
            left,
            refused: 0,
        }
    }
}

impl Write for Full {
    fn write(&mut self, buf: &[u8]) -> io::Result<usize> {
        if self.left == 0 {
            self.refused = self.refused.saturating_add(1);
            return Err(io::Error::other("full"));
        }
        self.left -= 1;
        self.bytes.write(buf)
    }

    fn flush(&mut self) -> io::Result<()> {
        Ok(())
    }
}

/// A writer that takes a byte at a time.
#[derive(Drop)]
struct Narrow {
    bytes: Vec<u8>,
}

impl Write for Narrow {
    fn write(&mut self, buf: &[u8]) -> io::Result<usize> {
        match buf {
            [] => Ok(0),
            [first, ..] => self.bytes.write(&[*first]),
        }
    }

    fn flush(&mut self) -> io::Result<()> {
        Ok(())
    }
}
