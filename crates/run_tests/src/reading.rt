//! On a long text of short words, each read requests at most 4,096 bytes. A run checks the words of
//! a piece before it reads the next piece, whatever the number of workers.
ghost use Rattle.std.specs.Prelude.{◌<◌, length, IfSome};

use relief::{Counted, GridFault, Map, Options, RunFault, run};
use std::alloc::{AllocError, Global};
use std::io;
use std::io::Read;
use std::process::Abort;
use std::sync::Wait;
use std::test::Fail;
use std::thread::Threads;

/// The most bytes that one read may request, and that may be read past a bad word.
const PIECE_BYTES: usize = 4_096;

/// A header of a thousand rows and columns.
const HEADER: &[u8] = b"ncols 1000 nrows 1000 xllcorner 0 yllcorner 0 cellsize 1";

/// The number of cells of [`HEADER`].
const CELLS: u32 = 1_000_000;

/// Returns [`HEADER`] and then ` 47` for each cell, but ` /7` at `bad_cell`: 3 MB.
fn long_text(alloc: Global, bad_cell: u32) -> Result<Vec<u8>, AllocError> {
    let mut text = Vec::from_slice(alloc, HEADER)?;
    for cell in 0..CELLS {
        let word = if cell == bad_cell { b" /7" } else { b" 47" };
        text.extend_from_slice(word)?;
    }
    Ok(text)
}

/// Returns the index after the word `/7`, that of its separator.
fn end_of_bad_word(text: &[u8]) -> Option<usize>
    ensures { IfSome result (λ end. end < length text.now) }
{
    let end = text.iter().position(|b| *b == b'/')? + 2;
    (end < text.len()).then_some(end)
}

/// A reader that fails at the end of a text, and counts the bytes that it gave.
#[derive(Drop)]
struct WatchedReader<'a> {
    left: &'a [u8],
    given: usize,
    longest: usize,
}

impl Read for WatchedReader<'_> {
    fn read(&mut self, buf: &mut [u8]) -> io::Result<usize> {
        self.longest = self.longest.max(buf.len());
        if self.left.is_empty() {
            return Err(io::Error::from(io::ErrorKind::Other));
        }
        let count = self.left.read(buf)?;
        self.given = self.given.wrapping_add(count);
        Ok(count)
    }
}

/// Runs `fill` on a [`WatchedReader`], and returns how many bytes the reader gave.
/// Asserts the run's fault, the failures, and that no read requests over [`PIECE_BYTES`] bytes.
fn bytes_given(
    rt: &(impl Abort + Threads + Wait + Sync),
    alloc: Global,
    workers: u32,
    text: &[u8],
    fault: RunFault,
    failures: u64,
) -> Result<usize, Fail> {
    let options = Options::new(Map::Fill, 256, workers, 0).ok_or("options")?;
    let mut watched = WatchedReader {
        left: text,
        given: 0,
        longest: 0,
    };
    let mut out = Vec::new(alloc);
    let mut reader = Counted::new(&mut watched);
    let mut writer = Counted::new(&mut out);
    let result = run(rt, alloc, &options, &mut reader, &mut writer);
    assert_eq!(rt; result, Err(fault), "{workers} workers");
    assert_eq!(rt; reader.failures(), failures, "{workers} workers");
    let moved = reader.moved();
    drop(reader);
    drop(writer);
    assert!(rt; out.is_empty());
    assert!(rt; watched.longest <= PIECE_BYTES, "{} bytes", watched.longest);
    assert_eq!(rt; watched.given as u64, moved);
    Ok(watched.given)
}

/// A run refuses the bad word `/7` when at most 4,096 bytes past the word have been read.
///
/// It also does where the reader fails behind the word's separator, which is not noticed. Where the
/// reader fails before the separator, the failed read is the run's fault.
#[test]
fn little_is_read_ahead(rt: HostRuntime) -> Result<(), Fail> {
    let alloc = rt.alloc();
    for part in 0..46 {
        let cell = part * 21_739;
        let text = long_text(alloc, cell)?;
        let end = end_of_bad_word(&text).ok_or("a bad word")?;
        let fault = RunFault::Grid(GridFault::BadHeight(cell));
        for workers in [1, 2, 8] {
            let given = bytes_given(&rt, alloc, workers, &text, fault, 0)?;
            let ahead = given.saturating_sub(end);
            assert!(rt;
                ahead <= PIECE_BYTES,
                "{ahead} bytes, {workers} workers, cell {cell}"
            );
            let given = bytes_given(&rt, alloc, workers, &text[..end + 1], fault, 0)?;
            assert_eq!(rt; given, end + 1);
            let given = bytes_given(&rt, alloc, workers, &text[..end], RunFault::Read, 1)?;
            assert_eq!(rt; given, end);
        }
    }
    Ok(())
}

/// A long text without a bad word is read whole; the failure after it is the run's fault.
#[test]
fn a_long_text_and_a_failure(rt: HostRuntime) -> Result<(), Fail> {
    let alloc = rt.alloc();
    let text = long_text(alloc, CELLS)?;
    for workers in [1, 2, 8] {
        let given = bytes_given(&rt, alloc, workers, &text, RunFault::Read, 1)?;
        assert_eq!(rt; given, text.len());
    }
    Ok(())
}
