//! Runs from bytes to bytes, also on devices that fail or have no end.
use relief::{Counted, GridFault, Key, Map, Options, RunFault, run};
use std::alloc::Global;
use std::io;
use std::io::{Read, Write};
use std::process::Abort;
use std::sync::Wait;
use std::test::Fail;
use std::thread::Threads;

const ALL: usize = 1000;

const BOWL: &[u8] =
    b"ncols 3\nnrows 3\nxllcorner 0\nyllcorner 0\ncellsize 1\n9 9 9\n9 1 9\n9 9 9\n";

const FILLED: &[u8] =
    b"ncols         3\nnrows         3\nxllcorner     0\nyllcorner     0\ncellsize      1\nNODATA_value  -9999\n9 9 9\n9 9 9\n9 9 9\n";

/// A word of 70 letters, six more than a word may have.
const LONG_WORD: &[u8] = b"nnnnnnnnnnnnnnnnnnnnnnnnnnnnnnnnnnnnnnnnnnnnnnnnnnnnnnnnnnnnnnnnnnnnnn";

/// A reader that gives these bytes and then fails.
#[derive(Drop)]
struct Broken<'a> {
    bytes: &'a [u8],
}

impl Read for Broken<'_> {
    fn read(&mut self, buf: &mut [u8]) -> io::Result<usize> {
        if self.bytes.is_empty() {
            return Err(io::Error::from(io::ErrorKind::Interrupted));
        }
        self.bytes.read(buf)
    }
}

/// A reader that gives spaces without end, and counts them.
#[derive(Drop)]
struct Endless {
    given: u64,
}

impl Read for Endless {
    fn read(&mut self, buf: &mut [u8]) -> io::Result<usize> {
        for byte in buf.iter_mut() {
            *byte = b' ';
        }
        self.given = self.given.wrapping_add(buf.len() as u64);
        Ok(buf.len())
    }
}

/// A writer that takes at most `each` bytes a call and `room` bytes in all.
/// Then it returns an error, or 0 if `stuck`.
#[derive(Drop)]
struct Short {
    taken: Vec<u8>,
    each: usize,
    room: usize,
    stuck: bool,
    flushes: bool,
}

impl Short {
    fn new(alloc: Global, each: usize, room: usize) -> Short {
        Short {
            taken: Vec::new(alloc),
            each,
            room,
            stuck: false,
            flushes: true,
        }
    }
}

impl Write for Short {
    fn write(&mut self, buf: &[u8]) -> io::Result<usize> {
        let count = self.each.min(self.room).min(buf.len());
        if count == 0 && !buf.is_empty() && !self.stuck {
            return Err(io::Error::from(io::ErrorKind::Other));
        }
        self.taken.write(&buf[..count])?;
        self.room -= count;
        Ok(count)
    }

    fn flush(&mut self) -> io::Result<()> {
        if self.flushes {
            Ok(())
        } else {
            Err(io::Error::from(io::ErrorKind::Other))
        }
    }
}

/// Numbers of workers. With several, a run writes by jobs.
const WORKERS: [u32; 3] = [1, 2, 8];

/// Runs `fill` on the bowl, and asserts the bytes written and the failures.
fn expect_written(
    rt: &(impl Abort + Threads + Wait + Sync),
    alloc: Global,
    workers: u32,
    mut short: Short,
    length: usize,
    failures: u64,
) -> Result<(), Fail> {
    let options = Options::new(Map::Fill, 256, workers, 0).ok_or("options")?;
    let mut reader = Counted::new(BOWL);
    let mut writer = Counted::new(&mut short);
    let result = run(rt, alloc, &options, &mut reader, &mut writer);
    assert_eq!(rt;
        writer.failures(),
        failures,
        "{length} bytes, {workers} workers"
    );
    assert_eq!(rt; writer.moved(), length as u64);
    drop(writer);
    let wanted = if failures == 0 {
        Ok(())
    } else {
        Err(RunFault::Write)
    };
    assert_eq!(rt; result, wanted, "{length} bytes, {workers} workers");
    assert_eq!(rt; short.taken.len(), length);
    assert!(rt; FILLED.starts_with(&short.taken), "{length} bytes");
    Ok(())
}

/// The filled bowl is written byte for byte, and no device fails.
#[test]
fn bowl_of_nines(rt: HostRuntime) -> Result<(), Fail> {
    let options = Options::new(Map::Fill, 256, 1, 0).ok_or("options")?;
    let mut out = Vec::new(rt.alloc());
    let mut reader = Counted::new(BOWL);
    let mut writer = Counted::new(&mut out);
    let result = run(&rt, rt.alloc(), &options, &mut reader, &mut writer);
    assert_eq!(rt; result, Ok(()));
    assert_eq!(rt; reader.failures(), 0);
    assert_eq!(rt; writer.failures(), 0);
    drop(writer);
    assert_eq!(rt; out.as_slice(), FILLED);
    Ok(())
}

#[test]
fn a_writer_that_fails(rt: HostRuntime) -> Result<(), Fail> {
    let alloc = rt.alloc();
    let length = FILLED.len();
    for workers in WORKERS {
        let step = if workers == 1 { 1 } else { 9 };
        for room in (0..length).step_by(step) {
            expect_written(&rt, alloc, workers, Short::new(alloc, ALL, room), room, 1)?;
        }
        let roomy = Short::new(alloc, ALL, length);
        expect_written(&rt, alloc, workers, roomy, length, 0)?;
    }
    assert_eq!(rt; RunFault::Write.number(), 52);
    assert_eq!(rt; RunFault::Write.status(), 4);
    Ok(())
}

#[test]
fn a_writer_of_single_bytes(rt: HostRuntime) -> Result<(), Fail> {
    let alloc = rt.alloc();
    for workers in WORKERS {
        let single = Short::new(alloc, 1, ALL);
        expect_written(&rt, alloc, workers, single, FILLED.len(), 0)?;
        let mut stuck = Short::new(alloc, 1, 2);
        stuck.stuck = true;
        expect_written(&rt, alloc, workers, stuck, 2, 1)?;
    }
    Ok(())
}

#[test]
fn a_flush_that_fails(rt: HostRuntime) -> Result<(), Fail> {
    let alloc = rt.alloc();
    for workers in WORKERS {
        let mut short = Short::new(alloc, ALL, ALL);
        short.flushes = false;
        expect_written(&rt, alloc, workers, short, FILLED.len(), 1)?;
    }
    Ok(())
}

/// A reader of up to seven bytes a call that fails once, after `calls` calls.
#[derive(Drop)]
struct Sevens<'a> {
    bytes: &'a [u8],
    calls: u32,
    kind: io::ErrorKind,
}

impl Read for Sevens<'_> {
    fn read(&mut self, buf: &mut [u8]) -> io::Result<usize> {
        if self.calls == 0 {
            self.calls = u32::MAX;
            return Err(io::Error::from(self.kind));
        }
        self.calls -= 1;
        let count = buf.len().min(7);
        self.bytes.read(&mut buf[..count])
    }
}

/// Returns the result of a run whose reader fails once, after `calls` calls.
fn run_of_sevens(
    rt: &(impl Abort + Threads + Wait + Sync),
    alloc: Global,
    workers: u32,
    calls: u32,
    kind: io::ErrorKind,
) -> Result<Result<(), RunFault>, Fail> {
    let options = Options::new(Map::Fill, 256, workers, 0).ok_or("options")?;
    let mut out = Vec::new(alloc);
    let mut reader = Counted::new(Sevens {
        bytes: BOWL,
        calls,
        kind,
    });
    let mut writer = Counted::new(&mut out);
    let result = run(rt, alloc, &options, &mut reader, &mut writer);
    drop(writer);
    let length = if result.is_ok() { FILLED.len() } else { 0 };
    assert_eq!(rt; out.len(), length, "after {calls} calls");
    Ok(result)
}

/// The bowl has 69 bytes: ten reads, and an eleventh that finds the end.
#[test]
fn a_reader_that_fails_once(rt: HostRuntime) -> Result<(), Fail> {
    let alloc = rt.alloc();
    for workers in WORKERS {
        for calls in 0..11 {
            let result = run_of_sevens(&rt, alloc, workers, calls, io::ErrorKind::Other)?;
            assert_eq!(rt;
                result,
                Err(RunFault::Read),
                "{calls} calls, {workers} workers"
            );
        }
        let result = run_of_sevens(&rt, alloc, workers, 11, io::ErrorKind::Other)?;
        assert_eq!(rt; result, Ok(()), "{workers} workers");
        let result = run_of_sevens(&rt, alloc, workers, 1, io::ErrorKind::Interrupted)?;
        assert_eq!(rt; result, Err(RunFault::Read), "{workers} workers");
    }
    Ok(())
}

/// Asserts the fault of a run whose reader gives these bytes and then fails.
fn expect_refused(
    rt: &(impl Abort + Threads + Wait + Sync),
    alloc: Global,
    workers: u32,
    bytes: &[u8],
    fault: RunFault,
) -> Result<(), Fail> {
    let options = Options::new(Map::Fill, 256, workers, 0).ok_or("options")?;
    let mut out = Vec::new(alloc);
    let mut reader = Counted::new(Broken { bytes });
    let mut writer = Counted::new(&mut out);
    let result = run(rt, alloc, &options, &mut reader, &mut writer);
    assert_eq!(rt; result, Err(fault), "after {bytes:?}, {workers} workers");
    let failures = if fault == RunFault::Read { 1 } else { 0 };
    assert_eq!(rt;
        reader.failures(),
        failures,
        "after {bytes:?}, {workers} workers"
    );
    drop(writer);
    assert!(rt; out.is_empty());
    Ok(())
}

/// If a read fails, only the words with a separator after them have been checked.
#[test]
fn a_reader_that_fails(rt: HostRuntime) -> Result<(), Fail> {
    for (bytes, fault) in [
        (b"".as_slice(), RunFault::Read),
        (b"ncols 4097".as_slice(), RunFault::Read),
        (b"ncols 3 ".as_slice(), RunFault::Read),
        (LONG_WORD, RunFault::Read),
        (BOWL, RunFault::Read),
        (
            b"ncols 4097 ".as_slice(),
            RunFault::Grid(GridFault::BadSize(Key::Ncols)),
        ),
    ] {
        for workers in WORKERS {
            expect_refused(&rt, rt.alloc(), workers, bytes, fault)?;
        }
    }
    assert_eq!(rt; RunFault::Read.number(), 51);
    Ok(())
}

/// The text is refused as too long after at most 2^29 + 1 bytes.
#[test]
fn a_reader_without_end(rt: HostRuntime) -> Result<(), Fail> {
    let options = Options::new(Map::Fill, 256, 1, 0).ok_or("options")?;
    let mut endless = Endless { given: 0 };
    let mut out = Vec::new(rt.alloc());
    let mut reader = Counted::new(&mut endless);
    let mut writer = Counted::new(&mut out);
    let result = run(&rt, rt.alloc(), &options, &mut reader, &mut writer);
    assert_eq!(rt; result, Err(RunFault::Grid(GridFault::TooLong)));
    let moved = reader.moved();
    assert!(rt; moved <= 536_870_913, "{moved} bytes");
    assert_eq!(rt; writer.moved(), 0);
    drop(reader);
    assert_eq!(rt; endless.given, moved);
    Ok(())
}
