//! [`run_words`] and [`run_words_reported`] run a command line, and return the exit status.
ghost use Rattle.std.specs.Prelude.{◌≡◌, ◌≤◌, ◌<◌, ◌-◌, ◌^◌, ℕ, List, map};
ghost use Rattle.ascii_grid.specs.Device.{Writes};
ghost use Rattle.clap.specs.Words.{kind_of};
ghost use Rattle.request.specs.CommandLine.{words_given};
ghost use Rattle.relief.specs.Ends.{EndsLine, EndsProgram, EndsRun, EndsShowing, WritesLine};
ghost use Rattle.relief.specs.FaultLine.{fault_line, fault_status};
ghost use Rattle.relief.specs.Runs.{Runs};

use crate::fault::RunFault;
use crate::fault_line::{tell, write_bad_word, write_maps_fault};
use crate::running::{run, run_gated};
use ascii_grid::{Counted, WriteFailed};
use clap::Error;
use clap::error::ErrorKind;
use request::{Options, WordsFault, parse};
use std::alloc::Global;
use std::io::{Read, Write};
use std::sync::Wait;
use std::thread::Threads;
use tile_jobs::{Gate, NoGate};

/// A [`Gate`] that reports the progress of a run.
pub trait Progress: Gate {
    /// Called once when a run with `--progress` has ended, before any fault line is written.
    fn finish(&self);
}

impl Progress for NoGate {
    fn finish(&self) {}
}

const DONE: u8 = 0;

const WORDS_REFUSED: u8 = 1;

const NO_MEMORY: u8 = 3;

/// The length of the list that [`keep_freed_lists`] frees: 16 MiB and 128 KiB.
/// Lists of up to that length are then kept, among them 4 million counts.
const LONGEST_KEPT: usize = (1 << 24) + (1 << 17);

/// Writes `text` without trailing white space, then a line feed, and flushes.
fn write_line<W: Write>(text: &str, out: &mut Counted<W>) -> Result<(), WriteFailed>
    requires { out.old.failures < 2 ^ 64 - 1 }
    ensures { (line : List ℕ) × EndsLine line × Writes W.contents out.old out.new line result }
{
    out.write_all(text.trim_end().as_bytes())?;
    out.write_all(b"\n")?;
    out.flush()
}

/// Writes `text` by [`write_line`], and returns `status` even if the write fails.
fn show<W: Write>(text: &str, out: &mut Counted<W>, status: u8) -> u8
    requires { out.old.failures < 2 ^ 64 - 1 }
    ensures status { result ≡ status }
    ensures line { (line : List ℕ) × EndsLine line × WritesLine W.contents out.old out.new line }
{
    let _ = write_line(text, out);
    status
}

/// Writes the text of an error of `clap`, and returns the exit status.
/// Help and the version go to `writer`, refusals to `errors`. If memory is refused, writes nothing.
fn show_error<W: Write, E: Write>(
    alloc: Global,
    error: &Error,
    writer: &mut Counted<W>,
    errors: &mut Counted<E>,
) -> u8
    requires writer { writer.old.failures < 2 ^ 64 - 1 }
    requires errors { errors.old.failures < 2 ^ 64 - 1 }
    ensures { EndsShowing W.contents E.contents (kind_of error.now) writer.old writer.new errors.old
        errors.new result }
{
    if error.kind() == ErrorKind::OutOfMemory {
        return NO_MEMORY;
    }
    let Ok(text) = error.to_string(alloc) else {
        return NO_MEMORY;
    };
    if error.use_stderr() {
        show(text.as_str(), errors, WORDS_REFUSED)
    } else {
        show(text.as_str(), writer, DONE)
    }
}

/// Runs the program on `words`, its name first, and returns the exit status.
///
/// 0: done. 1: words refused. 2: text, tiles, a sink, a gauge, an observer, target height or radius
/// refused. 3: memory or a thread refused. 4: a device failed.
///
/// An empty list counts as the program's name alone.
///
/// Help and the version go to `writer`. `errors` gets the line of a fault, the number of the first
/// bad observer, gauge, sink or map word, another fault of map words, or the message of `clap`.
/// That number counts from 0 among the words of its kind. If memory is refused before the run,
/// nothing is written. A failed write of one of these texts does not change the status.
/// `--progress` has no effect: see [`run_words_reported`].
///
/// # Examples
///
/// ```ignore
/// let mut reader = Counted::new(rt.stdin());
/// let mut writer = Counted::new(rt.stdout());
/// let mut errors = Counted::new(rt.stderr());
/// let words = ["relief", "fill", "--tile=1"].as_slice();
/// let status = run_words(&rt, rt.alloc(), words, &mut reader, &mut writer, &mut errors);
/// ```
pub fn run_words<H: Threads + Wait + Sync, R: Read, W: Write, E: Write>(
    rt: &H,
    alloc: Global,
    words: &[&str],
    reader: &mut Counted<R>,
    writer: &mut Counted<W>,
    errors: &mut Counted<E>,
) -> u8
    requires reader { reader.old.failures < 2 ^ 64 - 1 }
    requires writer { writer.old.failures < 2 ^ 64 - 1 }
    requires errors { errors.old.failures < 2 ^ 64 - 1 }
    ensures small { result ≤ 4 }
    ensures ends { EndsProgram R.remaining W.contents E.contents
        (words_given (map (λ w. w.now) words.now))
        reader.old reader.new writer.old writer.new errors.old errors.new result }
{
    run_words_reported(rt, alloc, words, reader, writer, errors, &NoGate)
}

/// Runs as [`run_words`] does, and calls `progress` if `words` have `--progress`.
pub fn run_words_reported<
    H: Threads + Wait + Sync,
    R: Read,
    W: Write,
    E: Write,
    P: Progress + Sync,
>(
    rt: &H,
    alloc: Global,
    words: &[&str],
    reader: &mut Counted<R>,
    writer: &mut Counted<W>,
    errors: &mut Counted<E>,
    progress: &P,
) -> u8
    requires reader { reader.old.failures < 2 ^ 64 - 1 }
    requires writer { writer.old.failures < 2 ^ 64 - 1 }
    requires errors { errors.old.failures < 2 ^ 64 - 1 }
    ensures small { result ≤ 4 }
    ensures ends { EndsProgram R.remaining W.contents E.contents
        (words_given (map (λ w. w.now) words.now))
        reader.old reader.new writer.old writer.new errors.old errors.new result }
{
    match parse(alloc, words) {
        Ok(options) => { run_options(rt, alloc, &options, reader, writer, errors, progress) },
        Err(WordsFault::Clap(error)) => show_error(alloc, &error, writer, errors),
        Err(WordsFault::BadObserver(place)) => {
            let _ = write_bad_word(b"relief: bad observer word ", place, errors);
            WORDS_REFUSED
        }
        Err(WordsFault::BadGauge(place)) => {
            let _ = write_bad_word(b"relief: bad gauge word ", place, errors);
            WORDS_REFUSED
        }
        Err(WordsFault::BadSink(place)) => {
            let _ = write_bad_word(b"relief: bad sink word ", place, errors);
            WORDS_REFUSED
        }
        Err(WordsFault::BadMaps(fault)) => {
            let _ = write_maps_fault(&fault, errors);
            WORDS_REFUSED
        }
        Err(WordsFault::NoMap) => show("relief: the words name no map", errors, WORDS_REFUSED),
    }
}

fn run_reported<H: Threads + Wait + Sync, R: Read, W: Write, P: Progress + Sync>(
    rt: &H,
    alloc: Global,
    options: &Options,
    reader: &mut Counted<R>,
    writer: &mut Counted<W>,
    progress: &P,
) -> Result<(), RunFault>
    requires reader { reader.old.failures < 2 ^ 64 - 1 }
    requires writer { writer.old.failures < 2 ^ 64 - 1 }
    ensures { Runs R.remaining W.contents options.now reader.old reader.new writer.old writer.new
        result }
{
    if !options.progress() {
        return run(rt, alloc, options, reader, writer);
    }
    let result = run_gated(rt, alloc, options, reader, writer, progress);
    progress.finish();
    result
}

/// Frees one long list, after which glibc keeps the memory of freed shorter lists.
/// A map of millions of cells then touches a third fewer new pages of memory.
fn keep_freed_lists(alloc: Global) {
    drop(Vec::<u8>::with_capacity(alloc, LONGEST_KEPT));
}

fn run_options<H: Threads + Wait + Sync, R: Read, W: Write, E: Write, P: Progress + Sync>(
    rt: &H,
    alloc: Global,
    options: &Options,
    reader: &mut Counted<R>,
    writer: &mut Counted<W>,
    errors: &mut Counted<E>,
    progress: &P,
) -> u8
    requires reader { reader.old.failures < 2 ^ 64 - 1 }
    requires writer { writer.old.failures < 2 ^ 64 - 1 }
    requires errors { errors.old.failures < 2 ^ 64 - 1 }
    ensures small { result ≤ 4 }
    ensures ends { EndsRun R.remaining W.contents E.contents options.now reader.old reader.new
        writer.old writer.new errors.old errors.new result }
{
    // Each of several workers would keep what it freed, 2 bytes a cell at the peak.
    if options.workers() == 1 {
        keep_freed_lists(alloc);
    }
    match run_reported(rt, alloc, options, reader, writer, progress) {
        Ok(()) => DONE,
        Err(fault) => end_with(&fault, errors),
    }
}

/// Writes the line of a fault, and returns its exit status.
fn end_with<E: Write>(fault: &RunFault, errors: &mut Counted<E>) -> u8
    requires { errors.old.failures < 2 ^ 64 - 1 }
    ensures status { result ≡ fault_status fault.now }
    ensures line { WritesLine E.contents errors.old errors.new (fault_line fault.now) }
{
    let _ = tell(fault, errors);
    fault.status()
}
