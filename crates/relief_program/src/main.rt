//! The program `relief`: calls `run_words_reported` on its arguments and streams.
#![tactic(auto)]

mod progress;

use ascii_grid::Counted;
use progress::ProgressReport;
use relief::run_words_reported;
use std::env;
use std::io::{self, ErrorKind, Write};
use std::process::ExitCode;
use std::rt::Env;

const WORDS_REFUSED: u8 = 1;

const NO_MEMORY: u8 = 3;

/// Returns the exit status for unreadable words. Writes a line unless memory was refused.
fn refuse_words(error: &io::Error, errors: &mut impl Write) -> u8 {
    if error.kind() == ErrorKind::OutOfMemory {
        return NO_MEMORY;
    }
    let _ = errors.write_all(b"relief: a word is not UTF-8\n");
    WORDS_REFUSED
}

fn read_words(rt: &(impl Env + AllocGlobal)) -> io::Result<Vec<String>> {
    let words = env::args(rt)?.collect(rt.alloc())?;
    Ok(words)
}

fn main(rt: HostRuntime) -> ExitCode {
    let words = match read_words(&rt) {
        Ok(words) => words,
        Err(error) => return ExitCode::from(refuse_words(&error, &mut rt.stderr())),
    };
    let Ok(words) = words
        .iter()
        .map(|word| word.as_str())
        .collect::<Vec<&str>>(rt.alloc())
    else {
        return ExitCode::from(NO_MEMORY);
    };
    let mut reader = Counted::new(rt.stdin());
    let mut writer = Counted::new(rt.stdout());
    let mut errors = Counted::new(rt.stderr());
    let progress = ProgressReport::new(&rt, rt.alloc(), rt.stderr());
    ExitCode::from(run_words_reported(
        &rt,
        rt.alloc(),
        &words,
        &mut reader,
        &mut writer,
        &mut errors,
        &progress,
    ))
}
