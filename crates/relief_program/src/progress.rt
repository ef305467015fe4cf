//! Reports the progress of a run on standard error: [`ProgressReport`].
use relief::{Gate, Progress};
use std::alloc::Global;
use std::io::{IsTerminal, Stderr, Write};
use std::sync::{Mutex, Wait};
use std::time::{Clock, Instant};

/// The least time between two reports on a terminal, in milliseconds.
const LEAST_PAUSE_MS: u128 = 100;

/// Moves to the start of a terminal's line and clears the line.
const CLEAR_LINE: &str = "\r\x1b[K";

/// The progress of a stage, and the stream to which it is reported.
#[derive(Drop)]
struct StageProgress {
    errors: Stderr,
    number: u32,
    jobs: u64,
    finished_jobs: u64,
    /// How many parts of the stage's jobs are finished.
    finished_parts: u64,
    /// How many parts each job has; 0 before any part is finished, or if jobs have no parts.
    parts: u64,
    reported_tenths: u64,
    last_report: Option<Instant>,
    is_shown: bool,
}

impl StageProgress {
    /// Returns how much of the stage is finished, from 0 to 100.
    fn percent(&self) -> u64 {
        let (finished, due) = if self.parts > 0 {
            (self.finished_parts, self.jobs.saturating_mul(self.parts))
        } else {
            (self.finished_jobs, self.jobs)
        };
        finished
            .saturating_mul(100)
            .checked_div(due)
            .unwrap_or(100)
            .min(100)
    }

    /// Replaces the terminal's line, at most once in [`LEAST_PAUSE_MS`] milliseconds.
    /// Does nothing if the clock fails.
    fn report_in_place(&mut self, alloc: Global, clock: &impl Clock) {
        let Ok(now) = Instant::now(clock) else {
            return;
        };
        if let Some(last) = self.last_report {
            if now.duration_since(last).as_millis() < LEAST_PAUSE_MS {
                return;
            }
        }
        self.last_report = Some(now);
        self.is_shown = true;
        let percent = self.percent();
        if let Ok(line) = format!(in alloc;
            "{CLEAR_LINE}relief: stage {}: {percent} %",
            self.number
        ) {
            let _ = self.errors.write_all(line.as_bytes());
        }
    }

    /// Clears the terminal's line if it shows one.
    fn clear(&mut self) {
        if self.is_shown {
            self.is_shown = false;
            let _ = self.errors.write_all(CLEAR_LINE.as_bytes());
        }
    }

    /// Writes a line if a further tenth of the stage is finished.
    fn report_tenths(&mut self, alloc: Global) {
        let tenths = self.percent() / 10;
        if tenths <= self.reported_tenths {
            return;
        }
        self.reported_tenths = tenths;
        if let Ok(line) = format!(in alloc; "relief: stage {}: {tenths}0 %\n", self.number) {
            let _ = self.errors.write_all(line.as_bytes());
        }
    }
}

/// A [`Gate`] that reports the progress of each stage of a run.
///
/// On a terminal it replaces one line at most ten times a second. It clears the line when all jobs
/// of a stage succeed or the run ends: the map or a fault may be written there. Elsewhere it writes
/// a line whenever a further tenth is finished. It drops lines that cannot be allocated or written.
#[derive(Drop)]
pub struct ProgressReport<'a, R> {
    rt: &'a R,
    alloc: Global,
    is_in_place: bool,
    stage: Mutex<StageProgress>,
}

impl<'a, R: Clock + Wait> ProgressReport<'a, R> {
    /// Makes a report that writes to `errors`, before the first stage.
    pub fn new(rt: &'a R, alloc: Global, errors: Stderr) -> Self {
        ProgressReport {
            rt,
            alloc,
            is_in_place: errors.is_terminal(),
            stage: Mutex::new(StageProgress {
                errors,
                number: 0,
                jobs: 0,
                finished_jobs: 0,
                finished_parts: 0,
                parts: 0,
                reported_tenths: 0,
                last_report: None,
                is_shown: false,
            }),
        }
    }

    fn report(&self, stage: &mut StageProgress) {
        if self.is_in_place {
            stage.report_in_place(self.alloc, self.rt);
        } else {
            stage.report_tenths(self.alloc);
        }
    }
}

impl<'a, R: Clock + Wait> Gate for ProgressReport<'a, R> {
    fn enter(&self, _job: u32) {}

    fn begin_stage(&self, jobs: u32) {
        let mut stage = self.stage.lock(self.rt);
        stage.number = stage.number.saturating_add(1);
        stage.jobs = u64::from(jobs);
        stage.finished_jobs = 0;
        stage.finished_parts = 0;
        stage.parts = 0;
        stage.reported_tenths = 0;
    }

    fn leave(&self, _job: u32) {
        let mut stage = self.stage.lock(self.rt);
        stage.finished_jobs = stage.finished_jobs.saturating_add(1);
        self.report(&mut stage);
        if stage.finished_jobs == stage.jobs {
            stage.clear();
        }
    }

    fn finish_part(&self, parts: usize) {
        let mut stage = self.stage.lock(self.rt);
        stage.parts = parts as u64;
        stage.finished_parts = stage.finished_parts.saturating_add(1);
        self.report(&mut stage);
    }
}

impl<'a, R: Clock + Wait> Progress for ProgressReport<'a, R> {
    fn finish(&self) {
        self.stage.lock(self.rt).clear();
    }
}
