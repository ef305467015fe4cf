//! Runs the program on command lines, and checks exit statuses, help, fault lines and progress.
//! Also checks, without a run, observer and sink words, fault lines and the limits of options.
use relief::{
    Counted, Gate, GaugeFault, GridFault, JobFault, Key, Map, Observer, Options, Place, Progress,
    RunFault, SightFault, SinkFault, TilingFault, VERSION, WriteFailed, parse_observer, parse_sink,
    run_words, run_words_reported, tell,
};
use std::alloc::Global;
use std::sync::Wait;
use std::sync::atomic::{AtomicU64, Ordering};
use std::test::Fail;
use std::thread::Threads;

const BOWL: &[u8] =
    b"ncols 3\nnrows 3\nxllcorner 0\nyllcorner 0\ncellsize 1\n9 9 9\n9 1 9\n9 9 9\n";

/// The exit status, the output and the error lines of the program on the bowl.
#[derive(Drop)]
struct Outcome {
    status: u8,
    out: Vec<u8>,
    errors: Vec<u8>,
}

fn outcome_of<R: Threads + Wait + Sync>(rt: &R, alloc: Global, words: &[&str]) -> Outcome {
    let mut out = Vec::new(alloc);
    let mut errors = Vec::new(alloc);
    let mut reader = Counted::new(BOWL);
    let mut writer = Counted::new(&mut out);
    let mut lines = Counted::new(&mut errors);
    let status = run_words(rt, alloc, words, &mut reader, &mut writer, &mut lines);
    drop(lines);
    drop(writer);
    Outcome {
        status,
        out,
        errors,
    }
}

/// Command lines, with the exit status and the error lines that they give.
const STATUSES: [(&[&str], u8, &[u8]); 11] = [
    (&["relief", "fill", "--tile=1"], 0, b""),
    (&["relief", "view", "3,0,0"], 2, b"relief: 41 Outside 0\n"),
    (
        &["relief", "view", "0,0,0", "0,0"],
        1,
        b"relief: bad observer word 1\n",
    ),
    (
        &["relief", "catchments", "0,0", "0,3"],
        2,
        b"relief: 61 GaugeOutside 1\n",
    ),
    (
        &["relief", "catchments", "--sink", "3,0", "3,0"],
        2,
        b"relief: 46 SinkOutside 0\n",
    ),
    (
        &["relief", "catchments", "0,0", "0"],
        1,
        b"relief: bad gauge word 1\n",
    ),
    (
        &["relief", "maps", "flow", "1,1"],
        1,
        b"relief: bad map word 1\n",
    ),
    (
        &["relief", "maps", "fill", "flow", "fill"],
        1,
        b"relief: a map is named twice\n",
    ),
    (
        &["relief", "maps", "fill", "catchments"],
        1,
        b"relief: catchments without a gauge\n",
    ),
    (
        &["relief", "maps", "--gauge", "1,1", "fill"],
        1,
        b"relief: a gauge without catchments\n",
    ),
    (&["relief", "--help"], 0, b""),
];

#[test]
fn words_and_statuses(rt: HostRuntime) {
    for (words, status, errors) in STATUSES {
        let outcome = outcome_of(&rt, rt.alloc(), words);
        assert_eq!(rt; outcome.status, status, "{words:?}");
        assert_eq!(rt; outcome.errors.as_slice(), errors, "{words:?}");
    }
}

/// Returns whether these words are refused, with status 1 and a message.
fn are_refused<R: Threads + Wait + Sync>(rt: &R, alloc: Global, words: &[&str]) -> bool {
    let outcome = outcome_of(rt, alloc, words);
    outcome.status == 1 && !outcome.errors.is_empty()
}

const REFUSED: [&[&str]; 7] = [
    &[],
    &["relief"],
    &["relief", "fill", "--tile", "0"],
    &["relief", "fill", "--workers", "65"],
    &["relief", "help"],
    &["relief", "catchments"],
    &["relief", "maps"],
];

#[test]
fn no_words_and_refused_words(rt: HostRuntime) {
    for words in REFUSED {
        assert!(rt; are_refused(&rt, rt.alloc(), words), "{words:?}");
    }
}

/// The help of a map gives input, output, defaults, limits and exit statuses.
#[test]
fn help_of_each_map(rt: HostRuntime) -> Result<(), Fail> {
    for name in [
        "fill",
        "flow",
        "accumulate",
        "basins",
        "catchments",
        "view",
        "maps",
    ] {
        let outcome = outcome_of(&rt, rt.alloc(), ["relief", name, "--help"].as_slice());
        assert_eq!(rt; outcome.status, 0, "{name}");
        assert!(rt; outcome.errors.is_empty(), "{name}");
        let help = String::from_utf8_lossy(rt.alloc(), outcome.out.as_slice())?;
        for part in [
            "\nUsage: relief ",
            " < dem.asc > map",
            "\nExample",
            "\nIn: ",
            "\nOut: ",
            "\nUnits: ",
            "[default: 256]",
            "\nLimits: ",
            "\nExit status:",
        ] {
            assert!(rt; help.contains(part), "{name}: {part}");
        }
    }
    Ok(())
}

#[test]
fn version_alone(rt: HostRuntime) -> Result<(), Fail> {
    let outcome = outcome_of(&rt, rt.alloc(), ["relief", "--version"].as_slice());
    assert_eq!(rt; outcome.status, 0);
    assert!(rt; outcome.errors.is_empty());
    let line = format!(in rt.alloc(); "relief {VERSION}\n")?;
    assert_eq!(rt; outcome.out.as_slice(), line.as_bytes());
    Ok(())
}

#[test]
fn observer_words(rt: HostRuntime) {
    let observer = Observer {
        row: 4_294_967_295,
        col: 2,
        eye: 0,
    };
    assert_eq!(rt; parse_observer("4294967295,02,0000000000"), Some(observer));
    for word in [
        "",
        ",,",
        "1,2",
        "1,2,3,4",
        "+1,2,3",
        "1,2,3 ",
        "4294967296,2,3",
        "00000000001,2,3",
    ] {
        assert_eq!(rt; parse_observer(word), None, "{word:?}");
    }
}

#[test]
fn sink_words(rt: HostRuntime) {
    let place = Place {
        row: 4_294_967_295,
        col: 2,
    };
    assert_eq!(rt; parse_sink("4294967295,0000000002"), Some(place));
    for word in [
        "",
        ",",
        "1",
        "1,2,3",
        "+1,2",
        "1,2 ",
        "4294967296,2",
        "1,00000000002",
    ] {
        assert_eq!(rt; parse_sink(word), None, "{word:?}");
    }
}

const FAULT_LINES: [(RunFault, &[u8]); 11] = [
    (
        RunFault::Grid(GridFault::UnknownKey),
        b"relief: 1 UnknownKey\n",
    ),
    (
        RunFault::Grid(GridFault::RepeatedKey(Key::Xll)),
        b"relief: 2 RepeatedKey xll\n",
    ),
    (
        RunFault::Grid(GridFault::BadHeight(16_777_215)),
        b"relief: 7 BadHeight 16777215\n",
    ),
    (
        RunFault::Tiling(TilingFault::TooManyTiles),
        b"relief: 22 TooManyTiles\n",
    ),
    (RunFault::Jobs(JobFault::NoThread), b"relief: 32 NoThread\n"),
    (
        RunFault::Sight(SightFault::BadEye(None)),
        b"relief: 44 BadEye\n",
    ),
    (
        RunFault::Sight(SightFault::BadEye(Some(7))),
        b"relief: 44 BadEye 7\n",
    ),
    (
        RunFault::Sinks(SinkFault::OnNodata(1)),
        b"relief: 47 SinkOnNodata 1\n",
    ),
    (
        RunFault::Gauges(GaugeFault::OnNodata(1)),
        b"relief: 62 GaugeOnNodata 1\n",
    ),
    (
        RunFault::Gauges(GaugeFault::TooManyGauges),
        b"relief: 63 TooManyGauges\n",
    ),
    (RunFault::Read, b"relief: 51 Read\n"),
];

#[test]
fn fault_lines(rt: HostRuntime) {
    for (fault, line) in FAULT_LINES {
        let mut out = Vec::new(rt.alloc());
        let mut writer = Counted::new(&mut out);
        let outcome: Result<(), WriteFailed> = tell(&fault, &mut writer);
        assert_eq!(rt; outcome, Ok(()));
        drop(writer);
        assert_eq!(rt; out.as_slice(), line);
    }
}

#[test]
fn options_in_their_limits(rt: HostRuntime) {
    for (tile, workers, scale, within) in [
        (1, 1, 0, true),
        (4096, 64, 6, true),
        (0, 1, 0, false),
        (4097, 1, 0, false),
        (1, 0, 0, false),
        (1, 65, 0, false),
        (1, 1, 7, false),
    ] {
        assert_eq!(rt;
            Options::new(Map::Flow, tile, workers, scale).is_some(),
            within,
            "{tile} {workers} {scale}"
        );
    }
}

/// A gate that counts the calls of a run, except those of `enter`.
#[derive(Drop)]
struct Tally {
    stages: AtomicU64,
    due_jobs: AtomicU64,
    jobs: AtomicU64,
    job_numbers: AtomicU64,
    parts: AtomicU64,
    due_parts: AtomicU64,
    /// With one worker, the number of jobs that left before all their parts were finished.
    /// A job of the second stage has a part for each observer, one of the first none.
    early: AtomicU64,
    ends: AtomicU64,
}

/// The number of observers in the words of `progress_of_a_view`.
const OBSERVERS: u64 = 3;

/// The number of tiles of the bowl, of side 2.
const TILES: u64 = 4;

impl Gate for Tally {
    fn enter(&self, _job: u32) {}

    fn begin_stage(&self, jobs: u32) {
        self.stages.fetch_add(1, Ordering::SeqCst);
        self.due_jobs.fetch_add(u64::from(jobs), Ordering::SeqCst);
    }

    fn leave(&self, job: u32) {
        let before = self.jobs.fetch_add(1, Ordering::SeqCst);
        self.job_numbers.fetch_add(u64::from(job), Ordering::SeqCst);
        let viewed = before.saturating_add(1).saturating_sub(TILES);
        if self.parts.load(Ordering::SeqCst) != viewed.wrapping_mul(OBSERVERS) {
            self.early.fetch_add(1, Ordering::SeqCst);
        }
    }

    fn finish_part(&self, parts: usize) {
        self.parts.fetch_add(1, Ordering::SeqCst);
        self.due_parts.fetch_add(parts as u64, Ordering::SeqCst);
    }
}

impl Progress for Tally {
    fn finish(&self) {
        self.ends.fetch_add(1, Ordering::SeqCst);
    }
}

impl Tally {
    fn new() -> Tally {
        Tally {
            stages: AtomicU64::new(0),
            due_jobs: AtomicU64::new(0),
            jobs: AtomicU64::new(0),
            job_numbers: AtomicU64::new(0),
            parts: AtomicU64::new(0),
            due_parts: AtomicU64::new(0),
            early: AtomicU64::new(0),
            ends: AtomicU64::new(0),
        }
    }

    /// Returns all counts but `early`, in the order of the fields.
    fn counts(&self) -> [u64; 7] {
        [
            self.stages.load(Ordering::SeqCst),
            self.due_jobs.load(Ordering::SeqCst),
            self.jobs.load(Ordering::SeqCst),
            self.job_numbers.load(Ordering::SeqCst),
            self.parts.load(Ordering::SeqCst),
            self.due_parts.load(Ordering::SeqCst),
            self.ends.load(Ordering::SeqCst),
        ]
    }
}

/// Runs the program on the bowl, and returns its gate with the counts of its calls.
fn reported<R: Threads + Wait + Sync>(rt: &R, alloc: Global, words: &[&str]) -> Tally {
    let tally = Tally::new();
    let mut out = Vec::new(alloc);
    let mut errors = Vec::new(alloc);
    let mut reader = Counted::new(BOWL);
    let mut writer = Counted::new(&mut out);
    let mut lines = Counted::new(&mut errors);
    run_words_reported(
        rt,
        alloc,
        words,
        &mut reader,
        &mut writer,
        &mut lines,
        &tally,
    );
    tally
}

/// This viewshed has two stages of four jobs. Those of the second have a part for each observer.
#[test]
fn progress_of_a_view(rt: HostRuntime) {
    for workers in ["--workers=1", "--workers=2"] {
        let words = [
            "relief",
            "view",
            "--tile=2",
            workers,
            "--progress",
            "0,0,0",
            "1,1,0",
            "2,2,0",
        ];
        let tally = reported(&rt, rt.alloc(), words.as_slice());
        assert_eq!(rt; tally.counts(), [2, 8, 8, 12, 12, 36, 1]);
        if workers == "--workers=1" {
            assert_eq!(rt; tally.early.load(Ordering::SeqCst), 0);
        }
    }
}

/// A run refused before its first stage calls `finish` alone, one without `--progress` nothing.
#[test]
fn progress_where_asked_for(rt: HostRuntime) {
    let refused = ["relief", "view", "--tile=2", "--progress", "3,0,0"];
    let tally = reported(&rt, rt.alloc(), refused.as_slice());
    assert_eq!(rt; tally.counts(), [0, 0, 0, 0, 0, 0, 1]);
    let silent = ["relief", "view", "--tile=2", "0,0,0"];
    let tally = reported(&rt, rt.alloc(), silent.as_slice());
    assert_eq!(rt; tally.counts(), [0; 7]);
}
