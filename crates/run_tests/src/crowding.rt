//! At each stage of a map with as many tiles as workers, all jobs can run at once.
use relief::{Counted, Gate, Map, Observer, Options, Place, run_gated};
use std::alloc::{AllocError, Global};
use std::process::Abort;
use std::sync::Wait;
use std::sync::atomic::{AtomicU64, Ordering};
use std::test::Fail;
use std::thread;
use std::thread::Threads;

/// How often at most a held job checks whether another job has entered.
const MOST_LOOKS: u32 = 10_000_000;

/// The side of the tiles of a flat strip, in cells.
const SIDE: u32 = 2;

/// A gate that holds the first `entered.len()` jobs of a stage until all of them have entered.
/// A held job gives up after [`MOST_LOOKS`] checks for one other job.
#[derive(Drop)]
struct Crowd {
    // how often each of the first jobs has entered
    entered: Vec<AtomicU64>,
    missed: AtomicU64,
}

/// Returns a count of 0 for each job.
pub(crate) fn counts_of(alloc: Global, jobs: u32) -> Result<Vec<AtomicU64>, AllocError> {
    let mut counts = Vec::new(alloc);
    for _ in 0..jobs {
        counts.push(AtomicU64::new(0)).map_err(AllocError::from)?;
    }
    Ok(counts)
}

impl Crowd {
    fn new(alloc: Global, jobs: u32) -> Result<Crowd, AllocError> {
        Ok(Crowd {
            entered: counts_of(alloc, jobs)?,
            missed: AtomicU64::new(0),
        })
    }

    /// Waits until `job`, a count of entries, is above `before`; returns false on giving up.
    fn enters_again(&self, job: &AtomicU64, before: u64) -> bool {
        for _ in 0..MOST_LOOKS {
            if job.load(Ordering::SeqCst) > before {
                return true;
            }
            thread::yield_now();
        }
        false
    }
}

impl Gate for Crowd {
    fn enter(&self, job: u32) {
        let Some(own) = self.entered.get(job as usize) else {
            return;
        };
        let before = own.fetch_add(1, Ordering::SeqCst);
        for other in &self.entered {
            if !self.enters_again(other, before) {
                self.missed.fetch_add(1, Ordering::SeqCst);
                return;
            }
        }
    }
}

/// Returns the text of a strip of `tiles` tiles, whose heights are all 7.
fn level_strip(alloc: Global, tiles: u32) -> Result<Vec<u8>, Fail> {
    let cols = tiles.wrapping_mul(SIDE);
    let header = format!(in alloc;
        "ncols {cols}\nnrows {SIDE}\nxllcorner 0\nyllcorner 0\ncellsize 1\n"
    )?;
    let mut text = Vec::from_slice(alloc, header.as_bytes())?;
    for _ in 0..cols.wrapping_mul(SIDE) {
        text.extend_from_slice(b"7 ")?;
    }
    Ok(text)
}

/// Asserts that at each stage of the map all jobs run at once, each held until all have entered.
/// There are as many tiles as workers.
fn expect_crowded<R: Abort + Threads + Wait + Sync>(
    rt: &R,
    alloc: Global,
    map: Map,
    workers: u32,
    stages: u64,
) -> Result<(), Fail> {
    let text = level_strip(alloc, workers)?;
    let options = Options::new(map, SIDE, workers, 0).ok_or("options")?;
    let crowd = Crowd::new(alloc, workers)?;
    let mut out = Vec::new(alloc);
    let mut reader = Counted::new(text.as_slice());
    let mut writer = Counted::new(&mut out);
    let result = run_gated(rt, alloc, &options, &mut reader, &mut writer, &crowd);
    assert_eq!(rt; result, Ok(()), "{workers} workers");
    assert_eq!(rt; crowd.missed.load(Ordering::SeqCst), 0, "{workers} workers");
    for entered in &crowd.entered {
        assert_eq!(rt; entered.load(Ordering::SeqCst), stages, "{workers} workers");
    }
    Ok(())
}

#[test]
fn as_many_tiles_at_once_as_workers(rt: HostRuntime) -> Result<(), Fail> {
    let alloc = rt.alloc();
    for workers in [3, 8, 64] {
        expect_crowded(&rt, alloc, Map::Basins, workers, 6)?;
        let mut gauges = Vec::new(alloc);
        gauges
            .push(Place { row: 0, col: 0 })
            .map_err(AllocError::from)?;
        expect_crowded(&rt, alloc, Map::Catchments { gauges }, workers, 6)?;
        let mut observers = Vec::new(alloc);
        let corner = Observer {
            row: 0,
            col: 0,
            eye: 0,
        };
        observers.push(corner).map_err(AllocError::from)?;
        let view = Map::View {
            observers,
            target: 0,
            radius: 9,
        };
        expect_crowded(&rt, alloc, view, workers, 2)?;
    }
    Ok(())
}
