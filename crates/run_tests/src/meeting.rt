//! At each stage of each map, two jobs run at once.
ghost use Rattle.tiles.specs.Cutting.{Cuts};

use ascii_grid::{Counted, read_text};
use drain::directions;
use fill::filled;
use flow::{accumulation, basins, catchments};
use relief::{Map, Options, Place, run_gated};
use sight::{Observer, viewshed};
use std::alloc::Global;
use std::process::Abort;
use std::sync::Wait;
use std::sync::atomic::{AtomicU64, Ordering};
use std::thread;
use std::thread::Threads;
use terrain::Grid;
use tile_jobs::{Gate, NoGate};
use tiles::Tiling;

/// A pit of two cells on the diagonal of 4 by 4 cells, which spills at height 3.
const PIT_OF_TWO: &[u8] =
    b"ncols 4\nnrows 4\nxllcorner 0\nyllcorner 0\ncellsize 1\n9 9 9 9\n9 1 9 9\n9 9 2 9\n9 9 9 3\n";

/// Two hollows in two tiles of side 3, which spill at height 6 in the second.
const VALLEY: &[u8] =
    b"ncols 6\nnrows 3\nxllcorner 0\nyllcorner 0\ncellsize 1\n9 9 9 9 9 9\n9 1 5 4 1 6\n9 9 9 9 9 9\n";

/// Two corridors through two tiles of side 5. One has its outlet in the first tile,
/// the other in the second, so each tile gets steps from the other.
const CORRIDORS: &[u8] = b"ncols 10\nnrows 5\nxllcorner 0\nyllcorner 0\ncellsize 1
9 9 9 9 9 9 1 9 9 9
9 9 9 1 1 1 1 9 9 9
9 9 9 9 9 9 9 9 9 9
9 9 9 1 1 1 1 9 9 9
9 9 9 1 9 9 9 9 9 9
";

const LEVEL: &[u8] =
    b"ncols 5\nnrows 2\nxllcorner 0\nyllcorner 0\ncellsize 1\n5 5 5 5 5\n5 5 5 5 5\n";

/// How often at most a held job checks whether the other job has entered.
const MOST_LOOKS: u32 = 10_000_000;

/// A gate that holds a stage's first two jobs until both have entered, or gives up.
#[derive(Drop)]
struct Meeting {
    // how often each of the first two jobs has entered: once at each stage
    entered: [AtomicU64; 2],
    all: AtomicU64,
    looks: u32,
    missed: AtomicU64,
}

impl Gate for Meeting {
    fn enter(&self, job: u32) {
        self.all.fetch_add(1, Ordering::SeqCst);
        if job > 1 {
            return;
        }
        let own = job as usize;
        let before = self.entered[own].fetch_add(1, Ordering::SeqCst);
        for _ in 0..self.looks {
            if self.entered[1 - own].load(Ordering::SeqCst) > before {
                return;
            }
            thread::yield_now();
        }
        self.missed.fetch_add(1, Ordering::SeqCst);
    }
}

impl Meeting {
    fn new() -> Meeting {
        Meeting {
            entered: [AtomicU64::new(0), AtomicU64::new(0)],
            all: AtomicU64::new(0),
            looks: MOST_LOOKS,
            missed: AtomicU64::new(0),
        }
    }

    /// Asserts that the first two jobs met, at `least` stages or more.
    fn expect_met(&self, rt: &impl Abort, least: u64, map: &str) {
        for entered in &self.entered {
            assert!(rt; least <= entered.load(Ordering::SeqCst), "{map}");
        }
        assert_eq!(rt; self.missed.load(Ordering::SeqCst), 0, "{map}");
    }

    /// Asserts that the first two jobs met at `stages` stages, which had `stages * tiles` jobs.
    fn expect(&self, rt: &impl Abort, stages: u64, tiles: u64, map: &str) {
        let first = self.entered[0].load(Ordering::SeqCst);
        let second = self.entered[1].load(Ordering::SeqCst);
        assert_eq!(rt; (first, second), (stages, stages), "{map}");
        assert_eq!(rt;
            self.all.load(Ordering::SeqCst),
            stages.wrapping_mul(tiles),
            "{map}"
        );
        assert_eq!(rt; self.missed.load(Ordering::SeqCst), 0, "{map}");
    }
}

const CORNER: Observer = Observer {
    row: 0,
    col: 0,
    eye: 0,
};

pub(crate) fn cut(rt: &impl Abort, alloc: Global, text: &[u8], side: u32) -> (Grid, Tiling)
    ensures { Cuts result.1 result.0.terrain }
{
    let grid = read_text(alloc, 0, text).expect(rt, "a grid");
    let tiling = Tiling::new(grid.cols(), grid.rows(), side).expect(rt, "a tiling");
    (grid, tiling)
}

/// Each stage has as many jobs as there are tiles.
/// The stages of `viewshed` find greatest heights of blocks, then values. Those of `filled` flood,
/// then raise. Those of `accumulation`, `basins` and `catchments` find flow in tiles, then values.
#[test]
fn tiles_meet_at_each_stage(rt: HostRuntime) {
    let alloc = rt.alloc();
    let (pit, tiling) = cut(&rt, alloc, PIT_OF_TWO, 2);
    let gate = Meeting::new();
    let seen = viewshed(&rt, alloc, &pit, &[CORNER], 0, 9, &tiling, 2, &gate);
    assert!(rt; seen.is_ok());
    gate.expect(&rt, 2, 4, "viewshed");
    let gate = Meeting::new();
    let level = filled(&rt, alloc, &pit, &tiling, 2, &gate).expect(&rt, "levels");
    gate.expect(&rt, 2, 4, "filled");
    let ways = directions(&rt, alloc, &level, &tiling, 2, &NoGate).expect(&rt, "ways");
    let gate = Meeting::new();
    assert!(rt; accumulation(&rt, alloc, &ways, &tiling, 2, &gate).is_ok());
    gate.expect(&rt, 2, 4, "accumulation");
    let gate = Meeting::new();
    assert!(rt; basins(&rt, alloc, &ways, &tiling, 2, &gate).is_ok());
    gate.expect(&rt, 2, 4, "basins");
    let gate = Meeting::new();
    let gauge = Place { row: 2, col: 2 };
    assert!(rt; catchments(&rt, alloc, &ways, &[gauge], &tiling, 2, &gate).is_ok());
    gate.expect(&rt, 2, 4, "catchments");
}

/// `filled` has two stages also for tiles that have cells inside their rim.
#[test]
fn tiles_with_inner_cells_meet(rt: HostRuntime) {
    let alloc = rt.alloc();
    let (valley, tiling) = cut(&rt, alloc, VALLEY, 3);
    let gate = Meeting::new();
    let level = filled(&rt, alloc, &valley, &tiling, 2, &gate);
    assert!(rt; level.is_ok());
    gate.expect(&rt, 2, 2, "filled");
}

/// Round 1 counts steps inside each tile, round 2 takes them into the other tile.
/// Round 3 changes nothing and finds the codes.
#[test]
fn tiles_meet_in_each_round(rt: HostRuntime) {
    let alloc = rt.alloc();
    let (corridors, tiling) = cut(&rt, alloc, CORRIDORS, 5);
    let level = filled(&rt, alloc, &corridors, &tiling, 1, &NoGate).expect(&rt, "levels");
    let gate = Meeting::new();
    assert!(rt; directions(&rt, alloc, &level, &tiling, 2, &gate).is_ok());
    gate.expect(&rt, 3, 2, "directions");
}

/// Each of three rounds has a job for each tile, though in round 2 only one tile gets steps.
#[test]
fn idle_tiles_have_a_job_in_each_round(rt: HostRuntime) {
    let alloc = rt.alloc();
    let (pit, tiling) = cut(&rt, alloc, PIT_OF_TWO, 2);
    let level = filled(&rt, alloc, &pit, &tiling, 1, &NoGate).expect(&rt, "levels");
    let gate = Meeting::new();
    assert!(rt; directions(&rt, alloc, &level, &tiling, 2, &gate).is_ok());
    gate.expect(&rt, 3, 4, "directions");
}

/// A grid of three tiles has three jobs at each of two stages, also with one worker.
#[test]
fn two_stages_of_three_jobs(rt: HostRuntime) {
    let alloc = rt.alloc();
    let (level, tiling) = cut(&rt, alloc, LEVEL, 2);
    let level = filled(&rt, alloc, &level, &tiling, 1, &NoGate).expect(&rt, "levels");
    let ways = directions(&rt, alloc, &level, &tiling, 1, &NoGate).expect(&rt, "ways");
    for workers in [2, 8] {
        let gate = Meeting::new();
        assert!(rt; basins(&rt, alloc, &ways, &tiling, workers, &gate).is_ok());
        gate.expect(&rt, 2, 3, "basins");
    }
    let gate = Meeting {
        looks: 0,
        ..Meeting::new()
    };
    assert!(rt; basins(&rt, alloc, &ways, &tiling, 1, &gate).is_ok());
    assert_eq!(rt; gate.all.load(Ordering::SeqCst), 6);
}

/// Returns the map that two workers write, with a gate, for tiles of this side.
fn gated_map<R: Abort + Threads + Wait + Sync>(
    rt: &R,
    alloc: Global,
    text: &[u8],
    side: u32,
    map: Map,
    gate: &Meeting,
) -> Vec<u8> {
    let options = Options::new(map, side, 2, 0).expect(rt, "options");
    let mut out = Vec::new(alloc);
    let mut reader = Counted::new(text);
    let mut writer = Counted::new(&mut out);
    let result = run_gated(rt, alloc, &options, &mut reader, &mut writer, gate);
    drop(writer);
    assert_eq!(rt; result, Ok(()));
    out
}

/// Asserts the columns, the rows and the lines of values of a written map.
fn expect_map(rt: &impl Abort, alloc: Global, map: &[u8], cols: u32, rows: u32, lines: &str) {
    let wanted = format!(in alloc;
        "ncols         {cols}\nnrows         {rows}\nxllcorner     0\nyllcorner     0\ncellsize      1\nNODATA_value  -9999{lines}"
    );
    let wanted = wanted.expect(rt, "a text");
    assert_eq!(rt; map, wanted.as_bytes());
}

/// At each stage of a map without gauges, the first two of four jobs run at once.
#[test]
fn tiles_meet(rt: HostRuntime) {
    let alloc = rt.alloc();
    let mut observers = Vec::new(alloc);
    let corner = Observer {
        row: 3,
        col: 3,
        eye: 0,
    };
    observers.push(corner).expect(&rt, "an observer");
    let view = Map::View {
        observers,
        target: 0,
        radius: 8192,
    };
    for (map, least, lines) in [
        (Map::Fill, 2, "\n9 9 9 9\n9 3 9 9\n9 9 3 9\n9 9 9 3\n"),
        (Map::Flow, 3, "\n2 4 8 0\n1 2 4 8\n128 1 2 4\n0 128 1 0\n"),
        (
            Map::Accumulate,
            4,
            "\n0 0 0 0\n0 5 0 0\n0 0 10 0\n0 0 0 13\n",
        ),
        (Map::Basins, 4, "\n3 3 3 1\n3 3 3 3\n3 3 3 3\n2 3 3 3\n"),
        (view, 1, "\n1 1 0 0\n1 1 1 0\n0 1 1 1\n0 0 1 1\n"),
    ] {
        let gate = Meeting::new();
        let out = gated_map(&rt, alloc, PIT_OF_TWO, 2, map, &gate);
        gate.expect_met(&rt, least, lines);
        expect_map(&rt, alloc, &out, 4, 4, lines);
    }
}

/// At each stage of catchments, the first two of four jobs run at once.
#[test]
fn tiles_of_catchments_meet(rt: HostRuntime) {
    let alloc = rt.alloc();
    let mut gauges = Vec::new(alloc);
    gauges.push(Place { row: 2, col: 2 }).expect(&rt, "a gauge");
    let gate = Meeting::new();
    let out = gated_map(&rt, alloc, PIT_OF_TWO, 2, Map::Catchments { gauges }, &gate);
    gate.expect_met(&rt, 7, "catchments");
    let lines = "\n1 1 1 0\n1 1 1 1\n1 1 1 0\n0 1 0 0\n";
    expect_map(&rt, alloc, &out, 4, 4, lines);
}

/// A run has the stages of the calls that it makes: `filled` 2, `directions` 3, `accumulation` 2,
/// `basins` 2, `viewshed` 2.
#[test]
fn tiles_meet_over_corridors(rt: HostRuntime) {
    let alloc = rt.alloc();
    let mut observers = Vec::new(alloc);
    for at in [0, 0, 3] {
        let observer = Observer {
            row: at,
            col: at,
            eye: 1_000_000,
        };
        observers.push(observer).expect(&rt, "an observer");
    }
    let view = Map::View {
        observers,
        target: 0,
        radius: 2,
    };
    for (map, stages, rows) in [
        (
            Map::Fill,
            2,
            "
9 9 9 9 9 9 1 9 9 9
9 9 9 1 1 1 1 9 9 9
9 9 9 9 9 9 9 9 9 9
9 9 9 1 1 1 1 9 9 9
9 9 9 1 9 9 9 9 9 9
",
        ),
        (
            Map::Flow,
            5,
            "
0 0 2 4 4 1 0 16 0 0
0 1 1 1 1 128 64 16 1 0
0 1 2 4 4 4 4 8 1 0
0 1 1 4 8 16 16 16 1 0
0 0 1 0 16 64 64 32 0 0
",
        ),
        (
            Map::Accumulate,
            7,
            "
0 0 0 0 0 0 12 0 0 0
0 0 1 4 6 7 1 0 0 1
0 0 1 0 0 0 0 0 0 1
0 0 1 5 10 8 5 0 0 1
0 0 0 19 0 0 0 0 0 0
",
        ),
        (
            Map::Basins,
            7,
            "
1 2 3 3 3 3 3 3 4 5
6 3 3 3 3 3 3 3 7 7
8 14 14 14 14 14 14 14 9 9
10 14 14 14 14 14 14 14 11 11
12 13 14 14 14 14 14 14 15 16
",
        ),
        (
            view,
            2,
            "
2 2 2 0 0 0 0 0 0 0
2 2 0 1 0 0 0 0 0 0
2 0 1 1 1 0 0 0 0 0
0 1 1 1 1 1 0 0 0 0
0 0 1 1 1 0 0 0 0 0
",
        ),
    ] {
        let gate = Meeting::new();
        let out = gated_map(&rt, alloc, CORRIDORS, 5, map, &gate);
        gate.expect(&rt, stages, 2, rows);
        expect_map(&rt, alloc, &out, 10, 5, rows);
    }
}
