//! In each round of `directions`, each tile has a job, also where few tiles get lower counts.
use crate::crowding::counts_of;
use crate::meeting::cut;
use drain::directions;
use fill::filled;
use std::alloc::Global;
use std::sync::atomic::{AtomicU64, Ordering};
use std::test::Fail;
use tile_jobs::{Gate, NoGate};

/// A flat that winds through ten tiles of side 2.
const WINDING: &[u8] = b"ncols 7\nnrows 7\nxllcorner 0\nyllcorner 0\ncellsize 1
9 9 9 9 9 9 9
9 1 1 1 1 1 9
9 9 9 9 9 1 9
9 1 1 1 1 1 9
9 1 9 9 9 9 9
9 1 1 1 1 1 1
9 9 9 9 9 9 9
";

/// The side of the larger terrains, in cells.
const SIDE: u32 = 512;

/// A gate that counts rounds, and the jobs of each tile.
#[derive(Drop)]
struct Roll {
    rounds: AtomicU64,
    jobs: Vec<AtomicU64>,
}

impl Gate for Roll {
    fn enter(&self, job: u32) {
        if let Some(jobs) = self.jobs.get(job as usize) {
            jobs.fetch_add(1, Ordering::SeqCst);
        }
    }

    fn begin_stage(&self, _jobs: u32) {
        self.rounds.fetch_add(1, Ordering::SeqCst);
    }
}

/// The larger terrains.
#[derive(Clone, Copy)]
enum Ground {
    /// A corridor one cell wide that winds through walls; its outlet lies in the last row.
    Serpentine,
    /// Hills in steps, with flats on them.
    Hills,
}

impl Ground {
    fn height(self, row: u32, col: u32) -> u32 {
        match self {
            Ground::Serpentine => {
                let is_turn = if row % 4 == 0 {
                    col == 1
                } else {
                    col == SIDE - 2
                };
                let is_border = col == 0 || col == SIDE - 1 || row == 0;
                if !is_border && (row % 2 == 1 || is_turn) {
                    1
                } else {
                    9
                }
            }
            Ground::Hills => (row % 100).abs_diff(50).max((col % 70).abs_diff(35)) / 5,
        }
    }

    /// Returns the text of the terrain, of [`SIDE`] rows and columns.
    fn text(self, alloc: Global) -> Result<Vec<u8>, Fail> {
        let header = format!(in alloc;
            "ncols {SIDE}\nnrows {SIDE}\nxllcorner 0\nyllcorner 0\ncellsize 1\n"
        )?;
        let mut text = Vec::from_slice(alloc, header.as_bytes())?;
        for index in 0..SIDE * SIDE {
            let height = self.height(index / SIDE, index % SIDE);
            let word = format!(in alloc; "{height} ")?;
            text.extend_from_slice(word.as_bytes())?;
        }
        Ok(text)
    }
}

/// At least three rounds: one inside the tiles, one over their rims, one that changes nothing.
#[test]
fn each_tile_has_a_job_in_each_round(rt: HostRuntime) -> Result<(), Fail> {
    let alloc = rt.alloc();
    let winding = Vec::from_slice(alloc, WINDING)?;
    for (text, side) in [
        (winding, 2),
        (Ground::Serpentine.text(alloc)?, 64),
        (Ground::Hills.text(alloc)?, 64),
    ] {
        let (grid, tiling) = cut(&rt, alloc, &text, side);
        let level = filled(&rt, alloc, &grid, &tiling, 2, &NoGate).expect(&rt, "levels");
        let roll = Roll {
            rounds: AtomicU64::new(0),
            jobs: counts_of(alloc, tiling.tiles())?,
        };
        assert!(rt; directions(&rt, alloc, &level, &tiling, 2, &roll).is_ok());
        let rounds = roll.rounds.load(Ordering::SeqCst);
        assert!(rt; 3 <= rounds, "{rounds} rounds");
        for jobs in &roll.jobs {
            assert_eq!(rt; jobs.load(Ordering::SeqCst), rounds);
        }
    }
    Ok(())
}
