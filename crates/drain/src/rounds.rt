//! Later rounds: they carry counts of steps over rims while that lowers any.
//!
//! Each round is one job of each tile. Only soundness is proved of them: each count is the length
//! of a walk. The round that finds the codes shows that no count is too high (module `codes`).
ghost use Rattle.std.specs.Prelude.{◌≡◌, ◌<◌, ◌≤◌, ℕ, true, All, length, IfOk, OnOk};
ghost use Rattle.terrain.specs.Raster.{Terrain};
ghost use Rattle.tile_jobs.specs.Fault.{RefusesWorkers};
ghost use Rattle.tiles.specs.Cutting.{Cuts, IsCutting};
ghost use Rattle.drain.specs.Counts.{AreChanges, AreSoundCounts, AreFound, IsChange, IsCounted, count_sum};

use crate::blocks::{Blocks, Shares};
use crate::changes::{Change, Run, TileEntry};
use crate::input::RoundInput;
use crate::lowering::{Found, search};
use drainage::StepCount;
use std::alloc::{AllocError, Global};
use std::marker::Model;
use std::sync::Wait;
use std::thread::Threads;
use terrain::Grid;
use tile_jobs::{Gate, JobFault, Work};
use tile_maps::Runner;
use tiles::Tiling;

/// Input of a round's jobs: what all rounds read, and each tile's run of the entries.
#[derive(Drop)]
struct Round<'a> {
    input: &'a RoundInput<'a>,
    blocks: Blocks,
    entries: &'a [TileEntry],
    runs: &'a [Run],
}

impl<'a> Model for Round<'a> {
    ghost use Rattle.drain.specs.Counts.{Jobs, AreJobs};

    ghost Value = { Jobs };

    ghost view = { λ r. record {
      counted = r.input.now;
      entries = r.entries.now;
      runs = r.runs.now;
    } };

    ghost invariant = { λ r. AreJobs (record {
      counted = r.input.now;
      entries = r.entries.now;
      runs = r.runs.now;
    }) };
}

impl<'a> Work for Round<'a> {
    ghost use Rattle.std.specs.Prelude.{length};
    ghost use Rattle.drain.specs.Counts.{AreChanges};

    type Out = Found;

    ghost most = { λ r. length r.runs };

    ghost gives = { λ r _ found. AreChanges r.counted.terrain r.counted.steps found.changes.items };

    fn run(&self, alloc: Global, job: u32) -> Result<Found, JobFault> {
        let run = self.runs[job as usize];
        if run.from == run.end {
            return Ok(Found {
                changes: Vec::new(alloc),
                spread: 0,
            });
        }
        let place = self.entries[run.from].change.place;
        let block = self.input.block(self.blocks, place);
        let found = search(alloc, self.input, block, self.entries, run)?;
        Ok(found)
    }
}

/// Lowers the count at `change.place` to `change.count` if that is less; returns whether it was.
#[inline(always)]
pub(crate) fn put(grid: &Grid, steps: &mut [StepCount], change: Change) -> bool
    requires counts { AreSoundCounts grid.now.terrain steps.old }
    requires change { IsCounted grid.now.terrain change }
    ensures counts { AreSoundCounts grid.now.terrain steps.new }
    ensures low { count_sum steps.new ≤ count_sum steps.old }
    ensures put { result ≡ true → count_sum steps.new < count_sum steps.old }
    ensures less { IsChange grid.now.terrain steps.old change →
        count_sum steps.new < count_sum steps.old }
{
    let index = change.place.index_in(grid.cols());
    if change.count >= steps[index].number() {
        return false;
    }
    steps[index] = StepCount::of(change.count);
    true
}

/// Puts the changes of one job; returns whether one lowered a count.
fn put_changes(grid: &Grid, steps: &mut [StepCount], changes: &[Change]) -> bool
    requires counts { AreSoundCounts grid.now.terrain steps.old }
    requires changes { All (IsCounted grid.now.terrain) changes.now }
    ensures counts { AreSoundCounts grid.now.terrain steps.new }
    ensures low { count_sum steps.new ≤ count_sum steps.old }
    ensures put { result ≡ true → count_sum steps.new < count_sum steps.old }
{
    let mut has_lowered = false;
    for change in changes {
        if put(grid, steps, *change) {
            has_lowered = true;
        }
    }
    has_lowered
}

/// Puts the changes of all jobs, of each cell the least; returns whether one lowered a count.
fn put_all(grid: &Grid, steps: &mut [StepCount], outs: &[Found]) -> bool
    requires counts { AreSoundCounts grid.now.terrain steps.old }
    requires changes { AreFound grid.now.terrain outs.now }
    ensures counts { AreSoundCounts grid.now.terrain steps.new }
    ensures low { count_sum steps.new ≤ count_sum steps.old }
    ensures put { result ≡ true → count_sum steps.new < count_sum steps.old }
{
    let mut has_lowered = false;
    for found in outs {
        if put_changes(grid, steps, &found.changes) {
            has_lowered = true;
        }
    }
    has_lowered
}

/// Returns the lower counts that follow from the rims of all tiles.
pub(crate) fn changes_at_rims(
    alloc: Global,
    input: &RoundInput<'_>,
) -> Result<Vec<Change>, AllocError>
    ensures { IfOk result (λ v. AreChanges input.now.terrain input.now.steps v.items) }
{
    let mut changes = Vec::new(alloc);
    for tile in 0..input.tiling.tiles() {
        input.push_around_rim(tile, &mut changes)?;
    }
    Ok(changes)
}

/// Appends the lower counts that follow from what one job found.
/// Changes that the search has spread from lower counts in other blocks alone.
fn push_after(
    input: &RoundInput<'_>,
    blocks: Blocks,
    found: &Found,
    changes: &mut Vec<Change>,
) -> Result<(), AllocError>
    requires found { All (IsCounted input.now.terrain) found.now.changes.items }
    requires old { AreChanges input.now.terrain input.now.steps changes.old.items }
    ensures { OnOk result (AreChanges input.now.terrain input.now.steps changes.new.items) }
{
    for (index, change) in found.changes.iter().enumerate() {
        let is_last = input.count(change.place) == change.count;
        if is_last && (index >= found.spread || blocks.has_on_rim(change.place)) {
            input.push_around(change.place, changes)?;
        }
    }
    Ok(())
}

/// Returns the lower counts that follow from what the jobs of a round found.
fn changes_after(
    alloc: Global,
    input: &RoundInput<'_>,
    blocks: Blocks,
    outs: &[Found],
) -> Result<Vec<Change>, AllocError>
    requires { AreFound input.now.terrain outs.now }
    ensures { IfOk result (λ v. AreChanges input.now.terrain input.now.steps v.items) }
{
    let mut changes = Vec::new(alloc);
    for found in outs {
        push_after(input, blocks, found, &mut changes)?;
    }
    Ok(changes)
}

/// Runs a round, one job of each tile, and returns what each found.
fn found_by_jobs<R: Threads + Wait + Sync, G: Gate + Sync>(
    runner: &Runner<'_, R, G>,
    input: &RoundInput<'_>,
    blocks: Blocks,
    changes: &[Change],
) -> Result<Vec<Found>, JobFault>
    requires changes { AreChanges input.now.terrain input.now.steps changes.now }
    requires workers { (1 ≤ runner.now.workers) × (runner.now.workers ≤ 64) }
    ensures found { IfOk result (λ v. AreFound input.now.terrain v.items) }
    ensures workers { RefusesWorkers runner.now.workers result }
{
    let shares = Shares::of_changes(runner.alloc, input, blocks, changes)?;
    let round = Round {
        input,
        blocks,
        entries: &shares.entries,
        runs: &shares.runs,
    };
    let outs = runner.run(&round, input.tiling.tiles())?;
    Ok(outs)
}

/// Runs rounds from `changes` while they lower counts, and returns the counts.
pub(crate) fn run_rounds<R: Threads + Wait + Sync, G: Gate + Sync>(
    runner: &Runner<'_, R, G>,
    grid: &Grid,
    tiling: &Tiling,
    mut steps: Vec<StepCount>,
    mut changes: Vec<Change>,
) -> Result<Vec<StepCount>, JobFault>
    requires cuts { Cuts tiling.now grid.now.terrain }
    requires counts { AreSoundCounts grid.now.terrain steps.items }
    requires changes { AreChanges grid.now.terrain steps.items changes.items }
    requires workers { (1 ≤ runner.now.workers) × (runner.now.workers ≤ 64) }
    ensures counts { IfOk result (λ s. AreSoundCounts grid.now.terrain s.items) }
    ensures low { IfOk result (λ s. count_sum s.items ≤ count_sum steps.items) }
    ensures workers { RefusesWorkers runner.now.workers result }
{
    while !changes.is_empty() {
        let blocks = Blocks::of_round(tiling, changes.len());
        let outs = found_by_jobs(
            runner,
            &RoundInput::new(grid, tiling, &steps),
            blocks,
            &changes,
        )?;
        if !put_all(grid, &mut steps, &outs) {
            return Ok(steps);
        }
        let input = RoundInput::new(grid, tiling, &steps);
        changes = changes_after(runner.alloc, &input, blocks, &outs)?;
    }
    Ok(steps)
}
