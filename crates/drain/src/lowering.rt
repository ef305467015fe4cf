//! The search of a later round in a block, over counts that all searches read and none writes.
//!
//! The search starts at the block's entries and returns only the lower counts that it finds.
ghost use Rattle.std.specs.Prelude.{◌≡◌, ◌⊎◌, ◌+◌, ◌<◌, ◌≤◌, ◌++◌, ◌∷◌, [], length, All, OnOk, IfOk, vec_len};
ghost use Rattle.std.specs.Bool.{OnFalse};
ghost use Rattle.terrain.specs.Neighbours.{IsInside};
ghost use Rattle.tiles.specs.Cutting.{IsInBounds};
ghost use Rattle.drain.specs.Counts.{AreChanges, IsWithinGrid, IsChange, IsCounted, IsRun};
ghost use Rattle.drain.specs.declared.changes.TileEntry.{TileEntry};

use crate::changes::{Change, Run, TileEntry};
use crate::input::RoundInput;
use drainage::NO_COUNT;
use std::alloc::{AllocError, Global};
use terrain::Place;
use tiles::Bounds;

/// The number of changes at which a search stops; it leaves the rest to the next round.
const MOST_CHANGES: usize = 1 << 18;

/// What a search found: changes in order, of which the first `spread` have lowered the counts
/// around them in the block.
#[derive(Drop)]
pub(crate) struct Found {
    pub(crate) changes: Vec<Change>,
    pub(crate) spread: usize,
}

/// The counts that a search has lowered in its block, and each change in order.
/// For each row of the block, `rows` has counts from its west end to its easternmost lowered cell,
/// [`NO_COUNT`] for cells that are not lowered.
#[derive(Drop)]
struct Lowered {
    bounds: Bounds,
    rows: Vec<Vec<u32>>,
    changes: Vec<Change>,
    ghost size: { length rows.items ≡ bounds.rows },
}

impl Lowered {
    /// Returns the state before a search in the block of these bounds.
    fn new(alloc: Global, bounds: Bounds) -> Result<Lowered, AllocError>
        ensures bounds { IfOk result (λ l. l.bounds ≡ bounds) }
        ensures empty { IfOk result (λ l. l.changes.items ≡ []) }
    {
        let mut rows = Vec::with_capacity(alloc, bounds.rows as usize)?;
        for _row in 0..bounds.rows {
            rows.push(Vec::new(alloc))?;
        }
        Ok(Lowered {
            bounds,
            rows,
            changes: Vec::new(alloc),
        })
    }

    /// Returns whether the search has lowered the count of a cell of the block as far as `count`.
    #[inline(always)]
    fn has_lowered(&self, place: Place, count: u32) -> bool
        requires { IsInBounds self.now.bounds place }
    {
        let row = &self.rows[(place.row - self.bounds.top) as usize];
        match row.get((place.col - self.bounds.left) as usize) {
            Some(lowered) => *lowered <= count,
            None => false,
        }
    }

    /// Records a change, unless the search has lowered the cell's count as far already.
    #[inline(always)]
    fn record(&mut self, change: Change) -> Result<(), AllocError>
        requires { IsInBounds self.old.bounds change.place }
        ensures bounds { self.new.bounds ≡ self.old.bounds }
        ensures changes { (self.new.changes.items ≡ self.old.changes.items)
            ⊎ (self.new.changes.items ≡ self.old.changes.items ++ change ∷ []) }
    {
        let row = &mut self.rows[(change.place.row - self.bounds.top) as usize];
        let col = (change.place.col - self.bounds.left) as usize;
        if row.len() <= col {
            row.resize(col + 1, NO_COUNT)?;
        }
        if change.count < row[col] {
            row[col] = change.count;
            self.changes.push(change)?;
        }
        Ok(())
    }

    /// Records the changes of the block's cells in `row` that follow from `from`.
    #[inline(always)]
    fn spread_along(
        &mut self,
        input: &RoundInput<'_>,
        from: Change,
        row: u32,
    ) -> Result<(), AllocError>
        requires block { IsWithinGrid input.now.terrain self.old.bounds }
        requires from { IsCounted input.now.terrain from }
        requires row { (self.old.bounds.top ≤ row)
            × (row < self.old.bounds.top + self.old.bounds.rows)
            × (row < from.place.row + 2) × (from.place.row < row + 2) }
        requires old { AreChanges input.now.terrain input.now.steps self.old.changes.items }
        ensures bounds { self.new.bounds ≡ self.old.bounds }
        ensures changes { OnOk result
            (AreChanges input.now.terrain input.now.steps self.new.changes.items) }
    {
        let first = from.place.col.max(self.bounds.left + 1) - 1;
        let end = (from.place.col + 2).min(self.bounds.left + self.bounds.cols);
        for col in first..end {
            let to = Place { row, col };
            if self.has_lowered(to, from.count + 1) {
                continue;
            }
            if let Some(change) = input.lower(from, to) {
                self.record(change)?;
            }
        }
        Ok(())
    }

    /// Records the changes of the block's cells that follow from `from`.
    fn spread(&mut self, input: &RoundInput<'_>, from: Change) -> Result<(), AllocError>
        requires block { IsWithinGrid input.now.terrain self.old.bounds }
        requires from { IsCounted input.now.terrain from }
        requires old { AreChanges input.now.terrain input.now.steps self.old.changes.items }
        ensures bounds { self.new.bounds ≡ self.old.bounds }
        ensures changes { OnOk result
            (AreChanges input.now.terrain input.now.steps self.new.changes.items) }
    {
        let first = from.place.row.max(self.bounds.top + 1) - 1;
        let end = (from.place.row + 2).min(self.bounds.top + self.bounds.rows);
        for row in first..end {
            self.spread_along(input, from, row)?;
        }
        Ok(())
    }

    /// Returns whether to apply `entry` before the search spreads from `changes[done]`.
    /// True if the entry's count is at most one above that change's. Entries are sorted by count,
    /// so changes go from low counts to high, and few cells change twice.
    #[inline(always)]
    fn is_due(&self, entry: TileEntry, done: usize) -> bool
        ensures { OnFalse result ((done < length self.now.changes.items)
            × (length self.now.changes.items < MOST_CHANGES)) }
    {
        if done >= self.changes.len() || self.changes.len() >= MOST_CHANGES {
            return true;
        }
        entry.change.count <= self.changes[done].count.saturating_add(1)
    }
}

/// Applies a run's entries and spreads them over the block, until [`MOST_CHANGES`] cells changed.
pub(crate) fn search(
    alloc: Global,
    input: &RoundInput<'_>,
    bounds: Bounds,
    entries: &[TileEntry],
    run: Run,
) -> Result<Found, AllocError>
    requires block { IsWithinGrid input.now.terrain bounds }
    requires run { IsRun (length entries.now) run }
    requires entries { All (λ (e : TileEntry).
        IsChange input.now.terrain input.now.steps e.change) entries.now }
    ensures { IfOk result (λ f. AreChanges input.now.terrain input.now.steps f.changes.items) }
{
    let mut lowered = Lowered::new(alloc, bounds)?;
    let mut next = run.from;
    let mut done = 0;
    while next < run.end || (done < lowered.changes.len() && lowered.changes.len() < MOST_CHANGES) {
        if next < run.end && lowered.is_due(entries[next], done) {
            let change = entries[next].change;
            if bounds.contains(change.place) {
                lowered.record(change)?;
            }
            next += 1;
        } else {
            let change = lowered.changes[done];
            lowered.spread(input, change)?;
            done += 1;
        }
    }
    Ok(Found {
        changes: lowered.changes,
        spread: done,
    })
}
