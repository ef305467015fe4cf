//! Finds a crest of each label, by Kruskal's algorithm: [`label_crests`].
//!
//! A label is given by its number. Water leaves a label at its crest and above. Joins are taken
//! from the lowest up. Labels without a crest that are joined form a ring. Where a ring is joined
//! with a label that has a crest, all its labels get one.
//!
//! The crests are the least ones, but no contract says that.
ghost use Rattle.std.specs.Prelude.{◌≡◌, ◌≤◌, ◌≤ℤ◌, ℤ, List, Option, None, length, slice_index_or, IfOk};
ghost use Rattle.terrain.specs.Raster.{Terrain};
ghost use Rattle.terrain.specs.declared.place.Place.{Place};
ghost use Rattle.fill.specs.Crests.{AreCrests, ArePassages, AreRings, IsPassage, Leaves};

use crate::spill_graph::Join;
use cell_floods::LabelSets;
use std::alloc::{AllocError, Global};
use terrain::{Cell, Height};

/// The crests found so far, and labels without a crest in rings of those that are joined.
#[derive(Drop)]
struct Search {
    crests: Vec<Cell>,
    /// For each label the next one of its ring; a label that is not joined is alone in its ring.
    next: Vec<u32>,
    sets: LabelSets,
}

impl Search {
    /// Begins with these crests, and rings of one label each.
    fn new(alloc: Global, crests: Vec<Cell>) -> Result<Self, AllocError>
        requires { length crests.items ≤ 4294967295 }
        ensures crests { IfOk result (λ s. s.crests.items ≡ crests.items) }
        ensures rings { IfOk result (λ s. (t : Terrain) (places : List (Option Place)) (now : ℤ) →
            AreRings t places now s.next.items) }
    {
        let count = crests.len();
        let mut next = Vec::with_capacity(alloc, count)?;
        for label in 0..count {
            next.push(label as u32)?;
        }
        Ok(Search {
            crests,
            next,
            sets: LabelSets::of_nodes(alloc, count as u32)?,
        })
    }

    /// Returns the crest of a label; `None` if it has none so far.
    #[inline(always)]
    fn crest(&self, label: u32) -> Option<Height>
        ensures { result ≡ slice_index_or self.now.crests.items label None }
    {
        self.crests.get(label as usize)?.height()
    }

    /// Gives a crest to the labels of a ring that have none, from `label` on.
    fn give_crest(&mut self, label: u32, crest: Height)
        ensures size { length self.new.crests.items ≡ length self.old.crests.items }
        ensures next { self.new.next.items ≡ self.old.next.items }
        ensures crests { (t : Terrain) (places : List (Option Place)) →
            Leaves t places label crest → AreRings t places crest self.old.next.items →
            AreCrests t places self.old.crests.items → AreCrests t places self.new.crests.items }
    {
        let mut at = label as usize;
        let count = self.crests.len().min(self.next.len());
        for _ in 0..count {
            if at >= count || self.crests[at].height().is_some() {
                return;
            }
            self.crests[at] = Cell::of(crest);
            at = self.next[at] as usize;
        }
    }

    /// Joins the rings of two labels without a crest into one, unless they are one already.
    fn unite(&mut self, join: Join)
        ensures crests { self.new.crests.items ≡ self.old.crests.items }
        ensures rings { (t : Terrain) (places : List (Option Place)) (now : ℤ) →
            join.height ≤ℤ now → IsPassage t places join →
            AreRings t places now self.old.next.items → AreRings t places now self.new.next.items }
    {
        let (from, to) = (join.from as usize, join.to as usize);
        if from >= self.next.len() || to >= self.next.len() {
            return;
        }
        if self.sets.unite(join.from, join.to) {
            self.next.swap(from, to);
        }
    }

    /// Takes in a join, at the level that joins have come to.
    fn take(&mut self, join: Join, level: Height)
        requires { join.height ≤ℤ level }
        ensures size { length self.new.crests.items ≡ length self.old.crests.items }
        ensures rings { (t : Terrain) (places : List (Option Place)) → IsPassage t places join →
            AreRings t places level self.old.next.items →
            AreRings t places level self.new.next.items }
        ensures crests { (t : Terrain) (places : List (Option Place)) → IsPassage t places join →
            AreRings t places level self.old.next.items →
            AreCrests t places self.old.crests.items → AreCrests t places self.new.crests.items }
    {
        match (self.crest(join.from), self.crest(join.to)) {
            (Some(_), Some(_)) => {}
            (Some(own), None) => self.give_crest(join.to, own.max(level)),
            (None, Some(own)) => self.give_crest(join.from, own.max(level)),
            (None, None) => self.unite(join),
        }
    }
}

/// Returns a crest of each label to which joins lead from an end cell.
/// `crests` has the heights of the labels that are end cells, no data for others.
pub(crate) fn label_crests(
    alloc: Global,
    crests: Vec<Cell>,
    mut joins: Vec<Join>,
) -> Result<Vec<Cell>, AllocError>
    requires { length crests.items ≤ 4294967295 }
    ensures size { IfOk result (λ v. length v.items ≡ length crests.items) }
    ensures crests { IfOk result (λ v. (t : Terrain) (places : List (Option Place)) →
        ArePassages t places joins.items → AreCrests t places crests.items →
        AreCrests t places v.items) }
{
    joins.sort_by_key(|join| join.height)?;
    let mut search = Search::new(alloc, crests)?;
    let mut level = Height::MIN;
    for join in &joins {
        level = level.max(join.height);
        search.take(*join, level);
    }
    Ok(search.crests)
}
