//! The priority queue of a flood: the node queued at the least height is taken first.
//!
//! A node is queued at the crest of a walk from it to a source.
//! [`queue_neighbour`] queues a node again only at a lower crest.
ghost use Rattle.std.specs.Prelude.{◌<◌, ◌≤ℤ◌, ◌∷◌, [], IfOk, OnOk, IfSome, IfNone, length, All};
ghost use Rattle.floods.specs.Flood.{candidates_in, InOrder, PutsIn, HasNone, HasLabel, TakesLowest, Relaxes, AreNoted};

use crate::heights::HeightList;
use crate::net::Spill;
use crate::node_labels::NodeLabels;
use std::alloc::{AllocError, Global};
use std::cmp::Reverse;
use std::collections::BinaryHeap;
use terrain::Height;

/// A queued node; `height` is the crest of a walk from it to the source `label`.
/// Entries compare by `height` alone. The entry of least height is the greatest,
/// since a [`BinaryHeap`] takes the greatest first.
#[derive(Clone, Copy)]
#[derive_where(PartialEq, Eq, PartialOrd, Ord)]
pub(crate) struct Candidate {
    pub(crate) height: Reverse<Height>,
    #[derive_where(skip(EqHashOrd))]
    pub(crate) node: u32,
    #[derive_where(skip(EqHashOrd))]
    pub(crate) label: u32,
}

/// The first capacity of the heap, in entries, so that few heaps grow.
const FIRST_CAPACITY: usize = 80;

/// The priority queue of a flood.
#[derive(Drop)]
pub(crate) struct Queue {
    heap: BinaryHeap<Candidate>,
}

impl Queue {
    pub(crate) fn new(alloc: Global) -> Result<Self, AllocError>
        ensures order { IfOk result (λ w. InOrder w) }
        ensures none { IfOk result (λ w. HasNone (candidates_in w)) }
    {
        Ok(Queue {
            heap: BinaryHeap::with_capacity(alloc, FIRST_CAPACITY)?,
        })
    }

    /// Takes a lowest entry. Returns `None` if the queue is empty.
    #[inline]
    fn take(&mut self) -> Option<Candidate>
        requires { InOrder self.old }
        ensures order { InOrder self.new }
        ensures taken { IfSome result
            (λ w. PutsIn w (candidates_in self.new) (candidates_in self.old)) }
        ensures lowest { IfSome result
            (λ w. All (λ x. w.height.0 ≤ℤ x.height.0) (candidates_in self.new)) }
        ensures none { IfNone result (HasNone (candidates_in self.old)) }
    {
        let waiting = self.heap.pop()?;
        Some(waiting)
    }

    #[inline(always)]
    pub(crate) fn put(&mut self, waiting: Candidate) -> Result<(), AllocError>
        requires { InOrder self.old }
        ensures order { OnOk result (InOrder self.new) }
        ensures puts { OnOk result
            (PutsIn waiting (candidates_in self.old) (candidates_in self.new)) }
    {
        self.heap.push(waiting)?;
        Ok(())
    }
}

/// Takes a lowest entry whose node has no label, if any.
/// Drops the entries of labelled nodes that are taken before that entry.
#[inline(always)]
pub(crate) fn next_unlabelled(queue: &mut Queue, labels: &NodeLabels) -> Option<Candidate>
    requires order { InOrder queue.old }
    requires inside { All (λ w. w.node < length labels.now) (candidates_in queue.old) }
    ensures order { InOrder queue.new }
    ensures some { IfSome result (λ w.
        TakesLowest labels.now (candidates_in queue.old) w (candidates_in queue.new)) }
    ensures none { IfNone result (All (HasLabel labels.now) (candidates_in queue.old)) }
{
    while let Some(waiting) = queue.take() {
        if !labels.has(waiting.node) {
            return Some(waiting);
        }
    }
    None
}

/// Queues node `arc.to` if it has no label and its crest is below its level, if any.
/// The crest is the greater of `arc.height` and `from.height`.
/// If the node is queued, the crest becomes its level in `levels`.
///
/// # Errors
///
/// [`AllocError`] if an allocation fails.
#[inline(always)]
fn queue_neighbour(
    queue: &mut Queue,
    arc: Spill,
    from: &Candidate,
    labels: &NodeLabels,
    levels: &mut HeightList,
) -> Result<(), AllocError>
    requires order { InOrder queue.old }
    requires inside { arc.to < length labels.now }
    requires noted { AreNoted labels.now levels.old (candidates_in queue.old) }
    ensures { OnOk result
        (Relaxes labels.now from.now (arc ∷ []) levels.old levels.new queue.old queue.new) }
{
    let Reverse(level) = from.height;
    let crest = arc.height.max(level);
    if levels.is_no_higher(arc.to, crest) {
        return Ok(());
    }
    // Never true in a flood: nodes get labels in the order of their levels, so for a labelled node
    // the test above returned. The contract does not assume that order.
    if labels.has(arc.to) {
        return Ok(());
    }
    let waiting = Candidate {
        height: Reverse(crest),
        node: arc.to,
        label: from.label,
    };
    queue.put(waiting)?;
    levels.put(arc.to, crest);
    Ok(())
}

#[inline]
pub(crate) fn queue_neighbours(
    queue: &mut Queue,
    arcs: &[Spill],
    from: &Candidate,
    labels: &NodeLabels,
    levels: &mut HeightList,
) -> Result<(), AllocError>
    requires order { InOrder queue.old }
    requires inside { All (λ arc. arc.to < length labels.now) arcs.now }
    requires noted { AreNoted labels.now levels.old (candidates_in queue.old) }
    ensures { OnOk result
        (Relaxes labels.now from.now arcs.now levels.old levels.new queue.old queue.new) }
{
    for arc in arcs {
        queue_neighbour(queue, *arc, from, labels, levels)?;
    }
    Ok(())
}
