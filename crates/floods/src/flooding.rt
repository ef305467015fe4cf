//! The flood: finds each node's level, the least crest of its walks to sources, and its label.
//! The label is a source where a walk of that crest ends. A walk's crest is its greatest height.
//!
//! [`flood_net`] labels the unlabelled node queued at the least height, again and again. It queues
//! each unlabelled neighbour of this node at the greater of the node's height in the queue and the
//! join's height, unless the neighbour was queued before at that height or a lower one.
ghost use Rattle.std.specs.Prelude.{◌≡◌, ◌<◌, IfOk, OnOk, length, replicate, None};
ghost use Rattle.floods.specs.Walk.{IsFlooded};
ghost use Rattle.floods.specs.Flood.{candidates_in, InOrder, AreNoted, AreSourcesQueued, HasSourcesNoted, Spreads};

use crate::heights::HeightList;
use crate::net::Net;
use crate::node_labels::{NodeLabels, label_of};
use crate::queue::{Candidate, Queue, next_unlabelled, queue_neighbours};
use std::alloc::{AllocError, Global};
use std::cmp::Reverse;
use terrain::{Height, NoMemory};

/// The level and the label of each node; `None` where no walk leads to a source.
/// A node's level, in units, is the least crest of its walks. Its label is a source where a walk of
/// that crest ends.
#[derive(Drop)]
pub struct Flooded {
    pub level: Vec<Option<Height>>,
    pub label: Vec<Option<u32>>,
}

/// A [`Flooded`] in 9 bytes a level and 4 bytes a label, instead of 16 and 8.
#[derive(Drop)]
pub struct FloodedNet {
    pub levels: HeightList,
    pub labels: NodeLabels,
}

/// Queues all sources, and sets their levels to their heights.
fn queue_sources<N: Net>(
    alloc: Global,
    net: &N,
    levels: &mut HeightList,
) -> Result<Queue, AllocError>
    requires { levels.old ≡ replicate (N.node_count net.now) None }
    ensures order { IfOk result (λ queue. InOrder queue) }
    ensures sources { IfOk result (λ queue.
        AreSourcesQueued (N.node_count net.now) (N.source_height net.now) (candidates_in queue)) }
    ensures noted { IfOk result
        (λ _. HasSourcesNoted (N.node_count net.now) (N.source_height net.now) levels.new) }
    ensures size { length levels.new ≡ length levels.old }
{
    let mut queue = Queue::new(alloc)?;
    for node in 0..net.nodes() {
        if let Some(height) = net.source(node) {
            let waiting = Candidate {
                height: Reverse(height),
                node,
                label: node,
            };
            queue.put(waiting)?;
            levels.put(node, height);
        }
    }
    Ok(queue)
}

/// Queues each unlabelled neighbour of `from` whose crest is below its level, if any.
/// A neighbour's crest is the greater of the join's height and `from.height`.
/// The crest of a queued neighbour becomes its level in `levels`.
#[inline]
fn spread<N: Net>(
    alloc: Global,
    net: &N,
    queue: &mut Queue,
    from: &Candidate,
    labels: &NodeLabels,
    levels: &mut HeightList,
) -> Result<(), NoMemory>
    requires order { InOrder queue.old }
    requires inside { from.now.node < N.node_count net.now }
    requires size { length labels.now ≡ N.node_count net.now }
    requires noted { AreNoted labels.now levels.old (candidates_in queue.old) }
    ensures { OnOk result (Spreads (N.joins net.now) labels.now from.now levels.old levels.new
        queue.old queue.new) }
{
    let arcs = net.neighbours(alloc, from.node)?;
    queue_neighbours(queue, arcs.as_slice(), from, labels, levels)?;
    Ok(())
}

/// Returns the level and the label of each node, in 13 bytes a node.
///
/// # Errors
///
/// [`NoMemory`] if an allocation fails.
pub fn flood_net<N: Net>(alloc: Global, net: &N) -> Result<FloodedNet, NoMemory>
    ensures { IfOk result (λ f.
        IsFlooded (N.joins net.now) (N.source_height net.now) (N.node_count net.now) f.levels
        f.labels) }
{
    let count = net.nodes() as usize;
    let mut levels = HeightList::all_none(alloc, count)?;
    let mut labels = NodeLabels::none(alloc, count)?;
    let mut queue = queue_sources(alloc, net, &mut levels)?;
    while let Some(waiting) = next_unlabelled(&mut queue, &labels) {
        let Reverse(height) = waiting.height;
        // The level was set when the node was queued, but no contract says so.
        levels.put(waiting.node, height);
        labels.put(waiting.node, waiting.label);
        spread(alloc, net, &mut queue, &waiting, &labels, &mut levels)?;
    }
    Ok(FloodedNet { levels, labels })
}

fn list_of_levels(alloc: Global, levels: &HeightList) -> Result<Vec<Option<Height>>, AllocError>
    ensures { IfOk result (λ v. v.items ≡ levels.now) }
{
    let mut list = Vec::with_capacity(alloc, levels.len())?;
    for index in 0..levels.len() {
        list.push(levels.at(index))?;
    }
    Ok(list)
}

fn list_of_labels(alloc: Global, labels: &NodeLabels) -> Result<Vec<Option<u32>>, AllocError>
    ensures { IfOk result (λ v. v.items ≡ labels.now) }
{
    let numbers = labels.numbers();
    let mut list = Vec::with_capacity(alloc, numbers.len())?;
    for number in numbers {
        list.push(label_of(*number))?;
    }
    Ok(list)
}

/// Returns the level and the label of each node.
///
/// [`flood_net`] returns both in lists that take less memory.
///
/// # Errors
///
/// [`NoMemory`] if an allocation fails.
///
/// # Examples
///
/// ```ignore
/// // `level[node]` is the least crest of the node's walks; one of that crest ends at `label[node]`
/// let Flooded { level, label } = flood(alloc, &net)?;
/// ```
pub fn flood<N: Net>(alloc: Global, net: &N) -> Result<Flooded, NoMemory>
    ensures { IfOk result (λ f.
        IsFlooded (N.joins net.now) (N.source_height net.now) (N.node_count net.now)
        f.level.items f.label.items) }
{
    let FloodedNet { levels, labels } = flood_net(alloc, net)?;
    let level = list_of_levels(alloc, &levels)?;
    let label = list_of_labels(alloc, &labels)?;
    Ok(Flooded { level, label })
}
