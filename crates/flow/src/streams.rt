//! Sums for each node its weight and those of all nodes upstream of it along links.
//!
//! A node's donors are the other nodes linked to it. Labels of loops are for proofs, which name
//! loops by them.
ghost use Rattle.std.specs.Prelude.{◌≡◌, ◌≢◌, ◌+◌, ◌^◌, ◌<◌, ◌≤◌, ℕ, List, length, slice_index, IfOk};
ghost use Rattle.flow.specs.Streams.{AreStreams, AreSums, total};
ghost use Rattle.flow.specs.Sending.{IsSending, AreDonorCounts, AreMarks, AreUnmarked, AreZeros, IsMarked};

use crate::nodes::Links;
use std::alloc::{AllocError, Global};

/// The entry in `waits` of a node that has sent its total downstream.
/// An end gets it when `send_from` comes to it and all its donors have sent. Any other entry counts
/// the donors that have not sent.
const SENT: u32 = u32::MAX;

pub(crate) fn zeros(alloc: Global, len: usize) -> Result<Vec<u32>, AllocError>
    ensures { IfOk result (λ v. AreZeros len v.items) }
{
    vec![in alloc; 0; len]
}

fn count_donors<L: Links>(links: &L, counts: &mut [u32])
    requires streams { AreStreams (L.list links.now) }
    requires few { length (L.list links.now) ≤ 2 ^ 30 }
    requires none { AreZeros (length (L.list links.now)) counts.old }
    ensures { AreDonorCounts (L.list links.now) counts.new }
{
    for node in 0..links.count() {
        let next = links.next(node);
        if next != node {
            counts[next] += 1;
        }
    }
}

/// Returns, for each node, the sum of its weight and those of all nodes upstream of it.
pub(crate) fn totals<L: Links>(
    alloc: Global,
    links: &L,
    weights: Vec<u32>,
) -> Result<Vec<u32>, AllocError>
    requires streams { AreStreams (L.list links.now) }
    requires few { length (L.list links.now) ≤ 2 ^ 30 }
    requires same { length weights.items ≡ length (L.list links.now) }
    requires fits { (i : ℕ) → i < length (L.list links.now) →
        total (L.list links.now) weights.items i < 2 ^ 32 }
    ensures { IfOk result (λ v. AreSums (L.list links.now) weights.items v.items) }
{
    let mut totals = weights;
    let mut waits = zeros(alloc, links.count())?;
    count_donors(links, &mut waits);
    send_all(links, &mut waits, &mut totals);
    Ok(totals)
}

/// Returns, for each node, the sum of its weight and those of all nodes upstream of it.
/// Follows paths of nodes whose weight is not 0 alone: fast where few nodes are on them.
pub(crate) fn totals_of_few<L: Links>(
    alloc: Global,
    links: &L,
    weights: Vec<u32>,
) -> Result<Vec<u32>, AllocError>
    requires streams { AreStreams (L.list links.now) }
    requires few { length (L.list links.now) ≤ 2 ^ 30 }
    requires same { length weights.items ≡ length (L.list links.now) }
    requires fits { (i : ℕ) → i < length (L.list links.now) →
        total (L.list links.now) weights.items i < 2 ^ 32 }
    ensures { IfOk result (λ v. AreSums (L.list links.now) weights.items v.items) }
{
    let mut totals = weights;
    let mut waits = unmarked(alloc, links.count())?;
    mark_paths(links, &totals, &mut waits);
    send_all(links, &mut waits, &mut totals);
    Ok(totals)
}

/// Returns the entries of `len` nodes of which none is marked.
fn unmarked(alloc: Global, len: usize) -> Result<Vec<u32>, AllocError>
    ensures { IfOk result (λ v. AreUnmarked len v.items) }
{
    vec![in alloc; SENT; len]
}

/// Marks the nodes on the paths of nodes whose weight is not 0.
/// A marked node's entry in `waits` counts its donors that are marked; others keep `SENT`.
fn mark_paths<L: Links>(links: &L, weights: &[u32], waits: &mut [u32])
    requires streams { AreStreams (L.list links.now) }
    requires few { length (L.list links.now) ≤ 2 ^ 30 }
    requires same { length weights.now ≡ length (L.list links.now) }
    requires unmarked { AreUnmarked (length (L.list links.now)) waits.old }
    ensures marks { AreMarks (L.list links.now) waits.new 0 0 }
    ensures marked { (i : ℕ) → i < length (L.list links.now) → slice_index weights.now i ≢ 0 →
        IsMarked waits.new i }
{
    for node in 0..links.count() {
        mark_path(links, weights[node], waits, node);
    }
}

/// Marks the nodes on the path of `from` before the first that is marked, if the weight is not 0.
#[inline(always)]
fn mark_path<L: Links>(links: &L, weight: u32, waits: &mut [u32], from: usize)
    requires streams { AreStreams (L.list links.now) }
    requires few { length (L.list links.now) ≤ 2 ^ 30 }
    requires marks { AreMarks (L.list links.now) waits.old 0 0 }
    requires inside { from < length (L.list links.now) }
    ensures marks { AreMarks (L.list links.now) waits.new 0 0 }
    ensures kept { (i : ℕ) → IsMarked waits.old i → IsMarked waits.new i }
    ensures marked { weight ≢ 0 → IsMarked waits.new from }
{
    if weight == 0 {
        return;
    }
    let mut node = from;
    let mut donors = 0;
    'path: while waits[node] == SENT {
        waits[node] = donors;
        let next = links.next(node);
        if next == node {
            return;
        }
        donors = 1;
        node = next;
    }
    waits[node] += donors;
}

/// Sends each node's total downstream, after those of its donors.
fn send_all<L: Links>(links: &L, waits: &mut [u32], totals: &mut [u32])
    ghost weights: { List ℕ }
    requires { IsSending (L.list links.now) weights waits.old totals.old }
    ensures { AreSums (L.list links.now) weights totals.new }
{
    for node in 0..links.count() {
        send_from(links, waits, totals, node);
    }
}

/// Sends totals downstream, beginning at node `from`.
/// Stops at an end, or at a node that awaits donors or has sent.
fn send_from<L: Links>(links: &L, waits: &mut [u32], totals: &mut [u32], from: usize)
    ghost weights: { List ℕ }
    requires sending { IsSending (L.list links.now) weights waits.old totals.old }
    requires inside { from < length (L.list links.now) }
    requires early { (i : ℕ) → i < from → slice_index waits.old i ≢ 0 }
    ensures sending { IsSending (L.list links.now) weights waits.new totals.new }
    ensures early { (i : ℕ) → i < from + 1 → slice_index waits.new i ≢ 0 }
{
    let mut node = from;
    'downstream: while waits[node] == 0 {
        waits[node] = SENT;
        let next = links.next(node);
        if next == node {
            return;
        }
        totals[next] += totals[node];
        waits[next] -= 1;
        node = next;
    }
}
