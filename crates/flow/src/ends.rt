//! Finds the numbers of the nodes where nodes' paths along links end: [`Paths`].
//!
//! A path ends at a node that is linked to itself. The loops have labels, by which proofs name
//! them.
ghost use Rattle.std.proofs.Props.{props};
ghost use Rattle.std.specs.Prelude.{◌≡◌, ◌^◌, ◌<◌, ◌≤◌, ℕ, length, true, IfOk};
ghost use Rattle.terrain.specs.StoredCells.{uncounted};
ghost use Rattle.flow.specs.Streams.{AreStreams, AreEnds, AreEndNumbers, end_of};
ghost use Rattle.flow.specs.Finding.{AreKnown, HaveNumbers, IsKnown};

use crate::end_numbers::EndNumbering;
use crate::nodes::Links;
use crate::streams::zeros;
use std::alloc::{AllocError, Global};

/// The entry of a node whose end's number is still unknown.
const UNKNOWN: u32 = u32::MAX;

/// Nodes as their own numbers.
#[derive(Drop)]
pub(crate) struct OwnNumbers {
    // The number of nodes; for contracts alone.
    nodes: u32,
}

impl OwnNumbers {
    /// Numbers the nodes of these links by themselves.
    pub(crate) fn of<L: Links>(links: &L) -> OwnNumbers
        requires { length (L.list links.now) ≤ 2 ^ 30 }
        ensures { result.nodes ≡ length (L.list links.now) }
    {
        OwnNumbers {
            nodes: links.count() as u32,
        }
    }
}

impl EndNumbering for OwnNumbers {
    ghost numbers = { λ o. record { cells = o.nodes; number = λ i. i } };

    #[inline(always)]
    fn number(&self, index: usize) -> u32 {
        // The read brings the prover the range of `nodes`.
        prove!(index < self.nodes as usize);
        index as u32
    }
}

/// Paths along links, and the numbers of the nodes where they end.
#[derive(Drop)]
pub(crate) struct Paths<'a, L: Links, N: EndNumbering> {
    pub(crate) links: &'a L,
    pub(crate) numbers: &'a N,
    ghost sound: { HaveNumbers (L.list links.now)
        (N.numbers numbers.now) } by { Prim.hlevel props },
}

impl<'a, L: Links, N: EndNumbering> Paths<'a, L, N> {
    /// Returns for each node the number of the node where its path ends.
    pub(crate) fn end_numbers(&self, alloc: Global) -> Result<Vec<u32>, AllocError>
        ensures { IfOk result (λ v. AreEndNumbers (L.list self.now.links.now)
            (N.numbers self.now.numbers.now).number v.items) }
    {
        if self.are_zero() {
            return zeros(alloc, self.links.count());
        }
        let mut found = self.unknown(alloc)?;
        self.find_all(&mut found);
        Ok(found)
    }

    /// Returns whether all ends have number 0, as in most tiles by few gauges.
    fn are_zero(&self) -> bool
        ensures { result ≡ true → (i : ℕ) → i < length (L.list self.now.links.now) →
            (N.numbers self.now.numbers.now).number (end_of (L.list self.now.links.now) i) ≡ 0 }
    {
        for node in 0..self.links.count() {
            if self.links.next(node) == node && self.numbers.number(node) != 0 {
                return false;
            }
        }
        true
    }

    /// Returns a list for all nodes, in which each number is still unknown.
    pub(crate) fn unknown(&self, alloc: Global) -> Result<Vec<u32>, AllocError>
        ensures { IfOk result (λ v. AreKnown (L.list self.now.links.now)
            (N.numbers self.now.numbers.now).number v.items) }
    {
        vec![in alloc; UNKNOWN; self.links.count()]
    }

    fn find_all(&self, found: &mut [u32])
        requires found { AreKnown (L.list self.now.links.now)
            (N.numbers self.now.numbers.now).number found.old }
        ensures { AreEndNumbers (L.list self.now.links.now)
            (N.numbers self.now.numbers.now).number found.new }
    {
        // Of a node whose number is known the next one's is too, so `find` copies it: a test of the
        // node's own would be guessed wrong at each second node.
        for node in 0..self.links.count() {
            self.find(found, node);
        }
    }

    /// Returns the number of the end of a node's path.
    /// Writes it into `found` for each node of the path before the first with a known number.
    #[inline(always)]
    pub(crate) fn find(&self, found: &mut [u32], node: usize) -> u32
        requires found { AreKnown (L.list self.now.links.now)
            (N.numbers self.now.numbers.now).number found.old }
        requires inside { node < length (L.list self.now.links.now) }
        ensures value { result
            ≡ (N.numbers self.now.numbers.now).number (end_of (L.list self.now.links.now) node) }
        ensures found { AreKnown (L.list self.now.links.now)
            (N.numbers self.now.numbers.now).number found.new }
        ensures kept { (i : ℕ) → IsKnown found.old i → IsKnown found.new i }
        ensures known { IsKnown found.new node }
    {
        // Half of all cells lead to one whose number is known, so no path is walked.
        let next = self.links.next(node);
        let known = found[next];
        if known != UNKNOWN {
            found[node] = known;
            return known;
        }
        let number = self.number_from(found, next);
        self.write(found, node, number);
        number
    }

    /// Returns the number of the end of the path of `from`.
    /// Follows links up to that end, or up to a node with a known number.
    #[inline(always)]
    fn number_from(&self, found: &[u32], from: usize) -> u32
        requires found { AreKnown (L.list self.now.links.now)
            (N.numbers self.now.numbers.now).number found.now }
        requires inside { from < length (L.list self.now.links.now) }
        ensures { result
            ≡ (N.numbers self.now.numbers.now).number (end_of (L.list self.now.links.now) from) }
    {
        let mut node = from;
        'path: while found[node] == UNKNOWN {
            let next = self.links.next(node);
            if next == node {
                return self.numbers.number(next);
            }
            node = next;
        }
        found[node]
    }

    /// Writes `number` for nodes on the path of `from`.
    /// Stops at the first node with a known number.
    #[inline(always)]
    fn write(&self, found: &mut [u32], from: usize, number: u32)
        requires found { AreKnown (L.list self.now.links.now)
            (N.numbers self.now.numbers.now).number found.old }
        requires inside { from < length (L.list self.now.links.now) }
        requires number { number
            ≡ (N.numbers self.now.numbers.now).number (end_of (L.list self.now.links.now) from) }
        ensures found { AreKnown (L.list self.now.links.now)
            (N.numbers self.now.numbers.now).number found.new }
        ensures kept { (i : ℕ) → IsKnown found.old i → IsKnown found.new i }
        ensures known { IsKnown found.new from }
    {
        let mut node = from;
        'path: while found[node] == UNKNOWN {
            found[node] = number;
            node = self.links.next(node);
        }
    }
}

/// Returns the node where each node's path ends.
pub(crate) fn ends<L: Links>(alloc: Global, links: &L) -> Result<Vec<u32>, AllocError>
    requires streams { AreStreams (L.list links.now) }
    requires few { length (L.list links.now) ≤ 2 ^ 30 }
    ensures { IfOk result (λ v. AreEnds (L.list links.now) v.items) }
{
    let numbers = &OwnNumbers::of(links);
    Paths { links, numbers }.end_numbers(alloc)
}

/// Returns the end of the path of `from`, without a list of known ends.
pub(crate) fn end_of<L: Links>(links: &L, from: usize) -> u32
    requires streams { AreStreams (L.list links.now) }
    requires few { length (L.list links.now) ≤ 2 ^ 30 }
    requires inside { from < length (L.list links.now) }
    ensures { result ≡ end_of (L.list links.now) from }
{
    let mut node = from;
    'path: loop {
        let next = links.next(node);
        if next == node {
            return next as u32;
        }
        node = next;
    }
}
