//! Floods a net of four nodes: finds their levels (least crests) and labels.
//!
//! Water passes between nodes 0 and 1 at height 5, between 1 and 2 at 3, and between 0 and 2 at 7.
//! Node 3 has no neighbour.
ghost use Rattle.std.specs.Prelude.{◌≡◌, ◌∷◌, []};

use fill::{Flooded, Net, Spill, flood};
use smallvec::SmallVec;
use std::alloc::Global;
use std::process::Abort;
use std::test::Fail;
use terrain::{Height, NoMemory};

#[derive(Drop)]
struct FourNodes {
    sources: [Option<Height>; 4],
}

fn two_ways(alloc: Global, first: Spill, second: Spill) -> SmallVec<Spill, 8>
    ensures { result.items ≡ first ∷ second ∷ [] }
{
    let mut ways = SmallVec::new(alloc);
    ways.push_reserved(first);
    ways.push_reserved(second);
    ways
}

impl Net for FourNodes {
    ghost use Rattle.std.specs.Prelude.{◌≡◌, ◌<◌, ◌⊎◌, pos, None, slice_index_or};
    ghost use Rattle.std.proofs.Common.{inl, inr};

    ghost node_count = { λ _. 4 };

    ghost joins = { λ _ a b h. (a < 4) × (b < 4)
        × ((((a ≡ 0) × (b ≡ 1) × (h ≡ pos 5)) ⊎ ((a ≡ 1) × (b ≡ 2) × (h ≡ pos 3))
        ⊎ ((a ≡ 0) × (b ≡ 2) × (h ≡ pos 7)))
        ⊎ (((b ≡ 0) × (a ≡ 1) × (h ≡ pos 5)) ⊎ ((b ≡ 1) × (a ≡ 2) × (h ≡ pos 3))
        ⊎ ((b ≡ 0) × (a ≡ 2) × (h ≡ pos 7)))) };

    ghost source_height = { λ n a. slice_index_or n.sources a None };

    ghost joined_inside = { λ _ a b h j. j.1 };

    ghost joined_back = { λ _ a b h j. (j.1, j.0, elim j.2 [ inl x ↦ inr x | inr x ↦ inl x ]) };

    fn nodes(&self) -> u32 {
        4
    }

    fn neighbours(&self, alloc: Global, node: u32) -> Result<SmallVec<Spill, 8>, NoMemory> {
        match node {
            0 => Ok(two_ways(
                alloc,
                Spill { to: 1, height: 5 },
                Spill { to: 2, height: 7 },
            )),
            1 => Ok(two_ways(
                alloc,
                Spill { to: 0, height: 5 },
                Spill { to: 2, height: 3 },
            )),
            2 => Ok(two_ways(
                alloc,
                Spill { to: 1, height: 3 },
                Spill { to: 0, height: 7 },
            )),
            _ => Ok(SmallVec::new(alloc)),
        }
    }

    fn source(&self, node: u32) -> Option<Height> {
        self.sources[node as usize]
    }
}

/// Asserts the nodes' labels, and their levels, which are the same in all tests.
fn expect_labels(rt: &impl Abort, flooded: &Flooded, labels: &[Option<u32>]) {
    let levels = [Some(5), Some(3), Some(2), None];
    assert_eq!(rt; flooded.level.as_slice(), levels.as_slice());
    assert_eq!(rt; flooded.label.as_slice(), labels);
}

/// A source is its own label unless a walk to the other source has a lower crest.
#[test]
fn four_nodes(rt: HostRuntime) -> Result<(), Fail> {
    let two = Some(2);
    for (sources, labels) in [
        ([None, None, Some(2), None], [two, two, two, None]),
        ([Some(6), None, Some(2), None], [two, two, two, None]),
        ([Some(5), None, Some(2), None], [Some(0), two, two, None]),
    ] {
        let flooded = flood(rt.alloc(), &FourNodes { sources })?;
        expect_labels(&rt, &flooded, &labels);
    }
    Ok(())
}

/// With `rt try --fail-alloc`, the flood returns a fault, or the right levels and labels.
#[test]
fn refused_memory_is_told(rt: HostRuntime) {
    let sources = [None, None, Some(2), None];
    if let Ok(flooded) = flood(rt.alloc(), &FourNodes { sources }) {
        expect_labels(&rt, &flooded, &[Some(2), Some(2), Some(2), None]);
    }
}
