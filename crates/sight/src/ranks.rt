//! Ranks rays by slope.
//!
//! A ray leads from the observer to a target, seen from above. Its slope is the target's `offset`
//! over the target's `line`; its rank is the target's index among the sorted targets.
//!
//! The order of the rays carries no promise, so [`rank`] certifies the ranks that it makes by it.
ghost use Rattle.std.specs.Prelude.{◌≡◌, ℕ, ◌^◌, ◌≤◌, length, Some, OnOk, IfOk, slice_get};
ghost use Rattle.std.specs.Bool.{OnTrue};
ghost use Rattle.horizons.specs.declared.target.Target.{Target};
ghost use Rattle.horizons.specs.Horizons.{AreTargets, IsTarget};
ghost use Rattle.sight.specs.Ranks.{IsRanked};

use crate::line_ground::is_before;
use crate::ray_order::rays_by_slope;
use horizons::Target;
use std::alloc::{AllocError, Global};

/// Marks a ray without a rank.
const NO_RANK: u32 = u32::MAX;

/// Why a sweep was given up.
#[derive(Clone, Copy)]
pub enum SweepFault {
    /// An allocation failed.
    Memory(AllocError),
    /// The order of the rays was found wrong.
    Unsorted,
}

impl From<AllocError> for SweepFault {
    ghost use Rattle.std.specs.Prelude.{◌≡◌};
    ghost use Rattle.sight.specs.declared.ranks.SweepFault.TheVariants.{Memory};

    ghost from_gives = { λ error fault. fault ≡ Memory error };

    fn from(error: AllocError) -> Self {
        SweepFault::Memory(error)
    }
}

/// Targets by rising slope, and the rank of each ray's target among them.
#[derive(Drop)]
pub struct RankedRays {
    pub targets: Vec<Target>,
    pub ranks: Vec<u32>,
}

/// Whether targets are sorted by slope.
fn are_sorted(targets: &[Target]) -> bool
    requires { (i : ℕ) (t : Target) → slice_get targets.now i ≡ Some t → IsTarget t }
    ensures { OnTrue result (AreTargets targets.now) }
{
    for index in 1..targets.len() {
        let last = targets[index - 1];
        if is_before(targets[index], last.line, last.offset) {
            return false;
        }
    }
    true
}

/// Returns the targets of rays by rising slope, and the rank of each ray's target.
///
/// # Errors
///
/// [`SweepFault::Unsorted`] if the ranks fail their certificate.
pub(crate) fn rank(alloc: Global, rays: &[Target]) -> Result<RankedRays, SweepFault>
    requires each { (i : ℕ) (t : Target) → slice_get rays.now i ≡ Some t → IsTarget t }
    requires few { length rays.now ≤ 2 ^ 24 }
    ensures { IfOk result (λ r. IsRanked rays.now r.targets.items r.ranks.items) }
{
    let order = rays_by_slope(alloc, rays)?;
    let mut targets = Vec::with_capacity(alloc, rays.len())?;
    let mut ranks = vec![in alloc; NO_RANK; rays.len()]?;
    for rank in 0..rays.len() {
        let Some(entry) = order.get(rank) else {
            return Err(SweepFault::Unsorted);
        };
        let number = entry.index();
        if number >= rays.len() {
            return Err(SweepFault::Unsorted);
        }
        targets.push(rays[number]).map_err(AllocError::from)?;
        ranks[number] = rank as u32;
    }
    if ranks.contains(&NO_RANK) || !are_sorted(&targets) {
        return Err(SweepFault::Unsorted);
    }
    Ok(RankedRays { targets, ranks })
}
