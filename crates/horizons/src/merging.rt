//! Extends a horizon by the greater of two ramps at each target that it gains: [`push_greater`].
//!
//! A ramp is a straight line over the slope by which targets are sorted: cells aside per row or
//! column outward. So two ramps cross at most once: a binary search finds where, and
//! [`is_never_above`] tests the first and the last target alone.
ghost use Rattle.std.specs.Prelude.{◌≡◌, ◌+◌, ◌<◌, ◌≤◌, not, Bool, false, length, Some, OnOk, slice_get};
ghost use Rattle.std.specs.Bool.{OnTrue};
ghost use Rattle.horizons.specs.declared.target.Target.{Target};
ghost use Rattle.horizons.specs.Horizons.{AreTargets, is_ramp_above, target_count};
ghost use Rattle.horizons.specs.Merging.{IsRampOn, IsAboveOn, IsGreaterPushed};

use crate::horizon::Horizon;
use crate::ramp::Ramp;
use crate::target::Target;
use std::alloc::AllocError;

#[inline(always)]
fn is_above_at(targets: &[Target], one: Ramp, other: Ramp, index: usize) -> bool
    requires targets { AreTargets targets.now }
    requires index { index < length targets.now }
    requires one { IsRampOn targets.now one index (index + 1) }
    requires other { IsRampOn targets.now other index (index + 1) }
    ensures { (t : Target) → slice_get targets.now index ≡ Some t →
        is_ramp_above one other t ≡ result }
{
    one.is_above(other, targets[index])
}

/// Returns whether `one` is above `other` at no target from `from` up to `end`.
/// The difference of two ramps is straight, so the first and the last target decide.
#[inline(always)]
pub fn is_never_above(targets: &[Target], one: Ramp, other: Ramp, from: usize, end: usize) -> bool
    requires targets { AreTargets targets.now }
    requires range { (from < end) × (end ≤ length targets.now) }
    requires one { IsRampOn targets.now one from end }
    requires other { IsRampOn targets.now other from end }
    ensures { OnTrue result (IsAboveOn targets.now one other false from end) }
{
    if is_above_at(targets, one, other, from) {
        return false;
    }
    !is_above_at(targets, one, other, end - 1)
}

/// Returns the first index at which the answer to `one > other` changes, or `end`.
/// `first` is the answer at index `from`, where the search begins. The difference of two ramps is
/// straight, so the answer changes at most once.
#[inline(always)]
fn first_change(
    targets: &[Target],
    one: Ramp,
    other: Ramp,
    first: bool,
    from: usize,
    end: usize,
) -> usize
    requires targets { AreTargets targets.now }
    requires range { (from < end) × (end ≤ length targets.now) }
    requires one { IsRampOn targets.now one from end }
    requires other { IsRampOn targets.now other from end }
    requires first { IsAboveOn targets.now one other first from (from + 1) }
    ensures range { (from < result) × (result ≤ end) }
    ensures before { IsAboveOn targets.now one other first from result }
    ensures after { IsAboveOn targets.now one other (not first) result end }
{
    if is_above_at(targets, one, other, end - 1) == first {
        return end;
    }
    let mut same = from;
    let mut turned = end - 1;
    while turned - same > 1 {
        let middle = same + (turned - same) / 2;
        if is_above_at(targets, one, other, middle) == first {
            same = middle;
        } else {
            turned = middle;
        }
    }
    turned
}

/// Extends `into` up to `end` by the greater of two ramps at each target.
///
/// # Errors
///
/// [`AllocError`] if an allocation fails.
///
/// # Examples
///
/// ```ignore
/// // `raised` gets the greater of `ground` and `before` at each target that it gains, up to `end`
/// push_greater(targets, ground, before, end, &mut raised)?;
/// ```
#[inline(always)]
pub fn push_greater(
    targets: &[Target],
    one: Ramp,
    other: Ramp,
    end: usize,
    into: &mut Horizon,
) -> Result<(), AllocError>
    requires targets { AreTargets targets.now }
    requires range { (target_count into.old < end) × (end ≤ length targets.now) }
    requires one { IsRampOn targets.now one (target_count into.old) end }
    requires other { IsRampOn targets.now other (target_count into.old) end }
    ensures { OnOk result (IsGreaterPushed targets.now one other into.old end into.new) }
{
    let from = into.target_count();
    let first = is_above_at(targets, one, other, from);
    let first_change = first_change(targets, one, other, first, from, end);
    if first {
        into.push(first_change, one)?;
        into.push(end, other)
    } else {
        into.push(first_change, other)?;
        into.push(end, one)
    }
}
