//! Stores a horizon, which has a ramp for each of many targets, as a list of pieces: [`Horizon`].
//!
//! Targets are sorted by slope, and a piece is one ramp for consecutive ones. A [`Cursor`] speeds
//! up lookups at rising indexes of targets.
ghost use Rattle.std.specs.Prelude.{◌≡◌, ℕ, ◌+◌, ◌<◌, ◌≤◌, List, [], length, Some, OnOk, OnErr, slice_get};
ghost use Rattle.horizons.specs.declared.horizon.Piece.{Piece};
ghost use Rattle.horizons.specs.declared.ramp.Ramp.{Ramp};
ghost use Rattle.horizons.specs.Horizons.{IsTarget, IsRampAt, IsPushed, IsUpTo, AreUpTo, ramp_at, target_count, hides};

use crate::ramp::{Ramp, Value};
use crate::target::Target;
use std::alloc::{AllocError, Global};
use std::marker::Model;

/// One ramp for the targets from the previous piece's `end` up to this `end`.
/// The first piece begins at target 0, and `end` is exclusive.
#[derive(Clone, Copy)]
pub struct Piece {
    pub end: usize,
    pub ramp: Ramp,
}

/// A ramp for each of the first `target_count` targets, in pieces of one ramp each.
#[derive(Drop)]
pub struct Horizon {
    pieces: Vec<Piece>,
    end: usize,
}

impl Model for Horizon {
    ghost use Rattle.std.specs.Prelude.{◌≡◌, List};
    ghost use Rattle.horizons.specs.declared.horizon.Piece.{Piece};
    ghost use Rattle.horizons.specs.Horizons.{target_count};

    ghost Value = { List Piece };

    ghost view = { λ h. h.pieces.items };

    ghost invariant = { λ h. h.end ≡ target_count h.pieces.items };
}

/// The index of the piece at which the next lookup in a horizon begins.
/// It is valid for one horizon, until that horizon is cleared, if the target's index never falls
/// from lookup to lookup.
#[derive(Clone, Copy)]
pub struct Cursor {
    pub piece: usize,
}

/// Pushes a piece, or extends the last piece if that has an equal ramp.
#[inline(always)]
fn push_or_extend(pieces: &mut Vec<Piece>, piece: Piece) -> Result<(), AllocError>
    requires { target_count pieces.old.items < piece.end }
    ensures pushed { OnOk result (IsPushed pieces.old.items piece.end piece.ramp pieces.new.items) }
    ensures kept { OnErr result (pieces.new.items ≡ pieces.old.items) }
{
    let count = pieces.len();
    if count > 0 && pieces[count - 1].ramp == piece.ramp {
        pieces[count - 1] = piece;
        return Ok(());
    }
    pieces.push(piece)?;
    Ok(())
}

/// Returns the index of the first piece whose `end` is above target index `index`.
/// The search begins at piece `first`; no piece before that may have such an `end`.
#[inline(always)]
fn first_above(pieces: &[Piece], first: usize, index: usize) -> usize
    requires index { index < target_count pieces.now }
    requires before { AreUpTo pieces.now first index }
    ensures before { AreUpTo pieces.now result index }
    ensures inside { result < length pieces.now }
    ensures above { (p : Piece) → slice_get pieces.now result ≡ Some p → index < p.end }
{
    let mut piece = first;
    while pieces[piece].end <= index {
        piece += 1;
    }
    piece
}

impl Cursor {
    /// Makes a cursor at the first piece.
    pub fn start() -> Self
        ensures { (pieces : List Piece) (index : ℕ) → IsUpTo pieces result index }
    {
        Cursor { piece: 0 }
    }
}

impl Horizon {
    /// Makes a horizon over no target.
    pub fn new(alloc: Global) -> Self
        ensures { result ≡ [] }
    {
        Horizon {
            pieces: Vec::new(alloc),
            end: 0,
        }
    }

    /// Removes all pieces, and keeps their capacity.
    pub fn clear(&mut self)
        ensures { self.new ≡ [] }
    {
        self.pieces.clear();
        self.end = 0;
    }

    /// The number of targets that the horizon covers.
    #[inline(always)]
    pub fn target_count(&self) -> usize
        ensures { result ≡ target_count self.now }
    {
        self.end
    }

    /// Extends the horizon by a ramp up to `end`, unless it covers at least `end` targets.
    ///
    /// # Errors
    ///
    /// [`AllocError`] if an allocation fails.
    #[inline]
    pub fn push(&mut self, end: usize, ramp: Ramp) -> Result<(), AllocError>
        ensures { OnOk result (IsPushed self.old end ramp self.new) }
    {
        if end <= self.end {
            return Ok(());
        }
        push_or_extend(&mut self.pieces, Piece { end, ramp })?;
        self.end = end;
        Ok(())
    }

    /// Returns the piece that covers target `index`, and moves the cursor there.
    /// No piece before the cursor's may have an `end` above `index`. None has if, since it was new,
    /// the cursor was used on this horizon only, at no greater index, and this was not cleared.
    #[inline(always)]
    pub fn piece(&self, cursor: &mut Cursor, index: usize) -> Piece
        requires index { index < target_count self.now }
        requires cursor { IsUpTo self.now cursor.old index }
        ensures cursor { IsUpTo self.now cursor.new index }
        ensures range { (index < result.end) × (result.end ≤ target_count self.now) }
        ensures ramp { (i : ℕ) → index ≤ i → i < result.end →
            ramp_at self.now i ≡ Some result.ramp }
    {
        cursor.piece = first_above(&self.pieces, cursor.piece, index);
        self.pieces[cursor.piece]
    }

    /// Returns whether the horizon hides a target that is `rise` above the eye.
    /// `index` is the index of `target` among the targets of the horizon.
    /// No piece before the cursor's may have an `end` above `index`. None has if, since it was new,
    /// the cursor was used on this horizon only, at no greater index, and this was not cleared.
    #[inline(always)]
    pub fn hides(&self, cursor: &mut Cursor, index: usize, target: Target, rise: Value) -> bool
        requires index { index < target_count self.now }
        requires cursor { IsUpTo self.now cursor.old index }
        requires target { IsTarget target }
        requires at { (r : Ramp) → ramp_at self.now index ≡ Some r → IsRampAt r target }
        ensures cursor { IsUpTo self.now cursor.new index }
        ensures answer { result ≡ hides self.now index target rise }
    {
        self.piece(cursor, index).ramp.hides(target, rise)
    }
}
