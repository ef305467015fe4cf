//! An observer's cell and eye height.
/// An observer: its cell, and the height of its eye above the ground.
#[derive(Clone, Copy, Debug, PartialEq, Eq)]
pub struct Observer {
    /// The row, from 0 at the north.
    pub row: u32,
    /// The column, from 0 at the west.
    pub col: u32,
    /// The eye's height above the ground, in units of 10^-scale.
    /// Viewsheds refuse more than 1,000,000.
    pub eye: u32,
}
