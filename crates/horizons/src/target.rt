//! The cells that lines of sight lead to: [`Target`].
/// A cell at which an observer looks, relative to the observer's cell.
/// `line` counts rows or columns outward from the observer's own. `offset` counts cells along that
/// row or column, from the observer's column or row.
#[derive(Clone, Copy)]
pub struct Target {
    pub offset: i32,
    pub line: u32,
}
