//! An extent is a part of the grid whose cells have flags; a flag tells whether a cell may be seen.
ghost use Rattle.std.specs.Prelude.{◌↔◌, ◌+◌, ◌<◌, ◌^◌, IsTrue};
ghost use Rattle.sight.specs.Hiding.{IsInRun};

/// A run of `cells` cells along a coordinate, from cell `first` on.
/// The flags of neighbouring cells are `stride` apart in the list of flags.
#[derive(Clone, Copy)]
pub struct CellRun {
    pub first: u32,
    pub cells: u32,
    pub stride: usize,
}

/// A part of the grid whose cells have flags.
/// A `Family` has as lines the columns, or the rows, on one side of an observer.
/// `lines` is the run of all columns, or all rows, of the extent, those on the other side included.
/// `side` is the run of cells along each.
#[derive(Clone, Copy)]
pub struct Extent {
    pub lines: CellRun,
    pub side: CellRun,
}

impl CellRun {
    #[inline(always)]
    pub(crate) fn has(self, coordinate: u32) -> bool
        requires { self.first + self.cells < 2 ^ 32 }
        ensures { IsTrue result ↔ IsInRun self coordinate }
    {
        self.first <= coordinate && coordinate < self.first + self.cells
    }
}
