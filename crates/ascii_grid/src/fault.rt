//! The faults of a grid text. `docs/grid-text.md` numbers them from 1 to 12, in this order.

/// A slot: the room for one of six header values.
///
/// `Xll` and `Yll` are for the coordinates of the lower left cell.
#[derive(Clone, Copy, Debug, PartialEq, Eq)]
pub enum Key {
    Ncols,
    Nrows,
    Xll,
    Yll,
    Cellsize,
    Nodata,
}

/// Why a text is refused: its first fault, or want of memory.
#[derive(Clone, Copy, Debug, PartialEq, Eq)]
pub enum GridFault {
    /// Where a key is expected, a word begins with a letter and is no key.
    UnknownKey,
    /// This slot is given twice.
    RepeatedKey(Key),
    /// The header ends without this slot.
    MissingKey(Key),
    /// The number of columns or rows is not spelled by digits alone, or is not 1 to 4,096.
    BadSize(Key),
    /// A coordinate is no decimal text, or the cell size is no decimal text above 0.
    BadPlace(Key),
    /// The NODATA word is no decimal text.
    BadNodata,
    /// The word of this cell is neither NODATA nor a height at the scale.
    ///
    /// Cells count from 0 in row order.
    BadHeight(u32),
    /// The text ends after this many heights, fewer than the header asks for.
    TooFew(u32),
    /// A word follows the last height.
    TooMany,
    /// The text ends after a key, without its value.
    NoValue(Key),
    /// A word has more than 64 bytes, or the text has more than 2^29.
    TooLong,
    /// There is too little memory for the list of cells.
    Memory,
}
