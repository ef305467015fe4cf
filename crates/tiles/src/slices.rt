//! Parts and elements of slices, at indices that contracts require to be in range.
ghost use Rattle.std.specs.Prelude.{◌≡◌, ◌+◌, ◌<◌, ◌≤◌, length, Some, slice_get, slice_range};

#[inline(always)]
pub(crate) fn part<T>(cells: &[T], from: usize, len: usize) -> &[T]
    requires { from + len ≤ length cells.now }
    ensures value { result.now ≡ slice_range cells.now from (from + len) }
    ensures size { length result.now ≡ len }
{
    &cells[from..from + len]
}

#[inline(always)]
pub(crate) fn element<T>(cells: &[T], index: usize) -> &T
    requires { index < length cells.now }
    ensures { slice_get cells.now index ≡ Some result.now }
{
    &cells[index]
}
