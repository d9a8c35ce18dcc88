ghost use Rattle.std.specs.Prelude.{◌≡◌, None, slice_index_or};

// What stands at the place, and nothing past the end.
pub(crate) fn at<T: Copy>(table: &[Option<T>], place: usize) -> Option<T>
    ensures { result ≡ slice_index_or table.now place None }
{
    table.get(place).copied().flatten()
}
