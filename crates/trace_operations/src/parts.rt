//! Parts of lists that may be shorter.
ghost use Rattle.std.specs.Prelude.{◌≡◌, drop, take};

/// What stands behind so many.
pub fn behind<T>(list: &[T], count: usize) -> &[T]
    ensures { result.now ≡ drop count list.now }
{
    if count <= list.len() {
        &list[count..]
    } else {
        &[]
    }
}

/// The first so many.
pub(crate) fn first_of<T>(list: &[T], count: usize) -> &[T]
    ensures { result.now ≡ take count list.now }
{
    if count <= list.len() {
        &list[..count]
    } else {
        list
    }
}
