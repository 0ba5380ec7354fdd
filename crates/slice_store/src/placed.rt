/// What a tuple did to the slices.
#[derive(Clone, Copy, Debug, PartialEq, Eq)]
pub enum Placed {
    /// It entered one slice, and is the last tuple of the store.
    Appended,
    /// It entered one slice, and isn't the last tuple of the store.
    Joined,
    /// It became a slice of its own.
    Added,
    /// It joined two slices into one.
    Merged,
}
