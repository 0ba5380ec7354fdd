// What the cell of an entry tells.
#[derive(Clone, Copy)]
pub(crate) enum EntryKind {
    Tuple,
    Mark,
    Water,
    Idle,
    End,
    // The entry is stored whole, under the number that the cell has for its time.
    Whole,
}
