// What the cell of a change tells.
#[derive(Clone, Copy)]
pub(crate) enum ChangeForm {
    Gone,
    New,
    Again,
    Dropped,
    // The change is stored whole, under the number that the cell has for its low end.
    Whole,
}
