// How a value is shown, beside the number of tuples that it is of.
#[derive(Clone, Copy)]
pub(crate) enum ShownForm {
    Whole,
    // The value is a sum, and its count is that number.
    Ratio,
}
