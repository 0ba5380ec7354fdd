/// A number of a kind of window, with its key in a definitions file.
#[derive(Clone, Copy, Debug, PartialEq, Eq)]
pub struct KeyedNumber {
    pub key: &'static str,
    pub number: u64,
}
