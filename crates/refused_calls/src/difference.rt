/// What isn't as it was before a refused call, or as it has to be.
#[derive(Clone, Copy)]
pub enum Difference {
    /// Two journals have other lengths.
    Journal,
    /// Two entries at a position.
    Entry,
    /// The changes under an entry.
    Changes,
    /// How many slices a key has.
    Slices,
    /// Where an entry stands, or how many changes it causes.
    Applied,
    /// An entry is refused as behind the end of its source.
    Ended,
    /// An entry is refused as one too many.
    Full,
    /// A call that was refused memory is refused so once more.
    Twice,
    /// Definitions, keys or entries are beyond their limits.
    Limits,
    /// What became of a feed.
    Outcome,
}

impl Difference {
    /// What is printed of it.
    pub fn line(self) -> &'static str {
        match self {
            Difference::Journal => "journals have other lengths",
            Difference::Entry => "the entries at a position differ",
            Difference::Changes => "the changes under an entry differ",
            Difference::Slices => "the slices of a key differ in number",
            Difference::Applied => "an entry is applied otherwise",
            Difference::Ended => "an entry is refused as behind an end",
            Difference::Full => "an entry is refused as one too many",
            Difference::Twice => "a call is refused memory twice",
            Difference::Limits => "a row is beyond the limits",
            Difference::Outcome => "a feed has an outcome that it can't have",
        }
    }
}
