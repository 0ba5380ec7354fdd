use crate::key_text::KeyText;

/// What an entry says. Times are event times, in the source's own unit.
#[derive(Clone, Copy, Debug, PartialEq, Eq)]
pub enum What {
    /// A value of a key at a time.
    Tuple { key: KeyText, time: u64, value: i64 },
    /// A punctuation of a key: its marks windows are cut at this time.
    Mark { key: KeyText, time: u64 },
    /// The source's watermark: it has told all that it has before this time.
    Water { time: u64 },
    /// The source is idle: until it says something of its watermark again, it holds no other back.
    Idle,
    /// The end of the source.
    End,
}
