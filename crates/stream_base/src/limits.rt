//! The limits of the runtime. Times are in the sources' own unit.

/// The watermark of a source that has ended, later than any time: 2^62.
pub const FINAL: u64 = 1 << 62;

/// The greatest time, lateness, disorder, window length and session gap.
pub const TIME_MAX: u64 = 1_000_000_000_000_000;

/// The most entries that a shard's journal holds, and the greatest count of an events window.
pub const JOURNAL_MAX: u64 = 4_194_304;

/// The most bytes of a key.
pub const KEY_MAX: usize = 64;

/// The most windows that one set of definitions has.
pub const WINDOWS_MAX: usize = 32;

/// The most slides that one length of a sliding window holds.
pub const LENGTH_RATIO_MAX: u64 = 1000;

/// The greatest number of tuples between two made watermarks.
pub const EVERY_MAX: u64 = 1_000_000;
