//! How many places a memory has, and the limits of the two memories of this crate.
/// The places of the array come first, from 0 on.
pub const ARRAY_PLACES: usize = 512;

/// All places: those of the array, then one for each register from 00h on.
pub const PLACES: usize = 532;

/// The most writes that a byte image may be allowed.
pub const MOST_WRITES: u32 = 1_000_000_000;

/// The fewest words of a journal: a record for each place, and one word more.
pub const FEWEST_WORDS: usize = PLACES + 1;

/// The most words of a journal.
pub const MOST_WORDS: usize = 16_384;

/// The most erasures that a journal may be allowed.
pub const MOST_ERASURES: u32 = 100_000;
