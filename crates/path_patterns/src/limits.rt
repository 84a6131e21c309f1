//! The limits of patterns.

/// Entries of a directory that is walked; beyond them there are too many `entries` (30).
pub const MOST_ENTRIES: u32 = 131_072;

/// Names for which the component `**` stands.
pub const MOST_SKIPPED: u32 = 64;
