//! The limits of documents and of a run. Amounts are whole kilobits per second.
//!
//! Of what a document of version 4 may have more, this page has the limits of version 4: every
//! crate works within them. `DocumentLimits` has those of each version.

/// The greatest share that a document's `top` can be.
pub const MAX_SHARE: u64 = 1_000_000_000;

/// The greatest amount in the input: a demand, a capacity, an amount of a function.
pub const MAX_AMOUNT: u64 = 1_000_000_000_000;

/// The greatest sum of values: as many tasks as there can be, each with the greatest demand.
pub const MAX_TOTAL: u64 = 1_048_576_000_000_000_000;

/// The greatest number of links.
pub const MAX_LINKS: u64 = 65_536;

/// The greatest number of groups.
pub const MAX_GROUPS: u64 = 65_536;

/// The greatest number of path groups of a group.
pub const MAX_PATH_GROUPS: u64 = 16;

/// The greatest number of paths of a path group.
pub const MAX_PATHS: u64 = 16;

/// The greatest number of links of a path.
pub const MAX_HOPS: u64 = 32;

/// The greatest number of links over all paths, repeated ones too.
pub const MAX_ALL_HOPS: u64 = 16_777_216;

/// The greatest number of points of one function.
pub const MAX_POINTS: u64 = 256;

/// The greatest weight of a path or of a task.
pub const MAX_WEIGHT: u64 = 1_000;

/// The greatest number of tasks.
pub const MAX_TASKS: u64 = 1_048_576;

/// The greatest number of reports in a history.
pub const MAX_REPORTS: u64 = 4_194_304;

/// The greatest number of closings that a document lists.
pub const MAX_CLOSINGS: u64 = 65_536;

/// The greatest number of reporters.
pub const MAX_REPORTERS: u32 = 4_096;

/// The greatest number of readers.
pub const MAX_READERS: u32 = 64;

/// The greatest number of reads that each reader of a run makes, but for the one at its end.
pub const MAX_READS: u32 = 1_000;

/// The greatest window of an estimate: how many samples of a task an estimator keeps.
pub const MAX_WINDOW: u32 = 1_000;

/// The least headroom, in hundredths: an estimate is the greatest sample itself.
pub const MIN_HEADROOM: u32 = 100;

/// The greatest headroom, in hundredths: an estimate is ten times the greatest sample.
pub const MAX_HEADROOM: u32 = 1_000;

/// The greatest number of groups of a document that `make` or `bulk` writes.
pub const MAX_MADE_GROUPS: u64 = 1_024;

/// The greatest number of tasks of a document that `make` or `bulk` writes.
pub const MAX_MADE_TASKS: u64 = 20_000;

/// The greatest number of events that `enforce` plays.
pub const MAX_EVENTS: u64 = 2_000;

/// The greatest number of bytes of a line of reports, without the one that ends it.
pub const MAX_LINE: usize = 255;

/// The greatest number of bytes of a document that is not of version 4.
pub const MAX_INPUT: u64 = 67_108_864;

/// The greatest number of bytes of a document of version 4.
pub const MAX_LONG_INPUT: u64 = 1_073_741_824;
