//! What a run leaves behind: reads, readers and the whole log.

use bwe_specs::Report;

/// One read of a reader: its floor before, how many reports the table covers that it was shown, and
/// that table's total in kilobits per second.
#[derive(Clone, Copy, Debug, PartialEq, Eq)]
pub struct ReadLine {
    pub floor: u64,
    pub prefix: u64,
    pub total: u64,
}

/// What a reader saw. Its final log is the history followed by `beyond`, of `length` reports.
#[derive(Debug, Drop)]
pub struct ReaderLog {
    pub reads: Vec<ReadLine>,
    /// The read after the end, which is of the whole history at least.
    pub last: ReadLine,
    pub length: u64,
    pub beyond: Vec<Report>,
}

/// What a run leaves behind: the log at its end, how many reports each reporter sent, what each
/// reader saw, and the table of the history.
#[derive(Drop)]
pub struct CrewLog<T> {
    pub history: Vec<Report>,
    pub sent: Vec<u64>,
    pub readers: Vec<ReaderLog>,
    pub table: T,
}
