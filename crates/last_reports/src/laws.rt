//! The laws of last reports, each the contract of a function that does nothing.

ghost use Rattle.last_reports.specs.Compaction.{CompactionLaw};
ghost use Rattle.last_reports.specs.Snapshot.{SnapshotLaw};

/// Compaction law: the allocation of a script is that of its last reports of each task and link, in
/// their order, but for the count of reports.
pub fn compaction_law()
    ensures { CompactionLaw }
{}

/// Snapshot law: the allocation of a script is that of the last reports of its tasks and links by
/// number, but for the count of reports.
pub fn snapshot_law()
    ensures { SnapshotLaw }
{}
