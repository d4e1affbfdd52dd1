//! What is published: a table that belongs to the first reports of a log.
ghost use Rattle.std.specs.Prelude.{◌≡◌, ◌<◌, ℕ, IfOk, OnOk, OnErr};

use bwe_specs::OutOfMemory;
use std::alloc::Global;

/// A table of limits, in kilobits per second, that belongs to the first reports of a log.
///
/// Two tables are of one plan where their frames are equal. Then the one can be brought up to date
/// by a change.
pub trait Posted: Drop {
    /// What no call changes of a table.
    type Frame;

    ghost frame: { Self → Self.Frame };

    /// How many tasks a table of the frame has.
    ghost tasks_of: { Self.Frame → ℕ };

    /// How many reports the table covers.
    ghost covers: { Self → ℕ };

    ghost limit_at: { Self → ℕ → ℕ };

    ghost total_of: { Self → ℕ };

    /// What differs between two tables of one plan.
    type Change: Drop;

    /// The change leads from the one table to the other.
    ghost leads: { Self → Self.Change → Self → Type 0 };

    /// How many reports the table covers.
    fn prefix(&self) -> u64
        ensures { result ≡ covers self.now };

    /// The limit of a task.
    fn limit(&self, task: u32) -> u64
        requires task { task < tasks_of (frame self.now) }
        ensures { result ≡ limit_at self.now task };

    /// The sum of what all groups get.
    fn total(&self) -> u64
        ensures { result ≡ total_of self.now };

    /// An equal table.
    fn copy(&self, alloc: Global) -> Result<Self, OutOfMemory>
        ensures { IfOk result (λ copy. copy ≡ self.now) };

    /// What leads from this table to a later one.
    fn change_to(&self, alloc: Global, later: &Self) -> Result<Self::Change, OutOfMemory>
        requires one_plan { frame self.now ≡ frame later.now }
        ensures { IfOk result (λ change. leads self.now change later.now) };

    /// Brings the table up to date by a change that leads on from it.
    fn apply(&mut self, alloc: Global, change: &Self::Change) -> Result<(), OutOfMemory>
        requires leads { (later : Self) × leads self.old change.now later }
        ensures frame { frame self.new ≡ frame self.old }
        ensures ok { OnOk result
            ((later : Self) → leads self.old change.now later → self.new ≡ later) }
        ensures refused { OnErr result (self.new ≡ self.old) };
}
