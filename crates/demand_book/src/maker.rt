//! What makes tables of reports.
ghost use Rattle.std.specs.Prelude.{◌≡◌, ◌<◌, ◌++◌, ◌∷◌, [], ℕ, List, length, IfOk, OnOk, OnErr};
ghost use Rattle.bwe_specs.specs.declared.report.Report.{Report};
ghost use Rattle.bwe_specs.specs.Fit.{IsFit};

use crate::posted::Posted;
use bwe_specs::{MAX_REPORTS, OutOfMemory, Report};
use std::alloc::Global;

/// What takes in reports one by one, and makes the table of all that it took in.
///
/// A table depends on the plan and on the list of reports alone, however the maker comes by it.
pub trait Maker: Drop {
    type Table: Posted;

    /// What no call changes of a maker.
    type Plan;

    ghost plan: { Self → Self.Plan };

    ghost plan_tasks: { Self.Plan → ℕ };

    ghost plan_links: { Self.Plan → ℕ };

    /// The maker has taken in these reports, in this order.
    ghost absorbed: { Self → List Report → Type 0 };

    /// The table that belongs to a plan and a list of reports.
    ghost table_of: { Self.Plan → List Report → Self.Table };

    /// How many tasks the plan has.
    fn tasks(&self) -> u32
        ensures { result ≡ plan_tasks (plan self.now) };

    /// How many links the plan has.
    fn links(&self) -> u32
        ensures { result ≡ plan_links (plan self.now) };

    /// Takes in a report. After a refusal the maker has taken in what it had.
    fn absorb(&mut self, alloc: Global, report: Report) -> Result<(), OutOfMemory>
        requires fit { IsFit (plan_tasks (plan self.old)) (plan_links (plan self.old)) report }
        requires room { (reports : List Report) × absorbed self.old reports
            × (length reports < MAX_REPORTS) }
        ensures plan { plan self.new ≡ plan self.old }
        ensures ok { OnOk result
            ((reports : List Report) → absorbed self.old reports
            → absorbed self.new (reports ++ report ∷ [])) }
        ensures refused { OnErr result
            ((reports : List Report) → absorbed self.old reports → absorbed self.new reports) };

    /// Makes the table of all that was taken in.
    fn table(&mut self, alloc: Global) -> Result<Self::Table, OutOfMemory>
        ensures plan { plan self.new ≡ plan self.old }
        ensures absorbed { (reports : List Report) → absorbed self.old reports
            → absorbed self.new reports }
        ensures table { IfOk result (λ table.
            (reports : List Report) → absorbed self.old reports
            → table ≡ table_of (plan self.old) reports) };

    /// A table covers the reports that it belongs to.
    ghost covers_all: { (plan : Self.Plan) (reports : List Report)
        → Self.Table.covers (table_of plan reports) ≡ length reports };

    /// All tables of a plan have one frame.
    ghost one_frame: { (plan : Self.Plan) (reports others : List Report)
        → Self.Table.frame (table_of plan reports) ≡ Self.Table.frame (table_of plan others) };

    /// All tables of a plan have its number of tasks.
    ghost same_tasks: { (plan : Self.Plan) (reports : List Report)
        → Self.Table.tasks_of (Self.Table.frame (table_of plan reports)) ≡ plan_tasks plan };
}
