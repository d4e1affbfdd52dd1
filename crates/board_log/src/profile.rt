//! The plan of a board's tables, by a name.

use std::marker::Brand;

/// Which plan a board's tables are of, and which reports may stand in its log. Each call of a
/// program picks it.
///
/// The maker goes behind a lock, where no clause can see its plan. By this name the board, its
/// passes and its views go on speaking of that plan.
pub trait Profile<T> {
    ghost use Rattle.std.specs.Prelude.{ℕ, List};
    ghost use Rattle.bwe_specs.specs.declared.report.Report.{Report};

    /// The table belongs to the plan and to these reports.
    ghost belongs: { List Report → T → Type 0 };

    ghost reporters: { ℕ };

    ghost tasks: { ℕ };

    ghost links: { ℕ };
}

impl<T> Profile<T> for Brand {
    ghost belongs = { λ reports table. Unit {0} };

    ghost reporters = { 0 };

    ghost tasks = { 0 };

    ghost links = { 0 };
}
