//! A maker after a script.

ghost use Rattle.std.specs.Prelude.{◌≡◌, ◌≤◌, [], length, All, IfOk};
ghost use Rattle.bwe_specs.specs.Fit.{IsFit};

use bwe_specs::{MAX_REPORTS, OutOfMemory, Report};
use demand_book::Maker;
use std::alloc::Global;

/// A new maker of any kind, after all reports of the script in their order.
pub fn after_script<M: Maker>(alloc: Global, maker: M, script: &[Report]) -> Result<M, OutOfMemory>
    requires first { M.absorbed maker [] }
    requires few { length script.now ≤ MAX_REPORTS }
    requires fit { All (IsFit (M.plan_tasks (M.plan maker)) (M.plan_links (M.plan maker)))
        script.now }
    ensures absorbed { IfOk result (λ after. M.absorbed after script.now) }
    ensures plan { IfOk result (λ after. M.plan after ≡ M.plan maker) }
{
    let mut maker = maker;
    for report in script {
        maker.absorb(alloc, *report)?;
    }
    Ok(maker)
}
