//! By how much a function rises at most from one share to the next.

ghost use Rattle.std.specs.Prelude.{ℕ, ◌-◌, ◌*◌, ◌<◌, ◌≤◌};
ghost use Rattle.bwe_specs.specs.FunctionValue.{IsFunction, function_value, last_amount};
ghost use Rattle.bw_function.specs.BwFunction.{points_of};
ghost use Rattle.bw_function.specs.Rise.{RisesAtMost};

/// The greatest rise per share between two neighbouring points, in kilobits per second. Of a single
/// point it is 0.
pub(crate) fn steepest_of(points: &[(u64, u64)]) -> u64
    requires { (top : ℕ) × IsFunction (points_of points.now) top }
    ensures rise { RisesAtMost (function_value (points_of points.now)) result }
    ensures bound { result ≤ last_amount (points_of points.now) }
{
    let mut steepest: u64 = 0;
    for at in 1..points.len() {
        steepest = steepest.max(slope(points[at - 1], points[at]));
    }
    steepest
}

// The rise per share on the line from one point to the next, rounded up.
fn slope(from: (u64, u64), to: (u64, u64)) -> u64
    requires run { from.0 < to.0 }
    requires rise { from.1 ≤ to.1 }
    ensures enough { to.1 - from.1 ≤ result * (to.0 - from.0) }
    ensures bound { result ≤ to.1 }
{
    (to.1 - from.1).div_ceil(to.0 - from.0)
}
