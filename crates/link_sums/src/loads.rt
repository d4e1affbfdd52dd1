//! The loads of links, as one amount changes.

ghost use Rattle.std.specs.Prelude.{◌≡◌, ℕ, ◌+◌, ◌<◌, ◌≤◌, true, length, slice_index};
ghost use Rattle.bwe_specs.specs.Paths.{path_group_at, path_group_count, load_on, uses};

use bwe_specs::MAX_TOTAL;
use path_groups::PathPlan;

/// Changes the loads of the links of one path group, as its amount goes from one number to another.
///
/// It costs by the links of that path group alone.
pub(crate) fn move_loads(
    loads: &mut [u64],
    plan: &PathPlan,
    group: u32,
    place: u32,
    before: u64,
    after: u64,
)
    requires group { group < length plan.now }
    requires place { place < path_group_count plan.now group }
    requires before { before ≤ MAX_TOTAL }
    requires after { after ≤ MAX_TOTAL }
    requires links { (link : ℕ) → uses (path_group_at plan.now group place) link ≡ true
        → link < length loads.old }
    requires counted { (link : ℕ) → link < length loads.old
        → load_on (path_group_at plan.now group place) link before ≤ slice_index loads.old link }
    requires room { (link : ℕ) → link < length loads.old → slice_index loads.old link ≤ MAX_TOTAL }
    ensures length { length loads.new ≡ length loads.old }
    ensures moved { (link : ℕ) → link < length loads.old →
        slice_index loads.new link + load_on (path_group_at plan.now group place) link before
        ≡ slice_index loads.old link + load_on (path_group_at plan.now group place) link after }
{
    for part in plan.parts(group, place) {
        let old = loads[part.link as usize];
        loads[part.link as usize] = old - part.load(before) + part.load(after);
    }
}
