//! What a filling gives.

use bwe_specs::Closing;

/// What a filling gives: the closings in their order, the amounts by group and place, each group's
/// stop share, and the load of each link.
///
/// Amounts and loads are kilobits per second. A place of a group is the number of a path group in
/// its list.
#[derive(Drop)]
pub struct Filling {
    pub closings: Vec<Closing>,
    pub amounts: Vec<Vec<u64>>,
    pub shares: Vec<u64>,
    pub loads: Vec<u64>,
}
