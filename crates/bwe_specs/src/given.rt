//! What a plan is made of.

/// A path: its weight, from 1 to 1,000, and the numbers of its links in their order.
#[derive(Drop)]
pub struct PathSpec {
    pub weight: u64,
    pub links: Vec<u32>,
}

/// The traffic of one cluster from a site to another. A place is the number of a path group in the
/// list.
#[derive(Drop)]
pub struct GroupSpec {
    pub from: String,
    pub to: String,
    pub places: Vec<Vec<PathSpec>>,
}
