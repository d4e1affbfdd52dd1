//! Reports: what tasks ask for, and what links can carry.

/// What a report is of: a task's demand, or a link's capacity.
#[derive(Clone, Copy, Debug, PartialEq, Eq, Drop)]
pub enum Target {
    Task { number: u32 },
    Link { number: u32 },
}

/// A demand or a capacity that a reporter told, in kilobits per second.
///
/// A drain of a link is a report of capacity 0.
#[derive(Clone, Copy, Debug, PartialEq, Eq, Drop)]
pub struct Report {
    pub reporter: u32,
    pub target: Target,
    pub amount: u64,
}
