//! A document with its shape found, and nothing else looked at. Names are lent by the JSON value.
//!
//! Functions are points of share and amount. Amounts, demands and capacities are kilobits per
//! second.

/// A link from one site to another, of a capacity in kilobits per second, which may have an owner.
#[derive(Drop)]
pub struct RawLink<'a> {
    pub name: &'a str,
    pub from: &'a str,
    pub to: &'a str,
    pub capacity: u64,
    pub owner: Option<&'a str>,
}

/// A path of a path group: its weight, and its links by name, in their order.
#[derive(Drop)]
pub struct RawPath<'a> {
    pub weight: u64,
    pub links: Vec<&'a str>,
}

/// A task of a job, with its weight and the reporter who owns it.
#[derive(Drop)]
pub struct RawTask<'a> {
    pub name: &'a str,
    pub reporter: &'a str,
    pub weight: u64,
}

/// A job of a user: `task` is the function of each of its tasks, times the task's weight. It may
/// have a function of its own.
#[derive(Drop)]
pub struct RawJob<'a> {
    pub name: &'a str,
    pub function: Option<Vec<(u64, u64)>>,
    pub task: Vec<(u64, u64)>,
    pub tasks: Vec<RawTask<'a>>,
}

/// A user of a group, and its jobs. It may have a function of its own.
#[derive(Drop)]
pub struct RawUser<'a> {
    pub name: &'a str,
    pub function: Option<Vec<(u64, u64)>>,
    pub jobs: Vec<RawJob<'a>>,
}

/// A group from one site to another: its path groups and its users. It may have a function of its
/// own.
#[derive(Drop)]
pub struct RawGroup<'a> {
    pub name: &'a str,
    pub from: &'a str,
    pub to: &'a str,
    pub function: Option<Vec<(u64, u64)>>,
    pub path_groups: Vec<Vec<RawPath<'a>>>,
    pub users: Vec<RawUser<'a>>,
}

/// What a report is of.
#[derive(Clone, Copy)]
pub enum RawTarget<'a> {
    Task(&'a str),
    Link(&'a str),
}

/// An entry of the script: who reports what, and the amount in kilobits per second.
#[derive(Drop)]
pub struct RawReport<'a> {
    pub reporter: &'a str,
    pub target: RawTarget<'a>,
    pub amount: u64,
}

/// A closing that a document gives: a link, and the share at which it closes.
#[derive(Drop)]
pub struct RawClosing<'a> {
    pub link: &'a str,
    pub share: u64,
}

/// A document: version, top share, network, tree, reporters, script and closings.
#[derive(Drop)]
pub struct RawDocument<'a> {
    pub version: u64,
    pub top: u64,
    pub links: Vec<RawLink<'a>>,
    pub groups: Vec<RawGroup<'a>>,
    pub reporters: Vec<&'a str>,
    pub script: Vec<RawReport<'a>>,
    pub closings: Vec<RawClosing<'a>>,
}
