//! Tables that keep up with reports: a plan's demands and capacities after all reports, and the
//! table that was written last.
//!
//! `LiveCore` takes in reports without end and keeps no list of them; `post` makes the table of all
//! that it took in, and gives back the one before, for the change between them; `state` is the last
//! report of each task and link. Its contracts say which reports were taken in, and which of them
//! the written table holds (`specs/Live.antt`): each table is the allocation of the plan and those
//! reports. Nothing is promised of time.
#![tactic(auto)]

mod live;

pub use live::LiveCore;
