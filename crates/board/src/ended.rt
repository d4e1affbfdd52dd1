//! A board whose log has ended.

use crate::reporter::ReporterPass;
use board_log::Bases;
use board_pair::FinalAck;
use bwe_specs::Report;
use demand_book::Posted;

/// The end of a board: its whole log, as an ack and as reports, how many reports that has, and the
/// table of it.
///
/// The log has ended: nothing was added to it since, and nothing ever is.
#[derive(Drop)]
pub struct Ended<T: Posted, B: Bases> {
    pub ack: FinalAck<B>,
    pub history: Vec<Report>,
    pub length: u64,
    pub table: T,
}

/// Memory ran out at the end of a board. The passes come back, and `finish` can be called
/// again.
#[derive(Drop)]
pub struct FinishRefused<B: Bases> {
    pub passes: Vec<ReporterPass<B>>,
}
