//! What a filling takes beside its looks.

use mono_search::Steps;
use std::sync::ledger::Ledger;

/// Counters of what a filling takes beside its looks, each on a ledger of its own.
///
/// A turn reads the link that is due next, and either closes it or looks at it. A play is
/// that of one node of the tournament between the dues; to make the tournament plays each node once,
/// and is not counted. A move takes one group off a path group over a link that closed.
#[derive(Drop)]
pub struct Work<T: Ledger, P: Ledger, M: Ledger> {
    pub turns: Steps<T>,
    pub plays: Steps<P>,
    pub moves: Steps<M>,
}
