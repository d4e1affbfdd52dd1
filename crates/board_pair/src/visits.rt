//! What a reader's seat at a desk knows.

use crate::pair::Pair;
use board_log::{Bases, Profile};
use crossbeam_utils::rule::{Outcome, Protocol};
use demand_book::Posted;

/// How often a seat has entered a published copy, and how many reports the table covered there the
/// last time. No value of it is made.
pub struct Visits {
    pub count: u64,
    pub covers: u64,
}

/// The rule of a desk: it asks nothing of what is published. A seat's visits are changed by an
/// entry alone.
pub struct Visited;

impl<P> Protocol<P, Visits> for Visited {
    ghost holds = { λ _ _. Unit {0} };

    ghost first = { record { count = 0; covers = 0 } };
}

/// An entry. It counts, and notes what is published at that step.
pub struct Enters;

impl<T: Posted, N: Profile<T>, B: Bases> Outcome<Pair<T, N, B>, Visits> for Enters {
    ghost use Rattle.board_pair.specs.Reading.{HasVisited};

    ghost then = { λ before shown _ after. HasVisited (T.covers shown.table) before after };
}

/// A publish.
pub struct Publishes;

impl<P> Outcome<P, Visits> for Publishes {
    ghost then = { λ _ _ _ _. Unit {0} };
}
