//! What a group gets, and on which path groups.

use std::marker::Model;

/// What a path group of a group gets, in kilobits per second, and the link of the first closing
/// that it uses.
#[derive(Clone, Copy, Debug, PartialEq, Eq)]
pub struct PlaceLine {
    pub amount: u64,
    pub closed: Option<u32>,
}

impl Model for PlaceLine {
    ghost use Rattle.bwe_specs.specs.Allocation.{PlaceLine as PlaceLineView};

    ghost Value = { PlaceLineView };

    ghost view = { λ line. record { amount = line.amount; closed = line.closed } };

    ghost inverse = { λ line. record { amount = line.amount; closed = line.closed } };
}

/// The share at which a group stopped, what it gets in kilobits per second, and a line for each of
/// its path groups.
#[derive(Debug, Drop)]
pub struct GroupLine {
    pub share: u64,
    pub amount: u64,
    pub places: Vec<PlaceLine>,
}

impl Model for GroupLine {
    ghost use Rattle.bwe_specs.specs.Allocation.{GroupLine as GroupLineView};

    ghost Value = { GroupLineView };

    ghost view = { λ line.
        record { share = line.share; amount = line.amount; places = line.places.items } };
}
