//! The history and the roll of a board, by a name.

use std::marker::Brand;

/// Which history and which roll a board stands on. Each call of a program picks them.
///
/// Whatever is generic in one `B: Bases` speaks of one log.
pub trait Bases {
    ghost use Rattle.board_log.specs.History.{HistoryId};
    ghost use Rattle.atomic_table.specs.Seated.{TableId};

    ghost book: { HistoryId };

    ghost table: { TableId };
}

impl Bases for Brand {
    ghost use Rattle.board_log.specs.History.{no_history, no_table};

    ghost book = { no_history };

    ghost table = { no_table };
}
