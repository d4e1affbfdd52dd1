//! The law of what a board has answered.

ghost use Rattle.board_core.specs.Laws.{CoreHistoryLaw};

/// What a reader is answered never falls, each total is that of the table of the seen prefix of the
/// one history, and each reporter's reports stand in that history once, in its order ("Core history
/// law", docs/DEFINITIONS.md).
pub fn core_history_law()
    ensures { CoreHistoryLaw }
{}
