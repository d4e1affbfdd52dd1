//! The board as one list and a few numbers, moved by events: what the running board is to behave
//! like.
//!
//! `CoreState::step` is one event of the definition Core run ("Core run", docs/DEFINITIONS.md), for
//! any maker. `core_history_law` is the law on all runs of that definition: what a reader is
//! answered never falls, and each total is that of the table of the seen prefix of the one history.
//! There is no thread and no lock here. Nothing is promised of which tables the maker makes, nor of
//! when anybody posts.
#![tactic(auto)]

mod event;
mod law;
mod piece;
mod state;

pub use event::{CoreAnswer, CoreError, CoreEvent};
pub use law::core_history_law;
pub use piece::Piece;
pub use state::CoreState;
