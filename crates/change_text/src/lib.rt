//! The texts that `bwe-live` answers with: what a post has changed, the reports that count, and a
//! refused line.
//!
//! The session uses `change_text`, `state_text` and `refused_text`, whose clauses are the whole
//! texts ("What it writes", docs/FORMAT.md). The rows of a change are those of the table text, put
//! by the same calls. `changed_text_is_later_text` is the law of changes: the rows of a change text
//! put into the earlier table text, found by their words alone, make the text of the later table
//! (`kept_tables_are_made_tables` says it of rows by number). `state_lines_are_read` says that the
//! lines of a state, read as input, mean the reports that they were made from. Texts are made whole
//! before anything is written. Nothing is promised here of which tables and reports there are.
#![tactic(auto)]

mod change;
mod laws;
mod refused;
mod state;

pub use change::change_text;
pub use laws::{
    changed_text_is_later_text, changes_stand_where_lines_differ, kept_tables_are_made_tables,
    state_lines_are_read,
};
pub use refused::refused_text;
pub use state::state_text;
