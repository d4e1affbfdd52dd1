//! The audit of a printed run: whether a text is that of a legal run of some scripts, or its first
//! line at fault and why.
//!
//! The layer above calls `audit`, for any maker, and prints its verdict by `audit_text`. The
//! contract of `audit` says the whole verdict (`specs/Verdict.antt`): lines are read in their
//! order, each has one form that is due, and the lowest line at fault wins, on one line the first
//! cause. `specs/Forms.antt` has the forms, `History.antt` and `Walk.antt` what a line leads to.
//! What a line says and what is due are public types of private modules: `audit_law` names them in
//! the law on the verdict. Nothing is promised of the time that a maker takes for its tables.
#![tactic(auto)]

mod due;
mod forms;
mod history;
mod run;
mod text;
mod totals;
mod verdict;
mod walk;
mod words;

pub use run::audit;
pub use text::audit_text;
pub use verdict::{AuditCause, AuditVerdict};
