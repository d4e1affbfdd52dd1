//! The law of the audit: the verdict on a text is Legal exactly where the text is that of a closed
//! legal run.
//!
//! The audit judges a text by a table of causes, line by line. `specs/ClosedRun.antt` says in the
//! words of a crew log which texts are meant, and two laws say that these and no others are found
//! legal: `legal_run_is_legal` and `legal_text_is_a_run`. `no_run_goes_on` says of the line that a
//! verdict names that no closed legal run has it behind the lines before it, and
//! `some_run_begins_so` that some closed legal run has those, where the line is not among the reads
//! of a reader. They hold for any maker's tables, under what `AreAudited` asks of names, scripts
//! and totals.
//!
//! A document that was read has all of that (`accepted_document_is_audited`), so the laws hold of
//! the verdict that the command `audit` prints: `document_run_is_legal` and
//! `legal_text_is_a_document_run`. The top call cites them: its clause on `audit` names
//! `IsDocumentRun` (`specs/DocumentRun.antt`). Nothing is promised of documents that are refused.
#![tactic(auto)]

mod document_laws;
mod laws;

pub use document_laws::{
    accepted_document_is_audited, document_run_is_legal, legal_text_is_a_document_run,
};
pub use laws::{legal_run_is_legal, legal_text_is_a_run, no_run_goes_on, some_run_begins_so};
