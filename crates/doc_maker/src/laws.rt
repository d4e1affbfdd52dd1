//! The laws of made documents, each the contract of a function that does nothing.

ghost use Rattle.doc_maker.specs.Accepting.{MadeDocumentsAreAccepted, MadeDocumentsHaveTheirCounts};

/// Every made document is accepted, whatever its seed: no refusal can come.
pub fn made_documents_are_accepted()
    ensures { MadeDocumentsAreAccepted }
{}

/// A made document has a link and a group for each group of its size, and a task and a report for
/// each task.
pub fn made_documents_have_their_counts()
    ensures { MadeDocumentsHaveTheirCounts }
{}
