//! The law of the audit for an accepted document, each part as the contract of a function that does
//! nothing.

ghost use Rattle.audit_law.specs.DocumentLaws.{AcceptedDocumentIsAudited, DocumentRunIsLegal, LegalTextIsADocumentRun};

/// An accepted document has what the law of the audit asks of names, scripts, totals and tables.
pub fn accepted_document_is_audited()
    ensures { AcceptedDocumentIsAudited }
{}

/// The text of each closed legal run of a document that was read is legal.
pub fn document_run_is_legal()
    ensures { DocumentRunIsLegal }
{}

/// Each text that is legal for a document that was read is that of a closed legal run of it.
pub fn legal_text_is_a_document_run()
    ensures { LegalTextIsADocumentRun }
{}
