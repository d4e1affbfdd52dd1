//! The law of the audit, both ways, and of its first fault, each as the contract of a function that
//! does nothing.

ghost use Rattle.audit_law.specs.FirstFault.{NoRunGoesOn, SomeRunBeginsSo};
ghost use Rattle.audit_law.specs.Laws.{LegalRunIsLegal, LegalTextIsARun};

/// The text of each closed legal run is legal.
pub fn legal_run_is_legal()
    ensures { LegalRunIsLegal }
{}

/// Each legal text is that of a closed legal run.
pub fn legal_text_is_a_run()
    ensures { LegalTextIsARun }
{}

/// No closed legal run has the line at fault behind the lines before it.
pub fn no_run_goes_on()
    ensures { NoRunGoesOn }
{}

/// Some closed legal run has the lines before the one at fault, where the cause is script, sent,
/// length or table.
pub fn some_run_begins_so()
    ensures { SomeRunBeginsSo }
{}
