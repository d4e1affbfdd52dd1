//! The command `audit`: whether a text is that of a legal run of a document.
//!
//! The top call uses the one clause of `audit`: exit status 0 comes exactly where the text is that
//! of a closed legal run, and otherwise the first fault is named. The document is read once. Its
//! allocator makes the table of its script, begins anew (`rewound`), and knows that table (`known`)
//! where the text comes to it. Nothing is promised of time, nor that memory is there.
#![tactic(auto)]

mod audit_line;
mod known;
mod rewound;

pub use audit_line::audit;
