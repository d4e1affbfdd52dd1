//! What a run of reporters and readers leaves behind, and when that is legal.
//!
//! `crew` makes a `CrewLog`, `run_text` prints one and `run_audit` reads the print.
//! `specs/LegalCrewLog.antt` says when a log is legal ("Legal crew log", docs/DEFINITIONS.md), and
//! `specs/Scripts.antt` what the scripts of a run have to be. It is plain data: there are no
//! threads, locks or boards here, and no call.
#![tactic(auto)]

mod log;

pub use log::{CrewLog, ReadLine, ReaderLog};
