//! The one reply that an input has to the command `solve`, and the row of a refused document.
//!
//! `specs/SolveReply.antt` has that reply, and `specs/SolveCall.antt` how a call that serves the
//! command alone may end. Two calls have that clause: `bwe_solve`, a program of one thread that
//! gives the first table of a fresh clone, and `solve_answer`, over threads and a reading without a
//! tree, for `bwe`. `specs/Refused.antt` has the reply by what is made of an accepted document; all
//! commands that read one write a refusal by `refused`. Nothing is promised of time, nor that
//! memory is there.
#![tactic(auto)]

mod refusal;

pub use refusal::refused;
