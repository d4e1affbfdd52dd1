//! Written events, read and played on a world of regions, with the tables of any maker, and the
//! text of it: what `bwe enforce` writes.
//!
//! The top call asks `read_events` for the second part of its input, and gives the events to
//! `enforce` or prints the `event_refusal_line` of the first line at fault. Each event that is read
//! names a region and a message that are there at that point, so it may be played as it stands. The
//! clause of `enforce` is the whole text: the answers and the world after these events by the
//! definition World, with a region for each reporter and the tables of the script's first reports;
//! and that the World law holds at every moment of them, which `written_events_are_lawful` says of
//! all events that are there. Nothing is promised of which tables the maker makes.
#![tactic(auto)]

mod event;
mod events;
mod law;
mod play;
mod refusal_line;
mod regions;
mod run;
mod text;

pub use event::{EventError, EventLine};
pub use events::read_events;
pub use law::{there_are_at_most_2000_events, written_events_are_lawful};
pub use refusal_line::event_refusal_line;
pub use run::enforce;
