//! The events of a text, written a line each.

ghost use Rattle.std.specs.Prelude.{◌≡◌, [], IfOk, IfSome};
ghost use Rattle.enforce_run.specs.EventLines.{Answers, AreThere, IsThere, downs_of, event_named as event_of_word, event_of as event_of_line, events_of, next_event as event_after, ups_of};

use crate::event::{EventError, EventLine};
use bwe_specs::MAX_EVENTS;
use std::alloc::Global;
use text_scan::{Lines, cut_at, printed_number_of};

/// The events of a text, for so many regions ("The second part of enforce", docs/FORMAT.md).
///
/// Each line is ended by a line feed; a last line without one is at fault.
#[tactic(auto, using(text_scan::proofs::ItemFacts::ends, text_scan::proofs::ItemFacts::ends_open))]
pub fn read_events(alloc: Global, text: &[u8], regions: u32) -> Result<Vec<EventLine>, EventError>
    ensures events { Answers (events_of regions text.now) result }
    ensures there { IfOk result (λ events. AreThere regions [] events.items) }
{
    let mut events = Vec::new(alloc);
    let mut rest = Lines::new(text);
    'lines: while let Some(line) = rest.next_line() {
        match next_event(line, regions, &events) {
            Some(event) => events.push(event)?,
            None => {
                return Err(EventError::BadLine {
                    line: events.len() as u64,
                });
            }
        }
    }
    if rest.is_empty() {
        Ok(events)
    } else {
        Err(EventError::BadLine {
            line: events.len() as u64,
        })
    }
}

// The event of the next line, where there may be one more.
fn next_event(line: &[u8], regions: u32, before: &[EventLine]) -> Option<EventLine>
    ensures event { result ≡ event_after regions before.now line.now }
    ensures there { IfSome result (IsThere regions before.now) }
{
    if before.len() as u64 >= MAX_EVENTS {
        return None;
    }
    event_of(line, regions, before)
}

// The event of a line, where what it names is there.
#[tactic(auto, unfolding(crate::specs::EventLines::event_of))]
fn event_of(line: &[u8], regions: u32, before: &[EventLine]) -> Option<EventLine>
    ensures event { result ≡ event_of_line regions before.now line.now }
    ensures there { IfSome result (IsThere regions before.now) }
{
    let cut = cut_at(b' ', line)?;
    event_named(cut.before, printed_number_of(cut.behind)?, regions, before)
}

// The event of a word and a number, where what it names is there.
#[tactic(auto, unfolding(crate::specs::EventLines::event_named))]
fn event_named(word: &[u8], number: u64, regions: u32, before: &[EventLine]) -> Option<EventLine>
    ensures event { result ≡ event_of_word regions before.now word.now number }
    ensures there { IfSome result (IsThere regions before.now) }
{
    if word == b"post".as_slice() {
        return Some(EventLine::Post { upto: number });
    }
    if word == b"send".as_slice() && number < u64::from(regions) {
        return Some(EventLine::Send {
            region: number as u32,
        });
    }
    if word == b"deliver".as_slice() && number < downs(before) {
        return Some(EventLine::Deliver { message: number });
    }
    if word == b"reply".as_slice() && number < ups(before) {
        return Some(EventLine::Reply { message: number });
    }
    if word == b"restart".as_slice() && number < u64::from(regions) {
        return Some(EventLine::Restart {
            region: number as u32,
        });
    }
    None
}

// How many messages to regions the events send.
#[tactic(auto, using(crate::proofs::EventFacts::count_fits))]
fn downs(events: &[EventLine]) -> u64
    ensures { result ≡ downs_of events.now }
{
    let mut count = 0;
    for event in events {
        if matches!(event, EventLine::Send { region: _ }) {
            count += 1;
        }
    }
    count
}

// How many messages to the centre the events send.
#[tactic(auto, using(crate::proofs::EventFacts::count_fits))]
fn ups(events: &[EventLine]) -> u64
    ensures { result ≡ ups_of events.now }
{
    let mut count = 0;
    for event in events {
        if matches!(event, EventLine::Deliver { message: _ }) {
            count += 1;
        }
    }
    count
}
