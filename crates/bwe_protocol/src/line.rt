//! The event of a line.

ghost use Rattle.std.specs.Prelude.{IfSome};
ghost use Rattle.bwe_protocol.specs.Named.{IsNamed};

use bwe_specs::{MAX_AMOUNT, Report, Target};
use control_core::ControlEvent;
use text_scan::{cut_at, printed_number_of};

/// How many reporters there are. The first has tasks 0 and 3, the second task 1, and the third task
/// 2.
pub(crate) const REPORTERS: u32 = 3;

/// The tasks.
pub(crate) const TASKS: u32 = 4;

/// The allocators.
pub(crate) const ALLOCATORS: u32 = 3;

/// The readers.
pub(crate) const READERS: u32 = 2;

/// The event of a line, `None` where it is no line of an event, or names what there never is.
pub(crate) fn event_of(line: &[u8]) -> Option<ControlEvent>
    ensures named { IfSome result IsNamed }
{
    match cut_at(b' ', line) {
        None => bare_event(line),
        Some(cut) => match cut_at(b' ', cut.behind) {
            None => event_of_one(cut.before, printed_number_of(cut.behind)?),
            Some(numbers) => event_of_two(
                cut.before,
                printed_number_of(numbers.before)?,
                printed_number_of(numbers.behind)?,
            ),
        },
    }
}

// The event of a word without a number.
fn bare_event(word: &[u8]) -> Option<ControlEvent>
    ensures named { IfSome result IsNamed }
{
    if word == b"expire".as_slice() {
        return Some(ControlEvent::Expire);
    }
    None
}

// The event of a word and a number.
fn event_of_one(word: &[u8], number: u64) -> Option<ControlEvent>
    ensures named { IfSome result IsNamed }
{
    if word == b"take".as_slice() {
        return Some(ControlEvent::Take {
            transaction: number,
        });
    }
    if word == b"lose".as_slice() {
        return Some(ControlEvent::Lose {
            transaction: number,
        });
    }
    if word == b"see".as_slice() {
        return event_of_reader(number);
    }
    event_of_allocator(word, number)
}

// The event of a reader that reads.
fn event_of_reader(number: u64) -> Option<ControlEvent>
    ensures named { IfSome result IsNamed }
{
    if number >= u64::from(READERS) {
        return None;
    }
    Some(ControlEvent::See {
        reader: number as u32,
    })
}

// The event of a word and an allocator.
fn event_of_allocator(word: &[u8], number: u64) -> Option<ControlEvent>
    ensures named { IfSome result IsNamed }
{
    if number >= u64::from(ALLOCATORS) {
        return None;
    }
    let allocator = number as u32;
    if word == b"campaign".as_slice() {
        return Some(ControlEvent::Campaign { allocator });
    }
    if word == b"read".as_slice() {
        return Some(ControlEvent::Read { allocator });
    }
    if word == b"look".as_slice() {
        return Some(ControlEvent::Look { allocator });
    }
    if word == b"learn".as_slice() {
        return Some(ControlEvent::Learn { allocator });
    }
    if word == b"give_up".as_slice() {
        return Some(ControlEvent::GiveUp { allocator });
    }
    if word == b"crash".as_slice() {
        return Some(ControlEvent::Crash { allocator });
    }
    None
}

// The event of a word and two numbers.
fn event_of_two(word: &[u8], first: u64, second: u64) -> Option<ControlEvent>
    ensures named { IfSome result IsNamed }
{
    if word == b"demand".as_slice() && first < u64::from(TASKS) && second <= MAX_AMOUNT {
        return Some(ControlEvent::Report {
            report: Report {
                reporter: 0,
                target: Target::Task {
                    number: first as u32,
                },
                amount: second,
            },
        });
    }
    if word == b"send".as_slice()
        && first < u64::from(ALLOCATORS)
        && second <= u64::from(REPORTERS)
    {
        return Some(ControlEvent::Send {
            allocator: first as u32,
            upto: second as u32,
        });
    }
    if word == b"tell".as_slice() && first < u64::from(READERS) {
        return Some(ControlEvent::Tell {
            reader: first as u32,
            revision: second,
        });
    }
    None
}
