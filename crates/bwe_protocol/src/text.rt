//! The text of a state.

use crate::line::REPORTERS;
use control_core::{
    Allocator, Control, Entry, Known, Leader, Outcome, Posting, Reader, Reading, Sent, Slice,
    Transaction,
};
use demand_book::Maker;
use std::alloc::AllocError;

/// Puts the lines of a state, and an empty line, at the end of the text.
pub(crate) fn push_state<M: Maker>(
    text: &mut String,
    control: &Control<M>,
) -> Result<(), AllocError> {
    let revision = control.revision();
    write!(text, "revision {revision}\n")?;
    push_reports(text, control.reports())?;
    push_leader(text, control.leader())?;
    push_posted(text, control.posted())?;
    for reporter in 0..REPORTERS {
        push_slice(text, "slice", reporter, control.slice(reporter))?;
    }
    push_shown(text, control.posted())?;
    push_allocators(text, control.allocators())?;
    push_sent(text, control.sent())?;
    push_readers(text, control.readers())?;
    text.push_str("\n")
}

fn push_reports(text: &mut String, entries: &[Entry]) -> Result<(), AllocError> {
    for entry in entries {
        let revision = entry.revision;
        write!(text, "report {revision}\n")?;
    }
    Ok(())
}

fn push_leader(text: &mut String, leader: Option<Leader>) -> Result<(), AllocError> {
    match leader {
        None => text.push_str("leader none\n"),
        Some(leader) => {
            let Leader {
                holder,
                created,
                revision,
            } = leader;
            write!(
                text,
                "leader {holder} created {created} revision {revision}\n"
            )
        }
    }
}

fn push_slice(
    text: &mut String,
    word: &str,
    reporter: u32,
    slice: Option<&Slice>,
) -> Result<(), AllocError> {
    match slice {
        None => write!(text, "{word} {reporter} none\n"),
        Some(slice) => {
            let prefix = slice.prefix();
            write!(text, "{word} {reporter} prefix {prefix} limits")?;
            for limit in slice.limits() {
                write!(text, " {limit}")?;
            }
            text.push_str("\n")
        }
    }
}

fn push_posted(text: &mut String, posted: Option<&Posting>) -> Result<(), AllocError> {
    match posted {
        None => text.push_str("posted none\n"),
        Some(posting) => {
            let (prefix, revision) = (posting.prefix(), posting.revision());
            write!(text, "posted {prefix} revision {revision}\n")
        }
    }
}

// The slices as they stood at the revision of the posting.
fn push_shown(text: &mut String, posted: Option<&Posting>) -> Result<(), AllocError> {
    if let Some(posting) = posted {
        for reporter in 0..REPORTERS {
            push_slice(text, "shown", reporter, posting.slice(reporter))?;
        }
    }
    Ok(())
}

fn push_allocators(text: &mut String, allocators: &[Allocator]) -> Result<(), AllocError> {
    for (number, it) in allocators.iter().enumerate() {
        write!(text, "allocator {number}")?;
        push_number(text, " reading ", it.reading().map(Reading::revision))?;
        push_number(text, " known ", it.known().map(Known::fence))?;
        push_number(text, " since ", it.known().map(Known::since))?;
        push_number(text, " waits ", it.waits())?;
        text.push_str("\n")?;
    }
    Ok(())
}

// A word, and a number or `none`.
fn push_number(text: &mut String, word: &str, number: Option<u64>) -> Result<(), AllocError> {
    match number {
        None => write!(text, "{word}none"),
        Some(number) => write!(text, "{word}{number}"),
    }
}

fn push_sent(text: &mut String, all: &[Sent]) -> Result<(), AllocError> {
    for (number, sent) in all.iter().enumerate() {
        write!(text, "sent {number}")?;
        push_transaction(text, sent.transaction())?;
        push_outcome(text, sent.outcome())?;
        push_writes(text, sent.transaction())?;
    }
    Ok(())
}

fn push_transaction(text: &mut String, it: &Transaction) -> Result<(), AllocError> {
    let (holder, fence, prefix) = (it.holder(), it.fence(), it.prefix());
    write!(
        text,
        " holder {holder} fence {fence} prefix {prefix} posts "
    )?;
    text.push_str(if it.posts() { "yes" } else { "no" })
}

fn push_outcome(text: &mut String, outcome: Outcome) -> Result<(), AllocError> {
    match outcome {
        Outcome::OnItsWay => text.push_str(" outcome way"),
        Outcome::Done { revision } => write!(text, " outcome done {revision}"),
        Outcome::Refused => text.push_str(" outcome refused"),
        Outcome::Lost => text.push_str(" outcome lost"),
    }
}

// The reporters whose slices a transaction writes.
fn push_writes(text: &mut String, it: &Transaction) -> Result<(), AllocError> {
    text.push_str(" writes")?;
    for reporter in 0..REPORTERS {
        if it.write(reporter).is_some() {
            write!(text, " {reporter}")?;
        }
    }
    text.push_str("\n")
}

fn push_readers(text: &mut String, readers: &[Reader]) -> Result<(), AllocError> {
    for (number, reader) in readers.iter().enumerate() {
        let Reader { told, seen } = *reader;
        write!(text, "reader {number} told {told} seen {seen}\n")?;
    }
    Ok(())
}
