//! Whole calls of the top call on devices in memory.

use crate::tests::documents::{EMPTY, EMPTY_IN_TWO_PARTS};
use crate::tests::words_of;
use bwe_io::{Sink, Source, read_all};
use memory_io::{MemorySink, MemorySource, SureSink, SureSource};
use program_words::USAGE;
use std::alloc::{AllocError, Global};
use std::test::Fail;
use top_call::bwe_once;

// The table of the empty document.
const TABLE: &str = "table 0\ntotal 0\n";

fn sure(alloc: Global, input: &str) -> Result<SureSource, AllocError> {
    Ok(SureSource::new(Vec::from_slice(alloc, input.as_bytes())?))
}

// The exit status of `bwe_once`.
fn status<S: Source, K: Sink>(
    alloc: Global,
    line: &[&str],
    source: &mut S,
    sink: &mut K,
) -> Result<u8, AllocError> {
    Ok(bwe_once(alloc, &words_of(alloc, line)?, source, sink))
}

// Whether `bwe_once` answers a command and an input with this exit status and this text.
fn is_answered(
    alloc: Global,
    line: &[&str],
    input: &str,
    wanted: u8,
    text: &str,
) -> Result<bool, Fail> {
    let mut source = sure(alloc, input)?;
    let mut sink = SureSink::new(alloc, 1_000)?;
    let got = status(alloc, line, &mut source, &mut sink)?;
    Ok(got == wanted && sink.bytes() == text.as_bytes())
}

// Each command that `bwe_once` serves on an input, and arguments that are no command. The second of
// the two parts is a line feed alone, so it is one of no tiers, and none of the others.
#[test]
fn each_line_has_its_text_and_status(rt: HostRuntime) -> Result<(), Fail> {
    let alloc = rt.alloc();
    let two = EMPTY_IN_TWO_PARTS;
    for (word, input, wanted, text) in [
        ("solve", EMPTY, 0, TABLE),
        ("check", EMPTY, 0, "right\n"),
        ("levels", EMPTY, 0, "levels 1\ntotal 0\n"),
        ("solve", "{", 3, "refused 1 not json\n"),
        ("run", EMPTY, 2, USAGE),
        ("tiers", two, 0, "tiers 0\ntotal 0\n"),
        ("enforce", two, 3, "refused 16 events at line 0\n"),
        ("audit", two, 1, "wrong at line 0: form\n"),
        ("audit", EMPTY, 3, "refused 14 parts\n"),
    ] {
        let answered = if word == "levels" {
            is_answered(alloc, &[word, "90"], input, wanted, text)?
        } else {
            is_answered(alloc, &[word], input, wanted, text)?
        };
        assert!(rt; answered);
    }
    Ok(())
}

// How often two parts are read byte for byte: once for each, and once for the end.
const READS_OF_TWO_PARTS: u32 = 76;

// Whether a command whose reads fail after so many ends with exit status 4, and has written
// nothing.
fn is_unread(alloc: Global, word: &str, call: u32) -> Result<bool, Fail> {
    let input = Vec::from_slice(alloc, EMPTY_IN_TWO_PARTS.as_bytes())?;
    let mut source = MemorySource::new(input, 1, vec![in alloc; u64::from(call)]?);
    let mut sink = SureSink::new(alloc, 1_000)?;
    let got = status(alloc, &[word], &mut source, &mut sink)?;
    Ok(got == 4 && sink.bytes().is_empty())
}

// The case "Device table": a read that fails ends the call with exit status 4, and nothing is
// written.
#[test]
fn a_read_that_fails_writes_nothing(rt: HostRuntime) -> Result<(), Fail> {
    let alloc = rt.alloc();
    for call in 0..READS_OF_TWO_PARTS {
        for word in ["solve", "tiers"] {
            let unread = is_unread(alloc, word, call)?;
            assert!(rt; unread, "{call}");
        }
    }
    Ok(())
}

// Whether the command that prints a table ends with this exit status, and has left so much of it,
// where the write after that fails.
fn is_cut(alloc: Global, left: &[u8], wanted: u8) -> Result<bool, Fail> {
    let mut source = sure(alloc, EMPTY)?;
    let mut sink = MemorySink::new(alloc, 1_000, 1, vec![in alloc; left.len() as u64]?)?;
    let got = status(alloc, &["solve"], &mut source, &mut sink)?;
    Ok(got == wanted && sink.bytes() == left)
}

// The case "Device table": a write that fails ends the call with exit status 5, and what was
// written before stands.
#[test]
fn a_write_that_fails_leaves_a_prefix(rt: HostRuntime) -> Result<(), Fail> {
    let alloc = rt.alloc();
    let table = TABLE.as_bytes();
    for call in 0..table.len() + 1 {
        let wanted = if call < table.len() { 5 } else { 0 };
        let cut = is_cut(alloc, &table[..call], wanted)?;
        assert!(rt; cut, "{call}");
    }
    Ok(())
}

// Whether the command, which reads nothing, leaves its source, and this text where the first write
// that is too long fails.
fn leaves_the_source(alloc: Global, word: &str, text: &str) -> Result<bool, Fail> {
    let mut source = sure(alloc, "input")?;
    let mut sink = MemorySink::new(alloc, 1_000, 1, vec![in alloc; 10]?)?;
    let got = status(alloc, &[word, "0", "1", "1"], &mut source, &mut sink)?;
    let left = read_all(alloc, &mut source, 100)?;
    Ok(got == 5 && sink.bytes() == text.as_bytes() && left.as_slice() == b"input".as_slice())
}

// Commands that read nothing leave the source, and a write that fails leaves a prefix of their
// text.
#[test]
fn words_that_read_nothing_leave_the_source(rt: HostRuntime) -> Result<(), Fail> {
    let alloc = rt.alloc();
    for (word, text) in [
        ("make", "{\"groups\":"),
        ("bulk", "groups 1\nt"),
        ("none", "usage: bwe"),
    ] {
        let left = leaves_the_source(alloc, word, text)?;
        assert!(rt; left, "{word}");
    }
    Ok(())
}
