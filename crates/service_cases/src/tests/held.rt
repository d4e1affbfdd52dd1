//! The case "Three holds": a run of two reporters and two readers under a gate that holds calls up.

use crate::tests::documents::THREE_HOLDS;
use crate::tests::gate::{Shown, ThreeHolds};
use crate::tests::words_of;
use bwe_cli::bwe;
use crew_actors::Gate;
use memory_io::{SureSink, SureSource};
use std::alloc::{AllocError, Global};
use std::process::Abort;
use std::sync::Wait;
use std::test::Fail;
use std::thread::Threads;

const THREE_HOLDS_TABLE: &str =
    "table 3\nclosing l0 at 60\nlink l0 load 100\ngroup g0 share 60 amount 60\n\
    place 0 amount 60 closed by l0\ngroup g1 share 60 amount 40\nplace 0 amount 40 closed by l0\n\
    task t0 limit 60\ntask t1 limit 40\ntotal 100\n";

// What the command writes on a document, after its exit status.
fn printed<G: Gate + Sync, R: Threads + Wait + Sync>(
    rt: &R,
    alloc: Global,
    texts: &[&str],
    document: &str,
    gate: &G,
) -> Result<(u8, Vec<u8>), Fail> {
    let words = words_of(alloc, texts)?;
    let mut source = SureSource::new(Vec::from_slice(alloc, document.as_bytes())?);
    let mut sink = SureSink::new(alloc, 1_000)?;
    let status = bwe(rt, alloc, &words, &mut source, &mut sink, gate);
    Ok((status, Vec::from_slice(alloc, sink.bytes())?))
}

// The rows of a reader, from what the gate was shown. No view shows a floor: its digit is a
// question mark.
fn push_reader(text: &mut String, number: u32, shown: &Shown) -> Result<(), AllocError> {
    write!(text, "reader {number} length {}\n", shown.length.get())?;
    for (word, line) in ["read", "final"].iter().zip(&shown.lines) {
        let (prefix, total) = (line.prefix.get(), line.total.get());
        write!(text, "{word} floor ? prefix {prefix} total {total}\n")?;
    }
    Ok(())
}

// The text of the case "Three holds" by what the gate was shown, with the history of one reader's
// last view.
fn text_shown(alloc: Global, gate: &ThreeHolds, last: &Shown) -> Result<String, AllocError> {
    let mut text = format!(in alloc; "history {}\n", last.length.get())?;
    for (place, entry) in last.entries.iter().enumerate() {
        let (reporter, task, demand) = (entry.reporter.get(), entry.task.get(), entry.demand.get());
        write!(text, "report {place} r{reporter} t{task} {demand}\n")?;
    }
    text.push_str("reporter r0 sent 1\nreporter r1 sent 2\n")?;
    for (number, shown) in gate.readers.iter().enumerate() {
        push_reader(&mut text, number as u32, shown)?;
    }
    text.push_str(THREE_HOLDS_TABLE)?;
    Ok(text)
}

// Whether the bytes are those, where a question mark is any digit.
fn is_like(bytes: &[u8], wanted: &[u8]) -> bool {
    for (byte, want) in bytes.iter().zip(wanted) {
        if byte != want && (*want != b'?' || !byte.is_ascii_digit()) {
            return false;
        }
    }
    bytes.len() == wanted.len()
}

#[test]
fn a_run_with_three_holds_prints_what_the_gate_was_shown(rt: HostRuntime) -> Result<(), Fail> {
    let gate = ThreeHolds::new();
    print_what_was_shown(&rt, rt.alloc(), &gate)
}

fn print_what_was_shown<R: Threads + Wait + Abort + Sync>(
    rt: &R,
    alloc: Global,
    gate: &ThreeHolds,
) -> Result<(), Fail> {
    let words = ["run", "--readers", "2", "--reads", "1"];
    let (status, text) = printed(rt, alloc, &words, THREE_HOLDS, gate)?;
    assert_eq!(rt; (status, gate.missed.get()), (0, 0));
    for shown in &gate.readers {
        assert_eq!(rt; (shown.views.get(), shown.length.get()), (2, 3));
        let wanted = text_shown(alloc, gate, shown)?;
        assert!(rt; is_like(&text, wanted.as_bytes()), "{wanted}");
    }
    let [_, held] = &gate.readers;
    let [first, _] = &held.lines;
    assert!(rt; first.prefix.get() <= 2);
    Ok(())
}
