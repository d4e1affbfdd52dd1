//! The command `run`: reporters, the allocator and readers on threads, over a board.

ghost use Rattle.std.specs.Prelude.{◌≡◌, ◌≤◌, IfOk, Some};
ghost use Rattle.plan_doc.specs.Conditions.{IsUsable, reporter_count};
ghost use Rattle.doc_parts.specs.Document.{document as document_of};
ghost use Rattle.plan_doc.specs.Plans.{plan_in};
ghost use Rattle.crew_log.specs.LegalCrewLog.{IsClosed};
ghost use Rattle.command_line.specs.declared.CommandLine.TheVariants.{Run};
ghost use Rattle.top_call.specs.RunLine.{IsRunReply};
ghost use Rattle.top_call.specs.Runs.{IsRunOf};
ghost use Rattle.top_call.specs.TopCall.{IsServed};

use bwe_io::{Sink, Source};
use bwe_specs::{MAX_READERS, MAX_READS, OutOfMemory};
use command_line::CommandLine;
use crew::run_crew;
use crew_actors::Gate;
use crew_log::CrewLog;
use document_reader::read_document;
use document_scripts::scripts_of_document;
use limit_table::LimitTable;
use one_run::{Answer, finish, refuse_input};
use opened_document::{OpenedDocument, open};
use plan_doc::{Document, Names};
use run_text::run_text;
use solve_reply::refused;
use std::alloc::Global;
use std::sync::Wait;
use std::thread::Threads;
use top_call::read_input_of;

/// Serves `run`, and answers the exit status. It alone of all commands may wait.
pub(crate) fn serve_run<S: Source, K: Sink, G: Gate + Sync, R: Threads + Wait + Sync>(
    rt: &R,
    alloc: Global,
    readers: u32,
    reads: u32,
    source: &mut S,
    sink: &mut K,
    gate: &G,
) -> u8
    requires some_readers { 1 ≤ readers }
    requires few_readers { readers ≤ MAX_READERS }
    requires few_reads { reads ≤ MAX_READS }
    ensures { IsServed (Some (Run readers reads)) (record {
      source = source.old;
      source_after = source.new;
      left = S.left;
      read_faults = S.faults;
      sink = sink.old;
      sink_after = sink.new;
      written = K.written;
      write_faults = K.faults;
    }) result }
{
    match read_input_of(alloc, CommandLine::Run { readers, reads }, source) {
        Ok(input) => finish(sink, run(rt, alloc, input, readers, reads, gate)),
        Err(error) => refuse_input(sink, error),
    }
}

// The text of a run of the document's script, or the row of its refusal. The input is let go before
// the run.
fn run<G: Gate + Sync, R: Threads + Wait + Sync>(
    rt: &R,
    alloc: Global,
    input: Vec<u8>,
    readers: u32,
    reads: u32,
    gate: &G,
) -> Result<Answer, OutOfMemory>
    requires some_readers { 1 ≤ readers }
    requires few_readers { readers ≤ MAX_READERS }
    requires few_reads { reads ≤ MAX_READS }
    ensures { IfOk result (λ answer. IsRunReply readers reads (document_of input.items) answer) }
{
    let document = match read_document(alloc, &input) {
        Ok(document) => document,
        Err(error) => return refused(alloc, &error),
    };
    drop(input);
    let (log, names) = run_document(rt, alloc, document, readers, u64::from(reads), gate)?;
    Ok(Answer {
        status: 0,
        text: run_text(alloc, &log, &names)?,
    })
}

// Runs the document's script: a reporter for each of its reporters, the allocator, and so many
// readers, each of which makes `reads` reads and one more at the end. The table of the log is the
// one that the script has, whatever the order in which the reporters' reports came: by the
// Interleaving law, since each task and link has one owner. The document's names are given back.
fn run_document<G: Gate + Sync, R: Threads + Wait + Sync>(
    rt: &R,
    alloc: Global,
    document: Document,
    readers: u32,
    reads: u64,
    gate: &G,
) -> Result<(CrewLog<LimitTable>, Names), OutOfMemory>
    requires usable { IsUsable document }
    requires some_readers { 1 ≤ readers }
    requires few_readers { readers ≤ MAX_READERS }
    requires few_reads { reads ≤ MAX_READS }
    ensures log { IfOk result (λ made. IsRunOf (plan_in document) document.script.items
        (reporter_count document) readers reads made.0) }
    ensures closed { IfOk result (λ made. IsClosed made.0) }
    ensures names { IfOk result (λ made. made.1 ≡ document.names) }
{
    let scripts = scripts_of_document(alloc, &document)?;
    let OpenedDocument {
        allocator,
        names,
        ..
    } = open(document);
    let log = run_crew(rt, alloc, allocator, &scripts, readers, reads, gate)?;
    Ok((log, names))
}
