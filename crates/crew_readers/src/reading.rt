//! What a reader does.
ghost use Rattle.std.specs.Prelude.{◌≡◌, ◌+◌, ◌-◌, ◌^◌, ◌<◌, ◌≤◌, ◌++◌, [], length, drop, min, IfOk, OnOk};
ghost use Rattle.std.specs.List.{All};
ghost use mathlib.Core.List.{IsPrefix};
ghost use Rattle.board_core.specs.Core.{IsAllowed};
ghost use Rattle.bwe_specs.specs.Fit.{IsFit};
ghost use Rattle.crew_log.specs.Lines.{IsLineOf, NeverGoBack};
ghost use Rattle.crew_readers.specs.Gates.{IsShown, AreShown};
ghost use Rattle.crew_readers.specs.Reads.{HasRead};
ghost use Rattle.crew_log.specs.LegalCrewLog.{IsReaderOf};

use crate::actor::{Actor, Gate};
use board_log::Bases;
use board_pair::{FinalAck, NewestAck, Profile, ReaderPass, View};
use bwe_specs::{OutOfMemory, Report};
use crew_log::{ReadLine, ReaderLog};
use demand_book::Posted;
use std::alloc::Global;
use std::sync::Wait;

// One read, and its line.
fn read_line<T: Posted, N: Profile<T>, B: Bases, G: Gate>(
    alloc: Global,
    gate: &G,
    reader: u32,
    call: u64,
    pass: &mut ReaderPass<T, N, B>,
) -> ReadLine
    ensures floor { result.floor ≡ T.covers pass.old.table }
    ensures prefix { result.prefix ≡ T.covers pass.new.table }
    ensures never_back { result.floor ≤ result.prefix }
    ensures line { IsLineOf N.belongs T.total_of pass.new.log result }
    ensures log { IsPrefix pass.old.log pass.new.log }
    ensures reads { pass.new.reads ≡ min (pass.old.reads + 1) (2 ^ 64 - 1) }
    ensures told { pass.new.learnt ≡ pass.old.learnt }
    ensures shown { IsShown G.begins G.shows reader call result }
{
    let floor = pass.floor();
    gate.before(Actor::Reader { number: reader }, call);
    let view = pass.read(alloc);
    gate.shown(reader, call, &view);
    ReadLine {
        floor,
        prefix: view.prefix(),
        total: view.total(),
    }
}

// A read of the whole log, with what that has from a place on.
#[derive(Drop)]
struct LastRead {
    pub line: ReadLine,
    pub length: u64,
    pub beyond: Vec<Report>,
}

// One read of a log that has ended, its line, and what the log has from a place on.
fn read_last<T: Posted, N: Profile<T>, B: Bases, G: Gate>(
    alloc: Global,
    gate: &G,
    reader: u32,
    call: u64,
    end: &FinalAck<B>,
    pass: &mut ReaderPass<T, N, B>,
) -> Result<LastRead, OutOfMemory>
    requires from { length end.now ≤ length pass.old.log }
    ensures floor { IfOk result (λ last. last.line.floor ≡ T.covers pass.old.table) }
    ensures prefix { IfOk result (λ last. last.line.prefix ≡ T.covers pass.new.table) }
    ensures never_back { IfOk result (λ last. last.line.floor ≤ last.line.prefix) }
    ensures line { IfOk result (λ last. IsLineOf N.belongs T.total_of pass.new.log last.line) }
    ensures length { IfOk result (λ last. last.length ≡ length pass.new.log) }
    ensures beyond { IfOk result (λ last. last.beyond.items ≡ drop (length end.now) pass.new.log) }
    ensures within { IsPrefix pass.new.log end.now }
    ensures allowed { OnOk result (All (IsAllowed N.reporters (IsFit N.tasks N.links))
        pass.new.log) }
    ensures log { IsPrefix pass.old.log pass.new.log }
    ensures reads { pass.new.reads ≡ min (pass.old.reads + 1) (2 ^ 64 - 1) }
    ensures shown { IfOk result (λ last. IsShown G.begins G.shows reader call last.line) }
{
    let floor = pass.floor();
    gate.before(Actor::Reader { number: reader }, call);
    let view = pass.read(alloc);
    gate.shown(reader, call, &view);
    let line = ReadLine {
        floor,
        prefix: view.prefix(),
        total: view.total(),
    };
    view.is_within(end);
    let length = view.log_length();
    let beyond = entries_from(alloc, end.prefix(), length, &view)?;
    Ok(LastRead {
        line,
        length,
        beyond,
    })
}

// The reports that a view shows from a place on.
fn entries_from<T: Posted, N: Profile<T>, B: Bases>(
    alloc: Global,
    from: u64,
    end: u64,
    view: &View<'_, T, N, B>,
) -> Result<Vec<Report>, OutOfMemory>
    requires end { end ≡ length view.now.copy.now.log }
    requires from { from ≤ end }
    ensures { IfOk result (λ entries. entries.items ≡ drop from view.now.copy.now.log) }
{
    let mut entries = Vec::new(alloc);
    for place in from..end {
        let Some(report) = view.entry(place) else {
            unreachable!()
        };
        entries.push(report)?;
    }
    Ok(entries)
}

// Learns the newest acknowledgement.
fn learn_newest<T: Posted, N: Profile<T>, B: Bases, R: Wait>(
    rt: &R,
    alloc: Global,
    newest: &NewestAck<B>,
    pass: &mut ReaderPass<T, N, B>,
) -> Result<(), OutOfMemory>
    ensures told { OnOk result (pass.new.learnt ≡ min (pass.old.learnt + 1) (2 ^ 64 - 1)) }
    ensures log { IsPrefix pass.old.log pass.new.log }
    ensures floor { T.covers pass.old.table ≤ T.covers pass.new.table }
    ensures reads { pass.new.reads ≡ pass.old.reads }
{
    let left = newest.lock(rt);
    pass.learn(alloc, left.ack())
}

/// Reads so often, and learns the newest acknowledgement before each read. It waits for the place
/// where that is left.
pub fn read_lines<T: Posted, N: Profile<T>, B: Bases, G: Gate, R: Wait>(
    rt: &R,
    alloc: Global,
    newest: &NewestAck<B>,
    gate: &G,
    reader: u32,
    reads: u64,
    pass: &mut ReaderPass<T, N, B>,
) -> Result<Vec<ReadLine>, OutOfMemory>
    requires reads { pass.old.reads + reads < 2 ^ 64 }
    ensures read { IfOk result (λ lines.
        HasRead T.covers N.belongs T.total_of reads pass.old lines.items pass.new) }
    // It was told of an acknowledgement for each read, and the gate was shown each line.
    ensures told { OnOk result (pass.new.learnt ≡ min (pass.old.learnt + reads) (2 ^ 64 - 1)) }
    ensures shown { IfOk result (λ lines. AreShown G.begins G.shows reader lines.items) }
{
    // 64 bits count what the pass was told.
    let _ = pass.learnt();
    let mut lines = Vec::with_capacity(alloc, reads as usize)?;
    for call in 0..reads {
        learn_newest(rt, alloc, newest, pass)?;
        lines.push(read_line(alloc, gate, reader, call, pass))?;
    }
    Ok(lines)
}

/// Learns the acknowledgement of the end, reads once more, and makes the reader's log of this read
/// and of the lines before.
///
/// The log that it has then seen is the one that has ended, and no longer one.
pub fn read_to_the_end<T: Posted, N: Profile<T>, B: Bases, G: Gate>(
    alloc: Global,
    gate: &G,
    reader: u32,
    end: &FinalAck<B>,
    reads: Vec<ReadLine>,
    pass: &mut ReaderPass<T, N, B>,
) -> Result<ReaderLog, OutOfMemory>
    requires lines { All (IsLineOf N.belongs T.total_of pass.old.log) reads.items }
    requires never_back { NeverGoBack 0 reads.items (T.covers pass.old.table) }
    ensures reader { IfOk result (IsReaderOf
        N.belongs T.total_of (IsAllowed N.reporters (IsFit N.tasks N.links)) (length reads.items)
        end.now) }
    ensures log { IfOk result (λ reader. pass.new.log ≡ end.now ++ reader.beyond.items) }
    ensures closed { IfOk result (λ reader. reader.length ≡ length end.now) }
    ensures floor { IfOk result (λ reader. T.covers pass.new.table ≡ reader.last.prefix) }
    ensures reads { OnOk result (pass.new.reads ≡ min (pass.old.reads + 1) (2 ^ 64 - 1)) }
    ensures kept { IfOk result (λ reader. reader.reads ≡ reads) }
    ensures shown { IfOk result (λ ended. IsShown G.begins G.shows reader (length reads.items)
        ended.last) }
{
    pass.learn(alloc, end.ack())?;
    let call = reads.len() as u64;
    let read = read_last(alloc, gate, reader, call, end, pass)?;
    Ok(ReaderLog {
        reads,
        last: read.line,
        length: read.length,
        beyond: read.beyond,
    })
}
