//! How the readers of a run end.
ghost use Rattle.std.specs.Prelude.{◌≡◌, ◌^◌, ◌<◌, ◌≤◌, length, IfOk};
ghost use Rattle.std.specs.List.{All};
ghost use Rattle.board_core.specs.Core.{IsAllowed};
ghost use Rattle.bwe_specs.specs.Fit.{IsFit};
ghost use Rattle.crew_log.specs.LegalCrewLog.{IsReaderOf};
ghost use Rattle.crew_readers.specs.Gates.{EndsAreShown};
ghost use Rattle.crew_readers.specs.Readers.{HaveLines, HaveEnded};

use crate::actor::Gate;
use crate::reading::read_to_the_end;
use board_log::Bases;
use board_pair::{FinalAck, Profile, ReaderPass};
use bwe_specs::{MAX_READS, OutOfMemory};
use crew_log::{ReadLine, ReaderLog};
use demand_book::Posted;
use std::alloc::Global;
use std::mem;

/// Each reader learns the acknowledgement of the end and reads once more. A reader's log is made of
/// that and of its lines before.
pub fn end_all<T: Posted, N: Profile<T>, B: Bases, G: Gate>(
    alloc: Global,
    gate: &G,
    end: &FinalAck<B>,
    reads: u64,
    lines: Vec<Result<Vec<ReadLine>, OutOfMemory>>,
    passes: &mut [ReaderPass<T, N, B>],
) -> Result<Vec<ReaderLog>, OutOfMemory>
    requires numbers { length passes.old < 2 ^ 32 }
    requires few_reads { reads ≤ MAX_READS }
    requires lines { HaveLines T.covers N.belongs T.total_of reads lines.items passes.old }
    ensures readers { IfOk result (λ readers. All
        (IsReaderOf N.belongs T.total_of (IsAllowed N.reporters (IsFit N.tasks N.links)) reads
        end.now) readers.items) }
    ensures closed { IfOk result (λ readers. All (λ reader. reader.length ≡ length end.now)
        readers.items) }
    ensures passes { IfOk result (λ readers. HaveEnded T.covers reads end.now readers.items
        passes.new) }
    // Each log has the lines of its reader, and the gate was shown its last line as its last read.
    ensures shown { IfOk result (λ readers. EndsAreShown G.begins G.shows reads lines.items
        readers.items) }
    ensures count { length passes.new ≡ length passes.old }
{
    let mut lines = lines;
    let mut readers = Vec::new(alloc);
    for number in 0..passes.len() {
        let read = mem::replace(&mut lines[number], Err(OutOfMemory))?;
        let reader = read_to_the_end(alloc, gate, number as u32, end, read, &mut passes[number])?;
        readers.push(reader)?;
    }
    Ok(readers)
}
