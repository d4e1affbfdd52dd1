//! What each command but `run` writes for its input.

ghost use Rattle.std.specs.Prelude.{◌≡◌, false, IfOk};
ghost use Rattle.command_line.specs.Ranges.{IsInRange};
ghost use Rattle.top_call.specs.TopCall.{needs_threads, replies};

use bwe_specs::OutOfMemory;
use command_line::CommandLine;
use line_answers::{bulk_on_threads, check_on_threads, levels_on_threads, tiers_on_threads};
use one_run::Answer;
use std::alloc::Global;
use std::thread::Threads;
use top_call::answer_in_turn;

/// What a command but `run` writes for its input, on threads where that pays. It waits for nobody
/// but them.
pub(crate) fn answer_in_time<R: Threads + Sync>(
    rt: &R,
    alloc: Global,
    line: CommandLine,
    input: &[u8],
) -> Result<Answer, OutOfMemory>
    requires range { IsInRange line }
    requires waits_for_nobody { needs_threads line ≡ false }
    ensures { IfOk result (λ answer. replies line input.now answer) }
{
    match line {
        CommandLine::Check => check_on_threads(rt, alloc, input),
        CommandLine::Bulk {
            seed,
            groups,
            tasks,
        } => bulk_on_threads(rt, alloc, seed, groups, tasks),
        CommandLine::Tiers => tiers_on_threads(rt, alloc, input),
        CommandLine::Levels { share } => levels_on_threads(rt, alloc, share, input),
        _ => answer_in_turn(alloc, line, input),
    }
}
