//! What each command that needs no threads writes for its input.

ghost use Rattle.std.specs.Prelude.{◌≡◌, false, IfOk};
ghost use Rattle.command_line.specs.Ranges.{IsInRange};
ghost use Rattle.top_call.specs.TopCall.{needs_threads, replies};

use audit_answer::audit;
use bwe_specs::OutOfMemory;
use command_line::CommandLine;
use line_answers::{bulk, check, enforce, estimate, levels, make, solve, tiers};
use one_run::Answer;
use std::alloc::Global;

/// What a command writes for its input ("Commands", docs/FORMAT.md), for each command that needs no
/// threads, and with which exit status. It waits for nobody.
pub fn answer_in_turn(alloc: Global, line: CommandLine, input: &[u8]) -> Result<Answer, OutOfMemory>
    requires range { IsInRange line }
    requires one_thread { needs_threads line ≡ false }
    ensures { IfOk result (λ answer. replies line input.now answer) }
{
    match line {
        CommandLine::Solve => solve(alloc, input),
        CommandLine::Check => check(alloc, input),
        CommandLine::Run { .. } => unreachable!(),
        CommandLine::Make {
            seed,
            groups,
            tasks,
        } => make(alloc, seed, groups, tasks),
        CommandLine::Bulk {
            seed,
            groups,
            tasks,
        } => bulk(alloc, seed, groups, tasks),
        CommandLine::Audit => audit(alloc, input),
        CommandLine::Tiers => tiers(alloc, input),
        CommandLine::Enforce => enforce(alloc, input),
        CommandLine::Estimate { window, headroom } => estimate(alloc, window, headroom, input),
        CommandLine::Levels { share } => levels(alloc, share, input),
    }
}
