//! The arguments of a call: which command they are, if they are one.
//!
//! The top call asks `command_line_of_words` once, before it reads anything, and serves the command
//! that it answers, whose numbers are in their ranges. The definition Command line
//! (`specs/Lines.antt`) alone decides: `clap` splits the arguments, and each text is read here.
#![tactic(auto)]

ghost use Rattle.std.specs.Prelude.{◌≡◌, IfOk, IfSome};
ghost use Rattle.std.specs.List.{list_any};
ghost use Rattle.command_line.specs.Lines.{command_line_of, is_hyphens, texts_of};
ghost use Rattle.command_line.specs.Ranges.{IsInRange};

use bwe_specs::OutOfMemory;
use std::alloc::Global;

mod matches;
mod number;

/// A command with its numbers ("Commands", docs/FORMAT.md).
#[derive(Clone, Copy, Debug, PartialEq, Eq, Drop)]
pub enum CommandLine {
    /// Reads a document, and writes its table of limits.
    Solve,
    /// Reads a document, and writes whether its closings are right.
    Check,
    /// Reads a document and runs its scripts: from 1 to 64 readers, from 0 to 1,000 reads of each.
    Run { readers: u32, reads: u32 },
    /// Writes a made document: from 1 to 1,024 groups, and from as many to 20,000 tasks.
    Make { seed: u64, groups: u32, tasks: u32 },
    /// Writes the summary of such a document's table, in the same ranges.
    Bulk { seed: u64, groups: u32, tasks: u32 },
    /// Reads a document and the text of a run, and writes whether the text is lawful.
    Audit,
    /// Reads a document and the tier of each group, and writes the table of tiers.
    Tiers,
    /// Reads a document and events among regions, and writes what they do.
    Enforce,
    /// Reads a document and samples of demands, and writes the table after their estimates: a
    /// window of 1 to 1,000 samples, and a headroom of 100 to 1,000 hundredths.
    Estimate { window: u32, headroom: u32 },
    /// Reads a document, and writes what each group may have at a share from 0 to 1,000,000,000.
    Levels { share: u64 },
}

/// The command that the arguments are, `None` where they are none.
///
/// `words` are the arguments after the program's name. An argument counts as it stands:
/// abbreviations, blanks round an argument and an empty argument are in no command. `levels 90` is
/// the command of share 90, and `levels +90` is no command.
pub fn command_line_of_words(
    alloc: Global,
    words: &[String],
) -> Result<Option<CommandLine>, OutOfMemory>
    ensures line { IfOk result (λ line. line ≡ command_line_of (texts_of words.now)) }
    ensures range { IfOk result (λ line. IfSome line IsInRange) }
{
    if has_hyphens(words) {
        return Ok(None);
    }
    matches::line_split(alloc, words)
}

// One of the arguments is `--`.
fn has_hyphens(words: &[String]) -> bool
    ensures { result ≡ list_any is_hyphens (texts_of words.now) }
{
    words.iter().any(|word| word.as_str() == "--")
}
