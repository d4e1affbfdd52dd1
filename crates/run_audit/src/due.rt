//! Which line is due behind the history, and where a line leads that is not of the table.
ghost use Rattle.std.specs.Prelude.{◌≡◌, ℕ, ◌<◌, ◌≤◌, length, map, string_bytes, IfOk, IsNone, IfSome};
ghost use Rattle.doc_names.specs.NameTexts.{texts_of};
ghost use Rattle.bwe_specs.specs.Lists.{lists_of};
ghost use Rattle.run_audit.specs.History.{total_of};
ghost use Rattle.run_audit.specs.Walk as walk;

use crate::forms::{Shown, reader_of, sent_of, shown_of};
use crate::verdict::AuditCause;
use crate::words::{LineWords, name_of};
use bwe_specs::{MAX_READERS, MAX_READS, Report};
use doc_names::Names;

/// A reader's block so far.
#[derive(Clone, Copy, Drop)]
pub struct Block {
    pub number: u64,
    /// How many reads reader 0 made; none in its own block.
    pub wanted: Option<u64>,
    pub reads: u64,
    /// The prefix of the line before, 0 at first.
    pub prefix: u64,
}

/// What is due.
#[derive(Clone, Copy, Drop)]
pub enum Due {
    /// The line of a reporter.
    Reporter { next: u64 },
    /// The first line of reader 0.
    Reader,
    /// A read or the final line of a block.
    Line { block: Block },
    /// After so many readers, each with so many reads: a further reader, or the table.
    Next { readers: u64, reads: u64 },
    /// A further line of the table, if one is left.
    Table,
}

/// Where a line leads, and what it shows.
#[derive(Clone, Copy, Drop)]
pub struct Step {
    pub due: Due,
    pub shown: Option<Shown>,
}

// A line after which this is due, and which shows no total.
fn leads_to(due: Due) -> Result<Step, AuditCause>
    ensures { result ≡ walk.leads_to due }
{
    Ok(Step { due, shown: None })
}

/// The line of the next reporter, or behind the last one a reader's.
pub(crate) fn due_from(scripts: &[Vec<Report>], next: u64) -> Due
    ensures step { result ≡ walk.due_from (lists_of scripts.now) next }
    ensures due { walk.IsDue (length scripts.now) result }
{
    if next < scripts.len() as u64 {
        return Due::Reporter { next };
    }
    Due::Reader
}

#[tactic(auto, unfolding(crate::specs::Walk::after_reporter))]
fn after_reporter(
    names: &Names,
    scripts: &[Vec<Report>],
    next: u64,
    line: &LineWords<'_>,
) -> Result<Step, AuditCause>
    requires next { next < length scripts.now }
    ensures step { result
        ≡ walk.after_reporter (texts_of names.now) (lists_of scripts.now) next line.now }
    ensures due { IfOk result (λ step. walk.IsDue (length scripts.now) step.due) }
    ensures shown { IfOk result (λ step. IsNone step.shown) }
{
    let Some(sent) = sent_of(names, line) else {
        return Err(AuditCause::Form);
    };
    let script = scripts[next as usize].len() as u64;
    if line.word(1) == name_of(&names.reporters, next as usize) && sent == script {
        return leads_to(due_from(scripts, next + 1));
    }
    Err(AuditCause::Sent)
}

#[tactic(auto, unfolding(crate::specs::Walk::after_reader))]
fn after_reader(
    total: u64,
    number: u64,
    wanted: Option<u64>,
    line: &LineWords<'_>,
) -> Result<Step, AuditCause>
    ensures step { result ≡ walk.after_reader total number wanted line.now }
    ensures due { IfOk result (walk.IsStep total) }
{
    let Some(reader) = reader_of(line) else {
        return Err(AuditCause::Form);
    };
    if reader.number != number || reader.number >= u64::from(MAX_READERS) {
        return Err(AuditCause::Reader);
    }
    if reader.length != total {
        return Err(AuditCause::Length);
    }
    leads_to(Due::Line {
        block: Block {
            number,
            wanted,
            reads: 0,
            prefix: 0,
        },
    })
}

// Whether no floor and no prefix falls, and the prefix is not above the history's length.
fn goes_on(total: u64, block: Block, shown: Shown) -> bool
    ensures { result ≡ walk.goes_on total block shown }
{
    block.prefix <= shown.floor && shown.floor <= shown.prefix && shown.prefix <= total
}

#[tactic(auto, unfolding(crate::specs::Walk::after_read))]
fn after_read(total: u64, block: Block, shown: Shown) -> Result<Step, AuditCause>
    requires number { block.number < MAX_READERS }
    ensures step { result ≡ walk.after_read total block shown }
    ensures due { IfOk result (walk.IsStep total) }
{
    if block.reads >= u64::from(MAX_READS) {
        return Err(AuditCause::Reader);
    }
    if !goes_on(total, block, shown) {
        return Err(AuditCause::Prefix);
    }
    Ok(Step {
        due: Due::Line {
            block: Block {
                number: block.number,
                wanted: block.wanted,
                reads: block.reads + 1,
                prefix: shown.prefix,
            },
        },
        shown: Some(shown),
    })
}

// Whether a reader may make so many reads.
fn is_wanted(wanted: Option<u64>, reads: u64) -> bool
    ensures { result ≡ walk.is_wanted wanted reads }
{
    match wanted {
        None => true,
        Some(wanted) => reads == wanted,
    }
}

#[tactic(auto, unfolding(crate::specs::Walk::after_final))]
fn after_final(total: u64, block: Block, shown: Shown) -> Result<Step, AuditCause>
    requires number { block.number < MAX_READERS }
    ensures step { result ≡ walk.after_final total block shown }
    ensures due { IfOk result (walk.IsStep total) }
{
    if !is_wanted(block.wanted, block.reads) {
        return Err(AuditCause::Reader);
    }
    if !goes_on(total, block, shown) || shown.prefix < total {
        return Err(AuditCause::Prefix);
    }
    Ok(Step {
        due: Due::Next {
            readers: block.number + 1,
            reads: block.reads,
        },
        shown: Some(shown),
    })
}

#[tactic(auto, unfolding(crate::specs::Walk::after_shown))]
fn after_shown(total: u64, block: Block, line: &LineWords<'_>) -> Result<Step, AuditCause>
    requires number { block.number < MAX_READERS }
    ensures step { result ≡ walk.after_shown total block line.now }
    ensures due { IfOk result (walk.IsStep total) }
{
    if let Some(shown) = shown_of(b"read", line) {
        return after_read(total, block, shown);
    }
    match shown_of(b"final", line) {
        Some(shown) => after_final(total, block, shown),
        None => Err(AuditCause::Form),
    }
}

/// Where a line leads that is not of the table.
#[tactic(auto, unfolding(crate::specs::Walk::step_from), using(crate::proofs::Dues::shown_here, crate::proofs::Dues::none_shown))]
pub(crate) fn step_from(
    names: &Names,
    scripts: &[Vec<Report>],
    total: u64,
    due: Due,
    line: &LineWords<'_>,
) -> Result<Step, AuditCause>
    requires total { total ≡ total_of (lists_of scripts.now) }
    requires due { walk.IsDue (length scripts.now) due }
    ensures step { result
        ≡ walk.step_from (texts_of names.now) (lists_of scripts.now) due line.now }
    ensures due { IfOk result (λ step. walk.IsDue (length scripts.now) step.due) }
    ensures shown { IfOk result (λ step. IfSome step.shown (λ shown. shown.prefix ≤ total)) }
{
    match due {
        Due::Reporter { next } => after_reporter(names, scripts, next, line),
        Due::Reader => after_reader(total, 0, None, line),
        Due::Line { block } => after_shown(total, block, line),
        Due::Next { readers, reads } => after_reader(total, readers, Some(reads), line),
        Due::Table => Err(AuditCause::Table),
    }
}
