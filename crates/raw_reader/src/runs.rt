//! Runs of consecutive stretches, of which a thread reads each over one scratch.

ghost use Rattle.std.specs.Prelude.{◌≡◌, IfSome};
ghost use Rattle.raw_reader.specs.Runs.{stretches_in, IsRunRead};

use crate::pieces::{Piece, Stretch, read_stretch};
use json::Scratch;
use std::alloc::Global;

/// Stretches that stand behind one another, and the scratch that they are read over.
#[derive(Drop)]
pub struct Run<'t, 's> {
    pub alloc: Global,
    pub stretches: Vec<Stretch<'t>>,
    pub scratch: &'s mut Scratch,
}

/// The pieces of each stretch of a run.
pub type RunPieces<'t> = Vec<Vec<Piece<'t>>>;

/// Stretches dealt to as many runs as there are scratches, each about as many.
pub fn runs_of<'t, 's>(
    alloc: Global,
    stretches: Vec<Stretch<'t>>,
    scratches: &'s mut [Scratch],
) -> Option<Vec<Run<'t, 's>>>
    ensures { IfSome result (λ runs. stretches_in runs.items ≡ stretches.entry.items) }
{
    let mut left = scratches.len();
    let mut runs = Vec::with_capacity(alloc, left).ok()?;
    let mut rest = stretches;
    for scratch in scratches.iter_mut() {
        let count = rest.len().checked_div(left)?.min(rest.len());
        let behind = rest.split_off(count).ok()?;
        runs.push(Run {
            alloc,
            stretches: rest,
            scratch,
        })
        .ok()?;
        rest = behind;
        left = left.checked_sub(1)?;
    }
    if rest.is_empty() { Some(runs) } else { None }
}

/// All pieces of the stretches of a run.
pub fn read_run<'t>(run: Run<'t, '_>) -> Option<RunPieces<'t>>
    ensures { IsRunRead run.entry result }
{
    let Run {
        alloc,
        stretches,
        scratch,
    } = run;
    let mut all = Vec::with_capacity(alloc, stretches.len()).ok()?;
    for stretch in stretches {
        all.push(read_stretch(stretch, scratch)?).ok()?;
    }
    Some(all)
}
