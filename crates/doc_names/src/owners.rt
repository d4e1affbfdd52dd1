//! Which reporter may report what ("Owner rule", docs/DEFINITIONS.md).
//!
//! `plan_doc` asks for the first entry of a script that is not by the owner, `live_lines` and
//! `sample_lines` ask of one report. Owners are lists by number: each task has a reporter, and a
//! link may have none. No call takes memory; a question costs one look into a list.

ghost use Rattle.std.specs.Prelude.{◌≡◌};
ghost use Rattle.doc_names.specs.Owners as owners;

use bwe_specs::{Report, Target};

/// The owner of a task or link; `None` where there is no such task or link, or the link has no
/// owner.
pub fn owner_of(task_owners: &[u32], link_owners: &[Option<u32>], target: Target) -> Option<u32>
    ensures { result ≡ owners.owner_of task_owners.now link_owners.now target }
{
    match target {
        Target::Task { number } => task_owners.get(number as usize).copied(),
        Target::Link { number } => link_owners.get(number as usize).copied().flatten(),
    }
}

/// Whether the owner that was found is this reporter.
pub fn is_owner(owner: Option<u32>, reporter: u32) -> bool
    ensures { result ≡ owners.is_owner owner reporter }
{
    match owner {
        Some(owner) => owner == reporter,
        None => false,
    }
}

/// The first entry of the script whose reporter does not own its task or link.
pub fn find_not_owned(
    task_owners: &[u32],
    link_owners: &[Option<u32>],
    script: &[Report],
) -> Option<u64>
    ensures { result ≡ owners.not_owned task_owners.now link_owners.now 0 script.now }
{
    for (place, report) in script.iter().enumerate() {
        let owner = owner_of(task_owners, link_owners, report.target);
        if !is_owner(owner, report.reporter) {
            return Some(place as u64);
        }
    }
    None
}
