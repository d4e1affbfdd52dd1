//! How many clusters, users and jobs a document has.

ghost use Rattle.std.specs.Prelude.{◌≡◌, ◌+◌, ◌<◌, ◌^◌, map, IfSome, IsTrue};
ghost use Rattle.raw_document.specs.Raw.{user_view, group_view};
ghost use Rattle.doc_passes.specs.Limits.{sum_of};
ghost use Rattle.doc_passes.specs.Counts.{user_nodes, group_nodes};

use raw_document::{RawGroup, RawUser};

/// The nodes so far, and those of users. No memory holds so many that the sum wraps.
fn add_user_nodes(before: u64, users: &[RawUser]) -> Option<u64>
    ensures { IfSome result
        (λ total. total ≡ before + sum_of user_nodes (map user_view users.now)) }
{
    let mut total = before;
    for user in users {
        total = total.checked_add(1)?.checked_add(user.jobs.len() as u64)?;
    }
    Some(total)
}

fn count_nodes(groups: &[RawGroup]) -> Option<u64>
    ensures { IfSome result (λ total. total ≡ sum_of group_nodes (map group_view groups.now)) }
{
    let mut total = 0u64;
    for group in groups {
        total = add_user_nodes(total.checked_add(1)?, &group.users)?;
    }
    Some(total)
}

/// Whether the nodes have numbers of 32 bits, as those of every input of at most 1 GiB have.
pub fn has_node_numbers(groups: &[RawGroup]) -> bool
    ensures { IsTrue result → sum_of group_nodes (map group_view groups.now) < 2 ^ 32 }
{
    match count_nodes(groups) {
        Some(total) => total < 4_294_967_296,
        None => false,
    }
}
