//! Whether a cluster, a user or a job of a document has no child.

ghost use Rattle.std.specs.Prelude.{◌≡◌, map};
ghost use Rattle.std.specs.List.{list_any};
ghost use Rattle.raw_document.specs.Raw.{job_view, user_view, group_view};
ghost use Rattle.cluster_parts.specs.Childless.{job_is_childless, user_has_childless, group_has_childless, has_childless};

use raw_document::{RawGroup, RawJob, RawUser};

fn jobs_have_childless(jobs: &[RawJob]) -> bool
    ensures { result ≡ list_any job_is_childless (map job_view jobs.now) }
{
    for job in jobs {
        if job.tasks.is_empty() {
            return true;
        }
    }
    false
}

fn user_has_childless(user: &RawUser) -> bool
    ensures { result ≡ user_has_childless (user_view user.now) }
{
    if user.jobs.is_empty() {
        return true;
    }
    jobs_have_childless(&user.jobs)
}

fn users_have_childless(users: &[RawUser]) -> bool
    ensures { result ≡ list_any user_has_childless (map user_view users.now) }
{
    for user in users {
        if user_has_childless(user) {
            return true;
        }
    }
    false
}

fn group_has_childless(group: &RawGroup) -> bool
    ensures { result ≡ group_has_childless (group_view group.now) }
{
    if group.users.is_empty() {
        return true;
    }
    users_have_childless(&group.users)
}

/// Whether a cluster, a user or a job has no child.
pub fn has_childless(groups: &[RawGroup]) -> bool
    ensures { result ≡ has_childless (map group_view groups.now) }
{
    for group in groups {
        if group_has_childless(group) {
            return true;
        }
    }
    false
}
