//! Jobs beside each other.

ghost use Rattle.std.specs.Prelude.{◌≡◌, ◌+◌, ◌++◌, ◌<◌, length, IfOk, vec_len};
ghost use Rattle.std.specs.Fork.{AcceptsJobs, GivesJobs};
ghost use denote.Param.Send.{IsSend, IsSync};

use crate::pair::apart;
use std::alloc::AllocError;
use std::thread::{Threads, join, map_vec};

/// What the function answers of each job, in their order. The first ones are done each in a new
/// thread, and the last in this one. All end before it answers. Where no thread can be started, a
/// job is done after another.
pub fn map_apart<R: Threads + Sync, J: Send + Drop, X: Send + Drop, F: Fn(J) -> X + Sync>(
    rt: &R,
    jobs: Vec<J>,
    call: &F,
) -> Result<Vec<X>, AllocError>
    requires { AcceptsJobs F.Fn call.now jobs.items }
    ensures len { IfOk result (λ answers. vec_len answers ≡ vec_len jobs) }
    ensures each { IfOk result (λ answers. GivesJobs F.Fn call.now jobs.items answers.items) }
{
    let all = move || -> Result<Vec<X>, AllocError>
        requires { IsSync R.row × IsSync F.row × IsSend J.row × IsSend X.row
            × AcceptsJobs F.Fn call.now jobs.items }
        ensures { IfOk result (λ answers. (vec_len answers ≡ vec_len jobs)
            × GivesJobs F.Fn call.entry.now jobs.items answers.items) }
    { each_beside(rt, jobs, call) };
    apart(rt, all)
}

// Each job but the last in a new thread.
#[cycle(rest)]
fn each_beside<R: Threads + Sync, J: Send + Drop, X: Send + Drop, F: Fn(J) -> X + Sync>(
    rt: &R,
    jobs: Vec<J>,
    call: &F,
) -> Result<Vec<X>, AllocError>
    requires { AcceptsJobs F.Fn call.now jobs.items }
    ensures len { IfOk result (λ answers. vec_len answers ≡ vec_len jobs) }
    ensures each { IfOk result (λ answers. GivesJobs F.Fn call.now jobs.items answers.items) }
{
    if jobs.len() < 2 {
        return map_vec(rt, jobs, call);
    }
    let mut first = jobs;
    let rest = first.split_off(1)?;
    beside_rest(rt, first, rest, call)
}

// The first jobs in a new thread, beside the rest. What its closures ask for is what it is given.
#[cycle(rest)]
fn beside_rest<R: Threads + Sync, J: Send + Drop, X: Send + Drop, F: Fn(J) -> X + Sync>(
    rt: &R,
    first: Vec<J>,
    rest: Vec<J>,
    call: &F,
) -> Result<Vec<X>, AllocError>
    requires some { 0 < length first.items }
    requires first { AcceptsJobs F.Fn call.now first.items }
    requires rest { AcceptsJobs F.Fn call.now rest.items }
    ensures len { IfOk result (λ answers. vec_len answers ≡ vec_len first + vec_len rest) }
    ensures each { IfOk result (λ answers.
        GivesJobs F.Fn call.now (first.items ++ rest.items) answers.items) }
{
    let early = move || -> Result<Vec<X>, AllocError>
        requires { IsSync R.row × IsSync F.row × IsSend J.row × IsSend X.row
            × AcceptsJobs F.Fn call.now first.items }
        ensures { IfOk result (λ answers. (vec_len answers ≡ vec_len first)
            × GivesJobs F.Fn call.entry.now first.items answers.items) }
    { map_vec(rt, first, call) };
    let late = move || -> Result<Vec<X>, AllocError>
        requires { IsSync R.row × IsSync F.row × IsSend J.row × IsSend X.row
            × AcceptsJobs F.Fn call.now rest.items }
        ensures { IfOk result (λ answers. (vec_len answers ≡ vec_len rest)
            × GivesJobs F.Fn call.entry.now rest.items answers.items) }
    { each_beside(rt, rest, call) };
    let (early, late) = join(rt, early, late);
    let mut answers = early?;
    let mut others = late?;
    answers.append(&mut others)?;
    Ok(answers)
}
