//! Calls with each item of a slice, each in a thread of its own.
//!
//! `crew` runs its actors by `all_at_once`. Its contract says for each item that a call was made
//! with it and its number, what that answered and how it left the item, whatever the calls are and
//! in whatever order they were made. No call can be refused a thread: where none can be made, a
//! call is made after another. Nothing is promised of waiting, or that any two calls ran at once.
#![tactic(auto)]

ghost use Rattle.std.specs.Prelude.{◌≡◌, ◌+◌, ◌^◌, ◌<◌, ◌≤◌, length, Ok, IfOk, ◌++◌};
ghost use denote.Param.Send.{IsSend, IsSync};
ghost use denote.Ref.{MutBor};
ghost use Rattle.at_once.specs.Calls.{AcceptsEach, Calls, CallsEach};

use bwe_specs::OutOfMemory;
use std::alloc::{AllocError, Global};
use std::thread::{Threads, join_mut};

/// The calls with the items of two slices and one call more, all beside each other. All end before
/// it answers. What the one call left is known where it was not refused.
pub fn all_at_once<
    R: Threads + Sync,
    X: Send,
    A: Send + Drop,
    F: Fn(usize, &mut X) -> A + Sync,
    Y: Send,
    C: Send + Drop,
    G: Fn(usize, &mut Y) -> C + Sync,
    Z: Send,
    D: Send + Drop,
    H: Fn(usize, &mut Z) -> Result<D, OutOfMemory> + Sync,
>(
    rt: &R,
    alloc: Global,
    first: &F,
    items: &mut [X],
    second: &G,
    others: &mut [Y],
    third: &H,
    last: &mut Z,
) -> (
    Result<Vec<A>, AllocError>,
    (Result<Vec<C>, AllocError>, Result<D, OutOfMemory>),
)
    requires few { (length items.old < 2 ^ 64) × (length others.old < 2 ^ 64) }
    requires first { AcceptsEach F.Fn first.now 0 items.old }
    requires second { AcceptsEach G.Fn second.now 0 others.old }
    requires third { (argument : MutBor Z) → argument.now ≡ last.old → H.pre third.now 0 argument }
    ensures first { IfOk result.0 (λ answers. CallsEach F.Fn first.now 0 items.old answers.items
        items.new) }
    ensures second { IfOk result.1.0 (λ answers. CallsEach G.Fn second.now 0 others.old
        answers.items others.new) }
    ensures third { IfOk result.1.1 (λ made. Calls H.Fn third.now 0 last.old (Ok made) last.new) }
{
    let theirs = alloc;
    let mut early = || -> Result<Vec<A>, AllocError>
        requires { IsSync R.row × IsSync F.row × IsSend X.row × IsSend A.row
            × (length items.now < 2 ^ 64) × AcceptsEach F.Fn first.now 0 items.now }
        ensures { IfOk result (λ answers. CallsEach F.Fn first.entry.now 0 items.entry.now
            answers.items items.exit.now) }
    { map_each_mut(rt, alloc, first, 0, items) };
    let mut late = || -> (Result<Vec<C>, AllocError>, Result<D, OutOfMemory>)
        requires { IsSync R.row × IsSync G.row × IsSync H.row × IsSend Y.row × IsSend C.row × IsSend
            Z.row × IsSend D.row × (length others.now < 2 ^ 64) × AcceptsEach G.Fn second.now 0
            others.now × ((argument : MutBor Z) → argument.now ≡ last.now → H.pre third.now 0
            argument) }
        ensures { IfOk result.0 (λ answers. CallsEach G.Fn second.entry.now 0 others.entry.now
            answers.items others.exit.now)
            × IfOk result.1 (λ made. Calls H.Fn third.entry.now 0 last.entry.now (Ok made)
            last.exit.now) }
    { beside(rt, theirs, second, third, last, others) };
    join_mut(rt, &mut early, &mut late)
}

// Calls the function with each item and its number, counted from `first`, each in a thread of its
// own. The answers come in the order of the items.
#[cycle(halves)]
fn map_each_mut<R: Threads + Sync, X: Send, A: Send + Drop, F: Fn(usize, &mut X) -> A + Sync>(
    rt: &R,
    alloc: Global,
    call: &F,
    first: usize,
    items: &mut [X],
) -> Result<Vec<A>, AllocError>
    requires room { first + length items.old < 2 ^ 64 }
    requires accepts { AcceptsEach F.Fn call.now first items.old }
    ensures calls { IfOk result (λ answers. CallsEach F.Fn call.now first items.old answers.items
        items.new) }
{
    if items.len() < 2 {
        return map_one(alloc, call, first, items);
    }
    let half = items.len() / 2;
    let (front, back) = items.split_at_mut(half);
    map_halves(rt, alloc, call, first, front, first + half, back)
}

// At most one call, in this thread.
fn map_one<X, A: Drop, F: Fn(usize, &mut X) -> A>(
    alloc: Global,
    call: &F,
    first: usize,
    items: &mut [X],
) -> Result<Vec<A>, AllocError>
    requires few { length items.old < 2 }
    requires accepts { AcceptsEach F.Fn call.now first items.old }
    ensures calls { IfOk result (λ answers. CallsEach F.Fn call.now first items.old answers.items
        items.new) }
{
    if items.is_empty() {
        return Ok(Vec::new(alloc));
    }
    let answer = call_with(call, first, &mut items[0]);
    let mut answers = Vec::new(alloc);
    answers.push(answer)?;
    Ok(answers)
}

// One call.
fn call_with<X, A, F: Fn(usize, &mut X) -> A>(call: &F, number: usize, item: &mut X) -> A
    requires accepts { (argument : MutBor X) → argument.now ≡ item.old → F.pre call.now number
        argument }
    ensures calls { Calls F.Fn call.now number item.old result item.new }
{
    call(number, item)
}

// The two halves beside each other. What its closures ask for is what it is given.
#[cycle(halves)]
fn map_halves<R: Threads + Sync, X: Send, A: Send + Drop, F: Fn(usize, &mut X) -> A + Sync>(
    rt: &R,
    alloc: Global,
    call: &F,
    first: usize,
    front: &mut [X],
    next: usize,
    back: &mut [X],
) -> Result<Vec<A>, AllocError>
    requires next { next ≡ first + length front.old }
    requires some { (0 < length front.old) × (0 < length back.old) }
    requires room { next + length back.old < 2 ^ 64 }
    requires front { AcceptsEach F.Fn call.now first front.old }
    requires back { AcceptsEach F.Fn call.now next back.old }
    ensures calls { IfOk result (λ answers. CallsEach F.Fn call.now first (front.old ++ back.old)
        answers.items (front.new ++ back.new)) }
{
    // a copy for each closure
    let theirs = alloc;
    let mut early = || -> Result<Vec<A>, AllocError>
        requires { IsSync R.row × IsSync F.row × IsSend X.row × IsSend A.row
            × (first + length front.now < 2 ^ 64) × AcceptsEach F.Fn call.now first front.now }
        ensures { IfOk result (λ answers. CallsEach F.Fn call.entry.now first front.entry.now
            answers.items front.exit.now) }
    { map_each_mut(rt, alloc, call, first, front) };
    let mut late = || -> Result<Vec<A>, AllocError>
        requires { IsSync R.row × IsSync F.row × IsSend X.row × IsSend A.row
            × (next + length back.now < 2 ^ 64) × AcceptsEach F.Fn call.now next back.now }
        ensures { IfOk result (λ answers. CallsEach F.Fn call.entry.now next back.entry.now
            answers.items back.exit.now) }
    { map_each_mut(rt, theirs, call, next, back) };
    let (ours, others) = join_mut(rt, &mut early, &mut late);
    let mut answers = ours?;
    let mut others = others?;
    answers.append(&mut others)?;
    Ok(answers)
}

// The calls with the items of a slice beside one call more.
fn beside<
    R: Threads + Sync,
    Y: Send,
    C: Send + Drop,
    G: Fn(usize, &mut Y) -> C + Sync,
    Z: Send,
    D: Send + Drop,
    H: Fn(usize, &mut Z) -> Result<D, OutOfMemory> + Sync,
>(
    rt: &R,
    alloc: Global,
    each: &G,
    once: &H,
    last: &mut Z,
    items: &mut [Y],
) -> (Result<Vec<C>, AllocError>, Result<D, OutOfMemory>)
    requires few { length items.old < 2 ^ 64 }
    requires each { AcceptsEach G.Fn each.now 0 items.old }
    requires once { (argument : MutBor Z) → argument.now ≡ last.old → H.pre once.now 0 argument }
    ensures each { IfOk result.0 (λ answers. CallsEach G.Fn each.now 0 items.old answers.items
        items.new) }
    ensures once { IfOk result.1 (λ made. Calls H.Fn once.now 0 last.old (Ok made) last.new) }
{
    let mut many = || -> Result<Vec<C>, AllocError>
        requires { IsSync R.row × IsSync G.row × IsSend Y.row × IsSend C.row
            × (length items.now < 2 ^ 64) × AcceptsEach G.Fn each.now 0 items.now }
        ensures { IfOk result (λ answers. CallsEach G.Fn each.entry.now 0 items.entry.now
            answers.items items.exit.now) }
    { map_each_mut(rt, alloc, each, 0, items) };
    let mut one = || -> Result<D, OutOfMemory>
        requires { (argument : MutBor Z) → argument.now ≡ last.now → H.pre once.now 0 argument }
        ensures { IfOk result (λ made. Calls H.Fn once.entry.now 0 last.entry.now (Ok made)
            last.exit.now) }
    { call_once(once, last) };
    join_mut(rt, &mut many, &mut one)
}

// One call that may be refused.
fn call_once<Z, D, H: Fn(usize, &mut Z) -> Result<D, OutOfMemory>>(
    call: &H,
    item: &mut Z,
) -> Result<D, OutOfMemory>
    requires accepts { (argument : MutBor Z) → argument.now ≡ item.old → H.pre call.now 0 argument }
    ensures calls { IfOk result (λ made. Calls H.Fn call.now 0 item.old (Ok made) item.new) }
{
    call(0, item)
}
