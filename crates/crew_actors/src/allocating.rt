//! What the allocator does.
ghost use Rattle.std.specs.Prelude.{◌≡◌, ◌+◌, ◌-◌, ◌^◌, None, Some, length, min, OnOk, OnErr};
ghost use mathlib.Core.List.{IsPrefix};

use board::{AllocatorPass, Bases, Board, Profile};
use bwe_specs::OutOfMemory;
use crew_readers::{Actor, Gate};
use demand_book::Maker;
use std::alloc::Global;
use std::sync::Wait;

/// Makes so many rounds. Each posts a table of the log as it stands, where none covers it, and the
/// pass has the ack of the last.
pub fn make_rounds<M: Maker, N: Profile<M::Table>, B: Bases, G: Gate, R: Wait>(
    rt: &R,
    alloc: Global,
    board: &Board<M, N, B>,
    gate: &G,
    rounds: u64,
    pass: &mut AllocatorPass<B>,
) -> Result<(), OutOfMemory>
    ensures seen { IsPrefix pass.old.posted pass.new.posted }
    ensures rounds { OnOk result (pass.new.rounds ≡ min (pass.old.rounds + rounds) (2 ^ 64 - 1)) }
{
    pass.what_holds();
    for call in 0..rounds {
        make_round(rt, alloc, board, gate, call, pass)?;
    }
    Ok(())
}

// Makes a round.
fn make_round<M: Maker, N: Profile<M::Table>, B: Bases, G: Gate, R: Wait>(
    rt: &R,
    alloc: Global,
    board: &Board<M, N, B>,
    gate: &G,
    call: u64,
    pass: &mut AllocatorPass<B>,
) -> Result<(), OutOfMemory>
    ensures seen { IsPrefix pass.old.posted pass.new.posted }
    ensures rounds { OnOk result (pass.new.rounds ≡ min (pass.old.rounds + 1) (2 ^ 64 - 1)) }
    // The gate was told of the call, and of how many reports were then posted.
    ensures begun { G.begins Actor.Allocator call }
    ensures answered { OnOk result (G.answers Actor.Allocator call
        (Some (length pass.new.posted))) }
    ensures unanswered { OnErr result (G.answers Actor.Allocator call None) }
{
    gate.before(Actor::Allocator, call);
    match board.round(rt, alloc, pass) {
        Ok(prefix) => {
            gate.after(Actor::Allocator, call, Some(prefix));
            Ok(())
        }
        Err(error) => {
            gate.after(Actor::Allocator, call, None);
            Err(error)
        }
    }
}
