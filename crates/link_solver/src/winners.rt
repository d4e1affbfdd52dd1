//! The due of each link, and the link with the least.
//!
//! Over the links stands a tournament: a tree whose leaves are the links, where at each inner node
//! the one of the two below it stands that has the lesser due, and of two with the same due the
//! lower link. Its root is the link that is due next. Where one due changes, only the nodes above
//! its leaf are played again. Links whose due is the top take part as any other; a closed link is
//! one of them once it was looked at. Where the top wins, no link is due.

ghost use Rattle.std.specs.Prelude.{◌≡◌, ℕ, ◌+◌, ◌*◌, ◌/◌, ◌<◌, ◌≤◌, ◌^◌, length, slice_set, IfOk, MatchOption};
ghost use Rattle.link_solver.specs.Dues.{due_at, NoneBelow, IsLeastDue};
ghost use Rattle.link_solver.specs.Tournament.{winner_at, winner_of, AreWinners, IsTournament, IsClimbed};

use crate::due::Due;
use bwe_specs::OutOfMemory;
use mono_search::Steps;
use std::alloc::Global;
use std::marker::Model;
use std::sync::ledger::Ledger;

/// The lowest link of those that have the least due, and the least due of the others, or the top.
#[derive(Clone, Copy)]
pub(crate) struct LeastDue {
    pub(crate) link: u32,
    pub(crate) beside: u64,
}

/// The due of each link, and the tournament between them.
#[derive(Drop)]
pub(crate) struct Winners {
    dues: Vec<Due>,
    best: Vec<u32>,
}

impl Model for Winners {
    ghost use Rattle.std.specs.Prelude.{List};
    ghost use Rattle.link_solver.specs.declared.due.Due.{Due};
    ghost use Rattle.link_solver.specs.Tournament.{IsTournament};

    ghost Value = { List Due };

    ghost view = { λ winners. winners.dues.items };

    ghost invariant = { λ winners. IsTournament winners.dues.items winners.best.items };
}

impl Winners {
    /// The tournament of these dues. Each node is played once.
    pub(crate) fn of(alloc: Global, dues: Vec<Due>) -> Result<Winners, OutOfMemory>
        requires { length dues.items < 2 ^ 32 }
        ensures { IfOk result (λ winners. winners ≡ dues.items) }
    {
        let mut best: Vec<u32> = vec![in alloc; 0; dues.len()]?;
        play_all(&dues, &mut best);
        Ok(Winners { dues, best })
    }

    /// The due of a link.
    pub(crate) fn due(&self, link: u32) -> Due
        requires { link < length self.now }
        ensures { result ≡ due_at self.now link }
    {
        self.dues[link as usize]
    }

    /// The link with the least due, unless that is the top. It reads the root.
    pub(crate) fn least(&self, top: u64) -> Option<LeastDue>
        ensures { MatchOption result (NoneBelow self.now top)
            (λ found. IsLeastDue self.now top found.link) }
    {
        if self.dues.is_empty() {
            return None;
        }
        let link = winner_at(&self.best, 1);
        if self.dues[link as usize].share >= top {
            return None;
        }
        let beside = beside(&self.dues, &self.best, link, top);
        Some(LeastDue { link, beside })
    }

    /// Gives a link another due, and plays the nodes above it again.
    pub(crate) fn set<P: Ledger>(&mut self, link: u32, due: Due, plays: &mut Steps<P>)
        requires { link < length self.old }
        ensures dues { self.new ≡ slice_set self.old link due }
        ensures plays { (levels : ℕ) → length self.old ≤ 2 ^ levels
            → plays.new ≤ plays.old + levels }
    {
        self.dues[link as usize] = due;
        climb(&self.dues, &mut self.best, link, plays);
    }

    /// Gives a link a due with another share from which on it is over. Nothing is played again.
    pub(crate) fn set_over(&mut self, link: u32, due: Due)
        requires link { link < length self.old }
        requires same { due.share ≡ (due_at self.old link).share }
        ensures { self.new ≡ slice_set self.old link due }
    {
        self.dues[link as usize] = due;
    }
}

// The link that stands at a node.
fn winner_at(best: &[u32], node: usize) -> u32
    requires few { length best.now < 2 ^ 32 }
    requires node { node < 2 * length best.now }
    ensures { result ≡ winner_at best.now node }
{
    if node < best.len() {
        best[node]
    } else {
        (node - best.len()) as u32
    }
}

// Lets the two below a node play.
fn play(dues: &[Due], best: &[u32], node: usize) -> u32
    requires winners { AreWinners dues.now best.now }
    requires inner { 0 < node }
    requires node { node < length dues.now }
    ensures winner { result
        ≡ winner_of dues.now (winner_at best.now (2 * node)) (winner_at best.now (2 * node + 1)) }
    ensures in_range { result < length dues.now }
{
    let left = winner_at(best, 2 * node);
    let right = winner_at(best, 2 * node + 1);
    let left_share = dues[left as usize].share;
    let right_share = dues[right as usize].share;
    if right_share < left_share || (right_share == left_share && right < left) {
        right
    } else {
        left
    }
}

// Lets all nodes play, the lowest first.
fn play_all(dues: &[Due], best: &mut [u32])
    requires winners { AreWinners dues.now best.old }
    ensures { IsTournament dues.now best.new }
{
    for node in (1..dues.len()).rev() {
        best[node] = play(dues, best, node);
    }
}

// Lets all nodes above a link play, where the others have.
//
// They are no more than the logarithm of the links, to base 2 and rounded up.
fn climb<L: Ledger>(dues: &[Due], best: &mut [u32], link: u32, steps: &mut Steps<L>)
    requires link { link < length dues.now }
    requires climbed { IsClimbed dues.now best.old ((length dues.now + link) / 2) }
    ensures tournament { IsTournament dues.now best.new }
    ensures ticks { (levels : ℕ) → length dues.now ≤ 2 ^ levels → steps.new ≤ steps.old + levels }
{
    let mut node = (dues.len() + link as usize) / 2;
    while node > 0 {
        steps.tick();
        best[node] = play(dues, best, node);
        node /= 2;
    }
}

// The least due of the links beside one, or the top. It reads the nodes beside its way to the root.
fn beside(dues: &[Due], best: &[u32], link: u32, top: u64) -> u64
    requires winners { AreWinners dues.now best.now }
    requires link { link < length dues.now }
{
    let mut beside = top;
    let mut node = dues.len() + link as usize;
    while node > 1 {
        let sibling = if node % 2 == 0 { node + 1 } else { node - 1 };
        let other = winner_at(best, sibling);
        beside = beside.min(dues[other as usize].share);
        node /= 2;
    }
    beside
}
