//! Who takes part in a run, and the gate round each call.

use board_log::Bases;
use board_pair::{Profile, View};
use demand_book::Posted;

/// Who takes part in a run.
#[derive(Clone, Copy, Debug, PartialEq, Eq)]
pub enum Actor {
    Reporter { number: u32 },
    Allocator,
    Reader { number: u32 },
}

/// What is called round each call of an actor. The calls of an actor are numbered from 0.
///
/// It can hold an actor up, and it is shown what a reader reads. It has no answer. What it was told
/// is a fact that its calls alone show, so whoever states such a fact of any gate has called it.
pub trait Gate {
    ghost use Rattle.std.specs.Prelude.{ℕ, Option};
    ghost use Rattle.crew_readers.specs.declared.actor.Actor.{Actor};

    /// It was called before this call of an actor.
    ghost begins: { Actor → ℕ → Type 0 } = { λ _ _. Unit {0} };

    /// It was told what this call was answered, or that it was refused.
    ghost answers: { Actor → ℕ → Option ℕ → Type 0 } = { λ _ _ _. Unit {0} };

    /// It was shown a table of so many reports and of this total, by this read of a reader.
    ghost shows: { ℕ → ℕ → ℕ → ℕ → Type 0 } = { λ _ _ _ _. Unit {0} };

    /// Called before each call of an actor.
    fn before(&self, actor: Actor, call: u64)
        ensures { begins actor call };

    /// Called after each call of an actor but a read, with what it was answered: a report its
    /// place, a settle and a round how many reports are acknowledged. A call that was refused has
    /// no answer.
    fn after(&self, actor: Actor, call: u64, answer: Option<u64>)
        ensures { answers actor call answer };

    /// Called after a read, with what it showed, in place of `after`.
    fn shown<T: Posted, N: Profile<T>, B: Bases>(
        &self,
        reader: u32,
        call: u64,
        view: &View<'_, T, N, B>,
    )
        ensures { shows reader call (T.covers view.now.copy.now.table)
            (T.total_of view.now.copy.now.table) };
}

/// The gate that does nothing.
#[derive(Clone, Copy, Debug, Default)]
pub struct OpenGate;

impl Gate for OpenGate {
    fn before(&self, _actor: Actor, _call: u64) {}

    fn after(&self, _actor: Actor, _call: u64, _answer: Option<u64>) {}

    fn shown<T: Posted, N: Profile<T>, B: Bases>(
        &self,
        _reader: u32,
        _call: u64,
        _view: &View<'_, T, N, B>,
    ) {}
}
