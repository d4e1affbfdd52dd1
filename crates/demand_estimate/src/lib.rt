//! The estimate of a task's demand, by the samples of what it sent.
//!
//! The samples of `estimate` go through an `Estimator` of each task: `sample` is the Estimate of
//! all samples so far, over every list of samples (`estimate`, `had`), while `window` samples at
//! most are kept (`few`). Nothing is promised of how well an estimate foretells a demand.
#![tactic(auto)]

ghost use Rattle.std.specs.Prelude.{◌≡◌, ◌≤◌, List, ℕ, [], ◌∷◌, ◌++◌, length, IfOk};
ghost use Rattle.demand_estimate.specs.Estimate as spec;

use bwe_specs::{MAX_AMOUNT, MAX_HEADROOM, MAX_WINDOW, MIN_HEADROOM, OutOfMemory};
use circular_buffer::HeapCircularBuffer;
use std::alloc::Global;
use std::marker::Model;

/// The last samples of one task. Samples and estimates are in kilobits per second, the headroom in
/// hundredths.
#[derive(Drop)]
pub struct Estimator {
    kept: HeapCircularBuffer<u64>,
    headroom: u32,
}

impl Model for Estimator {
    ghost use Rattle.std.specs.Prelude.{◌≤◌};
    ghost use Rattle.std.specs.Prelude.{All, length};
    ghost use Rattle.bwe_specs.specs.declared.limits.TheConstants.{MAX_AMOUNT, MAX_HEADROOM};
    ghost use Rattle.demand_estimate.specs.Estimator.{Kept};

    ghost Value = { Kept };

    ghost view = { λ estimator.
        record {
          window = estimator.kept.capacity;
          headroom = estimator.headroom;
          samples = estimator.kept.items;
        } };

    ghost invariant = { λ estimator. All (λ amount. amount ≤ MAX_AMOUNT) estimator.kept.items
        × (estimator.headroom ≤ MAX_HEADROOM) };
}

impl Estimator {
    ghost use Rattle.demand_estimate.specs.Estimator.{HasHad};

    /// An estimator that has had no sample. It takes memory for `window` samples.
    pub fn new(alloc: Global, window: u32, headroom: u32) -> Result<Estimator, OutOfMemory>
        requires some_window { 1 ≤ window }
        requires window { window ≤ MAX_WINDOW }
        requires least { MIN_HEADROOM ≤ headroom }
        requires headroom { headroom ≤ MAX_HEADROOM }
        ensures { IfOk result (λ estimator. estimator ≡
            record { window = window; headroom = headroom; samples = [] }) }
    {
        let kept = HeapCircularBuffer::with_capacity(alloc, window as usize)?;
        Ok(Estimator { kept, headroom })
    }

    /// The Estimate of all samples so far and this one ("Estimate", docs/DEFINITIONS.md). With a
    /// window of 2 and a headroom of 110 the samples 100, 50 and 5 give 110, 110 and 55.
    ///
    /// It takes no memory. It goes over the samples that are kept.
    pub fn sample(&mut self, amount: u64) -> u64
        requires { amount ≤ MAX_AMOUNT }
        // Whatever samples it has had, it answers their Estimate, and has then had this one too.
        ensures estimate { (samples : List ℕ) → HasHad self.old samples
            → result ≡ spec.estimate self.old.window self.old.headroom (samples ++ amount ∷ []) }
        ensures had { (samples : List ℕ) → HasHad self.old samples
            → HasHad self.new (samples ++ amount ∷ []) }
        ensures few { length self.new.samples ≤ self.new.window }
        ensures window { self.new.window ≡ self.old.window }
        ensures headroom { self.new.headroom ≡ self.old.headroom }
    {
        self.kept.push_back(amount);
        with_headroom(self.headroom, greatest_kept(&self.kept))
    }
}

#[tactic(auto, unfolding(crate::specs::Estimate::greatest))]
fn greatest_kept(kept: &HeapCircularBuffer<u64>) -> u64
    ensures { result ≡ spec.greatest kept.now.items }
{
    kept.iter()
        .fold(0, |greatest, amount| greatest.max(*amount))
}

#[tactic(auto, unfolding(crate::specs::Estimate::with_headroom))]
fn with_headroom(headroom: u32, amount: u64) -> u64
    requires headroom { headroom ≤ MAX_HEADROOM }
    requires amount { amount ≤ MAX_AMOUNT }
    ensures { result ≡ spec.with_headroom headroom amount }
{
    (amount * u64::from(headroom)).div_ceil(100).min(MAX_AMOUNT)
}
