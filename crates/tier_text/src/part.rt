//! The part of an input that gives each group its tier.

ghost use Rattle.std.specs.Prelude.{◌≡◌, ◌+◌, ◌<◌, ◌≤◌, IfErr, IfOk, OnOk, All, None, length, slice_index};
ghost use Rattle.tier_text.specs.TierPart.{TellsFault, is_due, is_tier_digit, part_fault, tiers_in, tiers_line};

use bwe_specs::OutOfMemory;
use std::alloc::{AllocFailed, Global};
use thiserror::Error;

/// Why a part gives no tiers.
#[derive(Clone, Copy, Debug, PartialEq, Eq, Error)]
pub enum TiersError {
    /// The first byte at fault, or the part's length where it ends early.
    #[error("refused 15 tiers at byte {at}")]
    Refused { at: u64 },
    #[error("out of memory")]
    OutOfMemory,
}

impl<T: Drop> From<AllocFailed<T>> for TiersError {
    ghost use Rattle.std.specs.Prelude.{◌≡◌};
    ghost use Rattle.tier_text.specs.declared.part.TiersError.TheVariants.{OutOfMemory};

    ghost from_gives = { λ _ error. error ≡ OutOfMemory };

    fn from(_failed: AllocFailed<T>) -> TiersError {
        TiersError::OutOfMemory
    }
}

/// The tier of each of so many groups: the part is one digit from 0 to 7 for each group and one
/// line feed.
///
/// It stops at the first byte at fault. Of two groups `01` and a line feed put the second into tier
/// 1; `08` is at fault at byte 1.
pub fn read_tiers(alloc: Global, part: &[u8], groups: u32) -> Result<Vec<u8>, TiersError>
    ensures tiers { IfOk result (λ tiers. tiers.items ≡ tiers_in groups part.now) }
    ensures one_each { IfOk result (λ tiers. length tiers.items ≡ groups) }
    ensures small { IfOk result (λ tiers. All (λ tier. tier ≤ 7) tiers.items) }
    ensures accepted { OnOk result (part_fault groups part.now ≡ None) }
    ensures refused { IfErr result (TellsFault (part_fault groups part.now)) }
{
    if let Some(at) = first_fault(part, groups) {
        return Err(TiersError::Refused { at });
    }
    digits_of(alloc, part, groups)
}

/// The row of a part that is refused at this byte.
#[tactic(auto, unfolding(crate::specs::TierPart::tiers_line))]
pub fn refused_tiers(alloc: Global, at: u64) -> Result<Vec<u8>, OutOfMemory>
    ensures { IfOk result (λ line. line.items ≡ tiers_line at) }
{
    Ok(format!(in alloc; "refused 15 tiers at byte {at}\n")?.into_bytes())
}

// The first byte at which the part is at fault.
fn first_fault(part: &[u8], groups: u32) -> Option<u64>
    ensures { result ≡ part_fault groups part.now }
{
    for at in 0..u64::from(groups) + 2 {
        if !is_due(part, groups, at) {
            return Some(at);
        }
    }
    None
}

// Whether the part has at the byte what is due there.
fn is_due(part: &[u8], groups: u32, at: u64) -> bool
    ensures { result ≡ is_due groups part.now at }
{
    let length = part.len() as u64;
    if u64::from(groups) < at {
        return length <= at;
    }
    if at >= length {
        return false;
    }
    let byte = part[at as usize];
    if at < u64::from(groups) {
        is_tier_digit(byte)
    } else {
        byte == b'\n'
    }
}

// Whether the byte is a digit from 0 to 7.
fn is_tier_digit(byte: u8) -> bool
    ensures { result ≡ is_tier_digit byte }
{
    b'0' <= byte && byte < b'8'
}

// The tiers of a part without fault.
fn digits_of(alloc: Global, part: &[u8], groups: u32) -> Result<Vec<u8>, TiersError>
    requires { part_fault groups part.now ≡ None }
    ensures tiers { IfOk result (λ tiers. tiers.items ≡ tiers_in groups part.now) }
    ensures one_each { IfOk result (λ tiers. length tiers.items ≡ groups) }
    ensures small { IfOk result (λ tiers. All (λ tier. tier ≤ 7) tiers.items) }
    ensures refused { IfErr result (TellsFault (part_fault groups part.now)) }
{
    let mut tiers = Vec::new(alloc);
    for group in 0..groups {
        tiers.push(part[group as usize] - b'0')?;
    }
    Ok(tiers)
}
