//! All lines of samples, up to the first at fault.

ghost use Rattle.std.specs.Prelude.{◌≡◌};
ghost use Rattle.text_scan.specs.Items.{items_of};
ghost use Rattle.sample_lines.specs.SampleLines as spec;

use crate::error::SampleError;
use crate::sample::{Known, Sample};
use std::alloc::Global;
use text_scan::Lines;

/// The samples of the lines, where there is room for so many, or the number of the first line at
/// fault. A last line without a line feed is at fault.
#[tactic(auto, using(text_scan::proofs::ItemFacts::ends, text_scan::proofs::ItemFacts::ends_open))]
pub(crate) fn read_samples(
    alloc: Global,
    known: &Known,
    room: u64,
    part: &[u8],
) -> Result<Vec<Sample>, SampleError>
    ensures { spec.Answers (λ samples. samples.items) result
        (items_of (spec.next_sample known.now room) part.now) }
{
    let mut samples = Vec::new(alloc);
    let mut rest = Lines::new(part);
    'lines: while let Some(line) = rest.next_line() {
        match next_sample(known, room, &samples, line) {
            Some(sample) => samples.push(sample)?,
            None => {
                return Err(SampleError::Refused {
                    line: samples.len() as u64,
                });
            }
        }
    }
    if rest.is_empty() {
        Ok(samples)
    } else {
        Err(SampleError::Refused {
            line: samples.len() as u64,
        })
    }
}

// The sample of the next line, where there is room for one more.
fn next_sample(known: &Known, room: u64, before: &[Sample], line: &[u8]) -> Option<Sample>
    ensures { result ≡ spec.next_sample known.now room before.now line.now }
{
    if before.len() as u64 >= room {
        return None;
    }
    known.sample(line)
}
