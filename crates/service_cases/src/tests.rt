//! A module for each topic.

ghost use Rattle.std.specs.Prelude.{◌≡◌, ◌≤◌};

mod balky;
mod beside;
mod books;
mod core_steps;
mod devices;
mod documents;
mod followed;
mod full_log;
mod gate;
mod held;
mod held_gate;
mod logs;
mod maker;
mod memory;
mod played;
mod printed;
mod rounds;
mod runs;
mod streams;
mod tokens;
mod told;
mod words;

use bwe_specs::{Report, Target};
use std::alloc::{AllocError, Global};

// A demand of the task that has the reporter's number.
fn demand_by(reporter: u32, amount: u64) -> Report
    requires amount { amount ≤ 1000 }
    ensures report { result ≡ record {
      reporter = reporter;
      target = Target.Task reporter;
      amount =
          amount;
    } }
{
    Report {
        reporter,
        target: Target::Task { number: reporter },
        amount,
    }
}

// Words of a command line.
fn words_of(alloc: Global, texts: &[&str]) -> Result<Vec<String>, AllocError> {
    let mut words = Vec::new(alloc);
    for text in texts {
        words.push(String::from_str(alloc, text)?)?;
    }
    Ok(words)
}
