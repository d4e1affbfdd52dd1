//! What an exit status tells of a call, and what joins two commands, each law the contract of a
//! function that does nothing.

ghost use Rattle.std.specs.Prelude.{◌≡◌, ◌≢◌, ℕ};
ghost use Rattle.bwe_specs.specs.DocumentLimits.{limits_of};
ghost use Rattle.top_call.specs.Laws.{RunsAreLegal, SolvedIsServed, WhatRanIsFoundLegal};
ghost use Rattle.top_call.specs.Statuses.{AcceptedIsAnswered, AnAnswerIsWhole, NothingIsWritten};

use bwe_io::{Sink, Source};
use bwe_specs::{
    MAX_ALL_HOPS, MAX_CLOSINGS, MAX_GROUPS, MAX_INPUT, MAX_LINKS, MAX_LONG_INPUT, MAX_READERS,
    MAX_READS, MAX_REPORTERS, MAX_REPORTS, MAX_TASKS,
};

/// An answer is whole: the exit status is 0, 1 or 3 exactly where the arguments are a command, its
/// whole input was taken in, and what the command may get for it with that exit status was written
/// whole ("Exit statuses", docs/DEFINITIONS.md).
pub fn an_answer_is_whole<S: Source, K: Sink>()
    ensures { AnAnswerIsWhole S K }
{}

/// Nothing by halves: with the exit statuses 4 and 6 nothing was written.
pub fn nothing_is_written<S: Source, K: Sink>()
    ensures { NothingIsWritten S K }
{}

/// What is accepted is answered: where neither source nor sink fails, the input is not too long,
/// and nothing that the command may get for it is a refusal, the exit status is 0 or 1, or 6 where
/// memory runs out.
pub fn accepted_is_answered<S: Source, K: Sink>()
    ensures { AcceptedIsAnswered S K }
{}

/// What `run` wrote with exit status 0, behind its document, gets `legal` and exit status 0 from
/// `audit`.
pub fn runs_are_legal()
    ensures { RunsAreLegal }
{}

/// The same of two calls. Where a call for `run` ended with exit status 0, a call for `audit` on
/// its document and what it wrote writes `legal` with exit status 0, unless its source or its sink
/// fails, or memory runs out.
pub fn what_ran_is_found_legal<S: Source, K: Sink, T: Source, L: Sink>()
    ensures { WhatRanIsFoundLegal S K T L }
{}

/// A call that serves `solve` alone, as the program `bwe-solve` makes it, may end as a call for the
/// command `solve` may, and in no other way.
pub fn solved_is_served<S: Source, K: Sink>()
    ensures { SolvedIsServed S K }
{}

/// The limits that docs/FORMAT.md states are those of the code: readers and their reads, bytes of
/// an input.
pub fn limits_are_those_of_the_format()
    ensures readers { MAX_READERS ≡ 64 }
    ensures reads { MAX_READS ≡ 1_000 }
    ensures input { MAX_INPUT ≡ 67_108_864 }
    ensures long_input { MAX_LONG_INPUT ≡ 1_073_741_824 }
{}

/// The same of what the version of a document decides ("The document", docs/FORMAT.md): the limits
/// of a document that is not of version 4, and those of version 4, which are the greatest.
pub fn limits_by_version_are_those_of_the_format()
    ensures before_4 { (version : ℕ) → version ≢ 4 → limits_of version ≡ record {
      links = 4_096;
      groups = 1_024;
      tasks = 20_000;
      hops = 1_000_000;
      reporters = 64;
      reports = 200_000;
      closings = 4_096;
    } }
    ensures of_4 { limits_of 4 ≡ record {
      links = 65_536;
      groups = 65_536;
      tasks = 1_048_576;
      hops = 16_777_216;
      reporters = 4_096;
      reports = 4_194_304;
      closings = 65_536;
    } }
    ensures greatest { limits_of 4 ≡ record {
      links = MAX_LINKS;
      groups = MAX_GROUPS;
      tasks = MAX_TASKS;
      hops = MAX_ALL_HOPS;
      reporters = MAX_REPORTERS;
      reports = MAX_REPORTS;
      closings = MAX_CLOSINGS;
    } }
{}
