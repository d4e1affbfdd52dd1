//! The whole document, in stretches that are read on threads.

ghost use Rattle.std.specs.Prelude.{◌≡◌, [], ◌++◌, ℕ, List, Ok, Some, IfSome};
ghost use Rattle.json.specs.Token.{Token};
ghost use Rattle.serde_json.specs.Data.{Data};
ghost use Rattle.serde_json.specs.Read.{read};
ghost use Rattle.raw_document.specs.Json.{json};
ghost use Rattle.raw_document.specs.Raw.{raw_view};
ghost use Rattle.raw_document.specs.Forms.{document_at};
ghost use Rattle.raw_reader.specs.Joined.{IsJoined};
ghost use Rattle.raw_reader.specs.Pieces.{PiecesTake};
ghost use Rattle.raw_reader.specs.Stretches.{AreStretches, AllTake};
ghost use Rattle.raw_reader.specs.Runs.{stretches_in, AreAllPieces, AreRunsRead};
ghost use Rattle.raw_reader.specs.declared.runs.Run.{Run};

use crate::cuts::stretches_of;
use crate::guess::guess_at_ends;
use crate::joined::Joined;
use crate::pieces::Piece;
use crate::runs::{RunPieces, read_run, runs_of};
use apart::map_apart;
use json::Scratch;
use raw_document::RawDocument;
use std::alloc::{AllocError, Global};
use std::thread::Threads;

// How many threads read a text at most.
const MOST_THREADS: usize = 4;

/// A scratch for each thread.
pub fn scratches_of(alloc: Global) -> Result<Vec<Scratch>, AllocError> {
    let mut scratches = Vec::with_capacity(alloc, MOST_THREADS)?;
    for _ in 0..MOST_THREADS {
        scratches.push(Scratch::new(alloc))?;
    }
    Ok(scratches)
}

// The pieces of all stretches, where all runs were read.
fn all_read<'a>(alloc: Global, found: Vec<Option<RunPieces<'a>>>) -> Option<RunPieces<'a>>
    ensures { IfSome result (λ all. AreAllPieces found.entry.items all.items) }
{
    let mut all = Vec::new(alloc);
    for part in found {
        let mut pieces = part?;
        all.append(&mut pieces).ok()?;
    }
    Some(all)
}

// What was put together, with these pieces behind it.
fn with_pieces<'a>(alloc: Global, joined: Joined<'a>, pieces: Vec<Piece<'a>>) -> Option<Joined<'a>>
    ensures { IfSome result (λ after. (version : ℕ) (start old more : List Token)
        → PiecesTake version pieces.entry.items old [] → IsJoined version joined.entry start (old ++ more)
        → IsJoined version after start more) }
{
    let mut found = joined;
    for piece in pieces {
        found = found.with(alloc, piece)?;
    }
    Some(found)
}

fn all_joined<'a>(alloc: Global, all: Vec<Vec<Piece<'a>>>) -> Option<Joined<'a>>
    ensures { IfSome result (λ after. (version : ℕ) (start : List Token)
        → AllTake version all.entry.items start → IsJoined version after start []) }
{
    let mut found = Joined::new();
    for pieces in all {
        found = with_pieces(alloc, found, pieces)?;
    }
    Some(found)
}

// The document of the text whose stretches were read in runs.
fn document_of_runs<'a>(
    alloc: Global,
    version: u64,
    found: Vec<Option<RunPieces<'a>>>,
) -> Option<RawDocument<'a>>
    ensures { IfSome result (λ raw. (text : List ℕ) (runs : List Run)
        → AreStretches version text (stretches_in runs) → AreRunsRead runs found.entry.items
        → (d : Data) × (read text ≡ Some d) × (document_at d ≡ Ok (raw_view raw))) }
{
    let all = all_read(alloc, found)?;
    let joined = all_joined(alloc, all)?;
    joined.document(alloc, version)
}

fn read_text_on_threads<'a, R: Threads + Sync>(
    rt: &R,
    alloc: Global,
    text: &'a str,
    scratches: &mut [Scratch],
) -> Option<RawDocument<'a>>
    ensures { IfSome result (λ raw. (d : Data) × (read text.now ≡ Some d)
        × (document_at d ≡ Ok (raw_view raw))) }
{
    let version = guess_at_ends(text)?;
    let stretches = stretches_of(alloc, version, text)?;
    let runs = runs_of(alloc, stretches, scratches)?;
    let found = map_apart(rt, runs, &read_run).ok()?;
    document_of_runs(alloc, version, found)
}

/// The document of a JSON text in UTF-8, read in stretches on threads, where its text is long, can
/// be cut into stretches, and has mostly no fault of the shape.
///
/// A thread is started for each scratch. The scratches then have the length of some stretches, and
/// may be let go or used again.
pub fn read_straight_on_threads<'a, R: Threads + Sync>(
    rt: &R,
    alloc: Global,
    bytes: &'a [u8],
    scratches: &mut [Scratch],
) -> Option<RawDocument<'a>>
    // What is read is the shape of the bytes' value. That anything is read is not promised.
    ensures { IfSome result (λ raw. (d : Data) × (json bytes.now ≡ Some d)
        × (document_at d ≡ Ok (raw_view raw))) }
{
    let Ok(text) = simdutf8::compat::from_utf8(bytes) else {
        return None;
    };
    read_text_on_threads(rt, alloc, text, scratches)
}
