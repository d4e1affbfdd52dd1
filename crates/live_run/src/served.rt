//! A whole conversation: the document in front, and the lines behind it.

ghost use Rattle.std.specs.Prelude.{◌≡◌, ◌≢◌, ◌<◌, ◌≤◌, ℕ, List, [], Some, Err, true, false, length, IsNone, IfSome, IfOk, IfErr, OnOk, OnErr, IsErrOf};
ghost use Rattle.bwe_io.specs.Faults.{HasRisen};
ghost use Rattle.live_stream.specs.Talk.{IsOver, NeverFall};
ghost use Rattle.two_part.specs.TwoPart.{document_in, parts_of};
ghost use Rattle.live_run.specs.Answers.{Gives, GivesFirst};
ghost use Rattle.live_run.specs.Conversation.{Converses};
ghost use Rattle.live_run.specs.Endings.{GoesOn, IsServed};
ghost use Rattle.live_run.specs.Following.{StopsOnWay};
ghost use Rattle.live_run.specs.Follow.{Follow};
ghost use Rattle.live_run.specs.Front.{HasDocument, IsFront};

use crate::behind::follow_lines;
use crate::ending::status_of;
use crate::front::{Front, front_of, says_long};
use crate::line::answer_piece;
use crate::{Follower, Stop};
use bwe_io::{Failed, zeros};
use bwe_specs::OutOfMemory;
use live_lines::LineCutter;
use live_stream::Stream;
use one_run::{FAR_TOO_LONG, TOO_LONG};
use std::alloc::Global;
use two_part::{NO_PARTS, Parts};

/// The most bytes that are asked for at once.
const PIECE: usize = 65_536;

/// The usage line: `bwe-live` takes no arguments.
const USAGE: &str = "usage: bwe-live\n";

/// Serves one conversation, and answers the exit status ("`bwe-live`", docs/FORMAT.md).
///
/// `words` are the arguments after the program's name: for any of them the usage line is written.
/// Each answer is made whole before its first byte is written. It returns provided that the
/// stream's calls return.
pub fn serve<F: Follower, S: Stream>(alloc: Global, words: &[String], stream: &mut S) -> u8
    // The stream went from here to there as a conversation that was live all the way and ended as
    // this exit status allows.
    ensures { IsServed F.follow (length words.now) (S.talk stream.old) (S.talk stream.new)
        (S.faults stream.old) (S.faults stream.new) result }
{
    if !words.is_empty() {
        return match write_line(USAGE.as_bytes(), stream) {
            Ok(()) => 2,
            Err(_) => 5,
        };
    }
    match converse::<F, S>(alloc, stream) {
        Ok(status) => status,
        Err(stop) => status_of(stop),
    }
}

// A conversation: the document in front, and the lines behind it.
fn converse<F: Follower, S: Stream>(alloc: Global, stream: &mut S) -> Result<u8, Stop>
    ensures { GoesOn F.follow (S.talk stream.old) (S.talk stream.new)
        (S.faults stream.old) (S.faults stream.new) (record { read = []; written = [] }) result }
{
    let mut buffer = match zeros(alloc, PIECE) {
        Ok(buffer) => buffer,
        Err(_) => return Err(Stop::OutOfMemory),
    };
    let (bytes, front) = match read_front(alloc, &mut buffer, stream) {
        Ok(read) => read,
        Err(stop) => return Err(stop),
    };
    match front {
        Front::Found(parts) => serve_document::<F, S>(alloc, bytes, parts, &mut buffer, stream),
        Front::Open => refuse_open(&bytes, stream),
        Front::Missing => refuse(NO_PARTS.as_bytes(), 3, stream),
        Front::TooLong => refuse(FAR_TOO_LONG.as_bytes(), 8, stream),
    }
}

// Refuses an input that has ended before its document was whole.
fn refuse_open<S: Stream>(bytes: &[u8], stream: &mut S) -> Result<u8, Stop>
    requires open { IsFront bytes.now Front.Open }
    requires end { IsOver (S.talk stream.old) }
    ensures { (follow : Follow) → GoesOn follow (S.talk stream.old) (S.talk stream.new)
        (S.faults stream.old) (S.faults stream.new) (record { read = bytes.now; written = [] })
        result }
{
    if says_long(bytes) {
        refuse(TOO_LONG.as_bytes(), 8, stream)
    } else {
        refuse(NO_PARTS.as_bytes(), 3, stream)
    }
}

// Writes the row of a refusal, and gives its exit status.
fn refuse<S: Stream>(line: &[u8], status: u8, stream: &mut S) -> Result<u8, Stop>
    ensures given { IfOk result (λ ended. (ended ≡ status)
        × Gives (S.talk stream.old) (S.talk stream.new) line.now) }
    ensures partly { IfErr result (λ stop. (stop ≡ Stop.WriteFault)
        × HasRisen (S.faults stream.old).writes (S.faults stream.new).writes
        × GivesFirst (S.talk stream.old) (S.talk stream.new) line.now) }
{
    match write_line(line, stream) {
        Ok(()) => Ok(status),
        Err(_) => Err(Stop::WriteFault),
    }
}

// Writes a row that ends the conversation.
fn write_line<S: Stream>(line: &[u8], stream: &mut S) -> Result<(), Failed>
    ensures given { OnOk result (Gives (S.talk stream.old) (S.talk stream.new) line.now) }
    ensures partly { OnErr result (GivesFirst (S.talk stream.old) (S.talk stream.new) line.now) }
    ensures fault { OnErr result
        (HasRisen (S.faults stream.old).writes (S.faults stream.new).writes) }
{
    match stream.write(line) {
        Ok(()) => Ok(()),
        Err(failed) => Err(failed),
    }
}

// The bytes read until something is known of their front; it stays open where the input has ended.
fn read_front<S: Stream>(
    alloc: Global,
    buffer: &mut [u8],
    stream: &mut S,
) -> Result<(Vec<u8>, Front), Stop>
    requires { 0 < length buffer.old }
    ensures front { IfOk result (λ read. IsFront read.0.items read.1) }
    ensures end { IfOk result (λ read. read.1 ≡ Front.Open → IsOver (S.talk stream.new)) }
    ensures read { IfOk result (λ read. (follow : Follow)
        → Converses follow (S.talk stream.old) (S.talk stream.new)
        (record { read = []; written = [] }) (record { read = read.0.items; written = [] })) }
    ensures stopped { IfErr result (λ stop. (follow : Follow)
        → StopsOnWay follow (S.talk stream.old) (S.talk stream.new)
        (S.faults stream.old) (S.faults stream.new) (record { read = []; written = [] }) stop) }
    ensures counted { NeverFall (S.faults stream.old) (S.faults stream.new) }
{
    let mut bytes = Vec::new(alloc);
    'pieces: for _ in 0..u64::MAX {
        match front_of(&bytes) {
            Front::Open => {}
            front => return Ok((bytes, front)),
        }
        let count = match stream.read(buffer) {
            Ok(count) => count,
            Err(_) => return Err(Stop::ReadFault),
        };
        if count == 0 {
            return Ok((bytes, Front::Open));
        }
        match bytes.extend_from_slice(&buffer[..count]) {
            Ok(()) => {}
            Err(_) => return Err(Stop::OutOfMemory),
        }
    }
    Err(Stop::OutOfMemory)
}

// Refuses the document that lies in the bytes where it is too long, and else follows it.
fn serve_document<F: Follower, S: Stream>(
    alloc: Global,
    bytes: Vec<u8>,
    parts: Parts,
    buffer: &mut [u8],
    stream: &mut S,
) -> Result<u8, Stop>
    requires some { 0 < length buffer.old }
    requires document { HasDocument bytes.items parts }
    ensures { GoesOn F.follow (S.talk stream.old) (S.talk stream.new)
        (S.faults stream.old) (S.faults stream.new) (record { read = bytes.items; written = [] })
        result }
{
    let long = match is_too_long::<F>(alloc, &bytes, parts) {
        Ok(long) => long,
        Err(_) => return Err(Stop::OutOfMemory),
    };
    if long {
        return refuse(TOO_LONG.as_bytes(), 8, stream);
    }
    follow_document::<F, S>(alloc, bytes, parts, buffer, stream)
}

// Whether the document that lies in the bytes has more bytes than it may.
fn is_too_long<F: Follower>(alloc: Global, bytes: &[u8], parts: Parts) -> Result<bool, OutOfMemory>
    requires { HasDocument bytes.now parts }
    ensures { IfOk result (λ is. is ≡ F.follow.is_too_long (document_in bytes.now parts)) }
{
    let front = &bytes[..parts.end as usize];
    F::is_too_long(alloc, &front[parts.start as usize..])
}

// Opens the document that lies in the bytes, and follows the lines behind it.
fn follow_document<F: Follower, S: Stream>(
    alloc: Global,
    bytes: Vec<u8>,
    parts: Parts,
    buffer: &mut [u8],
    stream: &mut S,
) -> Result<u8, Stop>
    requires some { 0 < length buffer.old }
    requires document { HasDocument bytes.items parts }
    requires short { F.follow.is_too_long (document_in bytes.items parts) ≡ false }
    ensures { GoesOn F.follow (S.talk stream.old) (S.talk stream.new)
        (S.faults stream.old) (S.faults stream.new) (record { read = bytes.items; written = [] })
        result }
{
    let opened = match open_document::<F, S>(alloc, &bytes, parts, stream) {
        Ok(opened) => opened,
        Err(stop) => return Err(stop),
    };
    match opened {
        Some(follower) => follow_opened(alloc, follower, bytes, parts, buffer, stream),
        None => Ok(3),
    }
}

// Answers the lines of what has been read behind the document, and then those to come.
fn follow_opened<F: Follower, S: Stream>(
    alloc: Global,
    mut follower: F,
    bytes: Vec<u8>,
    parts: Parts,
    buffer: &mut [u8],
    stream: &mut S,
) -> Result<u8, Stop>
    requires some { 0 < length buffer.old }
    requires document { HasDocument bytes.items parts }
    requires short { F.follow.is_too_long (document_in bytes.items parts) ≡ false }
    requires accepted { F.follow.accepts (document_in bytes.items parts) ≡ true }
    requires followed { F.has_followed follower (document_in bytes.items parts) [] }
    ensures { GoesOn F.follow (S.talk stream.old) (S.talk stream.new)
        (S.faults stream.old) (S.faults stream.new)
        (record {
          read = bytes.items;
          written = F.follow.first_text (document_in bytes.items parts);
        }) result }
{
    let mut cutter = match LineCutter::new(alloc) {
        Ok(cutter) => cutter,
        Err(_) => return Err(Stop::OutOfMemory),
    };
    let behind = &bytes[parts.end as usize..];
    match answer_piece(alloc, &mut follower, &mut cutter, behind, stream) {
        Ok(()) => drop(bytes),
        Err(stop) => return Err(stop),
    }
    match follow_lines(alloc, &mut follower, &mut cutter, buffer, stream) {
        Ok(()) => Ok(0),
        Err(stop) => Err(stop),
    }
}

// Opens the document, and writes what is due first.
fn open_document<F: Follower, S: Stream>(
    alloc: Global,
    bytes: &[u8],
    parts: Parts,
    stream: &mut S,
) -> Result<Option<F>, Stop>
    requires { HasDocument bytes.now parts }
    ensures given { IfOk result (λ _. Gives (S.talk stream.old) (S.talk stream.new)
        (F.follow.first_text (document_in bytes.now parts))) }
    ensures refused { IfOk result (λ opened. IsNone opened
        → F.follow.accepts (document_in bytes.now parts) ≡ false) }
    ensures accepted { IfOk result (λ opened. IfSome opened (λ follower.
        (F.follow.accepts (document_in bytes.now parts) ≡ true)
        × F.has_followed follower (document_in bytes.now parts) [])) }
    ensures partly { IsErrOf result Stop.WriteFault
        → GivesFirst (S.talk stream.old) (S.talk stream.new)
        (F.follow.first_text (document_in bytes.now parts)) }
    ensures fault { IsErrOf result Stop.WriteFault
        → HasRisen (S.faults stream.old).writes (S.faults stream.new).writes }
    ensures nothing { IsErrOf result Stop.OutOfMemory → stream.new ≡ stream.old }
    ensures asks { result ≢ Err Stop.ReadFault }
    ensures counted { NeverFall (S.faults stream.old) (S.faults stream.new) }
{
    let front = &bytes[..parts.end as usize];
    let opened = F::open(alloc, &front[parts.start as usize..])?;
    match stream.write(&opened.text) {
        Ok(()) => Ok(opened.follower),
        Err(_) => Err(Stop::WriteFault),
    }
}
