//! Answers are written before the next byte is asked for.

ghost use Rattle.std.specs.Prelude.{true, false, [], unwrap_or};

use bwe_specs::OutOfMemory;
use live_run::{Follower, OpenedFollower, serve};
use live_stream::{Event, MemoryStream};
use std::alloc::Global;
use std::test::Fail;

// Writes the document first, and each line back.
#[derive(Drop)]
struct Echo;

impl Follower for Echo {
    ghost follow = { record {
      is_too_long = λ _. false;
      accepts = λ _. true;
      first_text = λ document. document;
      answer_of = λ _ _ line. unwrap_or line [];
    } };

    ghost has_followed = { λ _ _ _. Unit {0} };

    fn is_too_long(_alloc: Global, _document: &[u8]) -> Result<bool, OutOfMemory> {
        Ok(false)
    }

    fn open(alloc: Global, document: &[u8]) -> Result<OpenedFollower<Echo>, OutOfMemory> {
        Ok(OpenedFollower {
            text: Vec::from_slice(alloc, document)?,
            follower: Some(Echo),
        })
    }

    fn answer(&mut self, alloc: Global, line: Option<&[u8]>) -> Result<Vec<u8>, OutOfMemory> {
        match line {
            Some(bytes) => Ok(Vec::from_slice(alloc, bytes)?),
            None => Ok(Vec::new(alloc)),
        }
    }
}

// The bytes that were written before so many bytes had been read.
fn written_before(alloc: Global, stream: &MemoryStream, read: usize) -> Result<Vec<u8>, Fail> {
    let mut taken = 0u64;
    let mut written = Vec::new(alloc);
    for event in stream.events() {
        match event {
            Event::Took(bytes) => taken = taken.saturating_add(bytes.len() as u64),
            Event::Gave(bytes) => {
                if taken < read as u64 {
                    written.extend_from_slice(bytes)?;
                }
            }
        }
    }
    Ok(written)
}

const INPUT: &[u8] = b"2\nD.one\ntwo\nhalf";

#[test]
fn each_answer_is_written_before_the_next_byte(rt: HostRuntime) -> Result<(), Fail> {
    let alloc = rt.alloc();
    let mut stream = MemoryStream::new(alloc, Vec::from_slice(alloc, INPUT)?, 1, 1_000, 1_000);
    assert_eq!(rt; serve::<Echo, MemoryStream>(alloc, &[], &mut stream), 0);
    for (read, written) in [(4, b"".as_slice()), (5, b"D."), (8, b"D."), (9, b"D.one")] {
        assert_eq!(rt; written_before(alloc, &stream, read)?.as_slice(), written);
    }
    assert_eq!(rt;
        written_before(alloc, &stream, 100)?.as_slice(),
        b"D.onetwo".as_slice()
    );
    Ok(())
}

#[test]
fn faults_leave_whole_answers_or_a_prefix(rt: HostRuntime) -> Result<(), Fail> {
    let alloc = rt.alloc();
    for (reads, room, status, written) in [
        (9, 1_000, 4, b"D.one".as_slice()),
        (1_000, 6, 5, b"D.onet"),
        (3, 1_000, 4, b""),
    ] {
        let mut stream = MemoryStream::new(alloc, Vec::from_slice(alloc, INPUT)?, 1, reads, room);
        assert_eq!(rt;
            serve::<Echo, MemoryStream>(alloc, &[], &mut stream),
            status
        );
        assert_eq!(rt; written_before(alloc, &stream, 100)?.as_slice(), written);
    }
    Ok(())
}
