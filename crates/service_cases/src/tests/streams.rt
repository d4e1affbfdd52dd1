//! Reading and writing by devices in memory that fail.

use bwe_io::{ReadError, Sink, read_all, write_all};
use memory_io::{MemorySink, MemorySource, SureSink, SureSource};
use std::test::Fail;

// The case "Short reads and failing devices": reading with the limit 4.
#[test]
fn reads_to_the_end_within_the_limit(rt: HostRuntime) -> Result<(), Fail> {
    let alloc = rt.alloc();
    let mut four = MemorySource::new(Vec::from_slice(alloc, b"abcd")?, 1, Vec::new(alloc));
    let bytes = read_all(alloc, &mut four, 4)?;
    assert!(rt; bytes.as_slice() == b"abcd".as_slice());
    Ok(())
}

#[test]
fn a_byte_past_the_limit_is_too_long(rt: HostRuntime) -> Result<(), Fail> {
    let mut five = SureSource::new(Vec::from_slice(rt.alloc(), b"abcde")?);
    let error = read_all(rt.alloc(), &mut five, 4).err();
    assert!(rt; error == Some(ReadError::TooLong));
    Ok(())
}

#[test]
fn a_read_that_fails_is_a_fault(rt: HostRuntime) -> Result<(), Fail> {
    let alloc = rt.alloc();
    let faults = vec![in alloc; 0]?;
    let mut failing = MemorySource::new(Vec::from_slice(alloc, b"abcd")?, 1, faults);
    let error = read_all(alloc, &mut failing, 4).err();
    assert!(rt; error == Some(ReadError::ReadFault));
    Ok(())
}

// The case "Short reads and failing devices": a sink that stops in the middle.
#[test]
fn a_prefix_is_written_before_a_fault(rt: HostRuntime) -> Result<(), Fail> {
    let alloc = rt.alloc();
    for (room, call) in [(1_000, 3), (3, 1_000)] {
        let mut sink = MemorySink::new(alloc, room, 1, vec![in alloc; call]?)?;
        let has_failed = write_all(&mut sink, b"table 2").is_err();
        assert!(rt; has_failed && sink.bytes() == b"tab".as_slice());
    }
    Ok(())
}

// The case "Four-byte sink".
#[test]
fn a_full_sink_refuses_a_further_byte(rt: HostRuntime) -> Result<(), Fail> {
    let mut sink = SureSink::new(rt.alloc(), 4)?;
    let is_written = write_all(&mut sink, b"four").is_ok();
    assert!(rt; is_written && sink.bytes() == b"four".as_slice());
    assert!(rt; sink.write(b"!").is_err());
    Ok(())
}
