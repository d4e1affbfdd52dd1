//! A text that is read from its tokens.

use crate::tests::documents::WHOLE;
use json::Scratch;
use raw_reader::read_straight;

// A reader that reads nothing keeps its contract, and the tree of the JSON value answers in its
// place: nobody else would notice.
#[test]
fn a_document_is_read(rt: HostRuntime) {
    let mut scratch = Scratch::new(rt.alloc());
    let read = read_straight(rt.alloc(), WHOLE.as_bytes(), &mut scratch);
    assert!(rt; read.is_some());
}
