//! The whole document.

ghost use Rattle.std.specs.Prelude.{◌≡◌, ℕ, Ok, Some, IfSome};
ghost use Rattle.raw_document.specs.Raw.{raw_view};
ghost use Rattle.serde_json.specs.Data.{Data, Members, no_members, object};
ghost use Rattle.serde_json.specs.Read.{read};
ghost use Rattle.raw_document.specs.Json.{json};
ghost use Rattle.raw_document.specs.Forms.{document_at};
ghost use Rattle.raw_reader.specs.Slots.{DocumentHolds};

use crate::guess::guess_version;
use crate::part::Part;
use crate::slots::{Slots, fill, fill_slots};
use crate::source::Source;
use crate::values::{MAX_DEPTH, is};
use json::Scratch;
use raw_document::{DocKey, RawClosing, RawDocument, RawGroup, RawLink, RawReport};
use std::alloc::Global;

#[derive(Drop)]
pub struct DocumentSlots<'a> {
    pub version: Option<u64>,
    pub top: Option<u64>,
    pub links: Option<Vec<RawLink<'a>>>,
    pub groups: Option<Vec<RawGroup<'a>>>,
    pub reporters: Option<Vec<&'a str>>,
    pub script: Option<Vec<RawReport<'a>>>,
    pub closings: Option<Vec<RawClosing<'a>>>,
}

impl<'a> Slots<'a> for DocumentSlots<'a> {
    ghost use Rattle.raw_reader.specs.Slots.{DocumentHolds};

    ghost holds = { DocumentHolds };

    fn take(
        &mut self,
        alloc: Global,
        version: u64,
        key: &str,
        reader: &mut Source<'a, '_>,
        depth: usize,
    ) -> Option<()> {
        if is(key, DocKey::Version) {
            return fill(&mut self.version, alloc, version, reader, depth);
        }
        if is(key, DocKey::Top) {
            return fill(&mut self.top, alloc, version, reader, depth);
        }
        if is(key, DocKey::Links) {
            return fill(&mut self.links, alloc, version, reader, depth);
        }
        if is(key, DocKey::Groups) {
            return fill(&mut self.groups, alloc, version, reader, depth);
        }
        if is(key, DocKey::Reporters) {
            return fill(&mut self.reporters, alloc, version, reader, depth);
        }
        if is(key, DocKey::Script) {
            return fill(&mut self.script, alloc, version, reader, depth);
        }
        if is(key, DocKey::Closings) {
            return fill(&mut self.closings, alloc, version, reader, depth);
        }
        None
    }
}

impl<'a> Part<'a> for RawDocument<'a> {
    const USUAL_COUNT: usize = 4;

    ghost is_read = { λ version d document. document_at d ≡ Ok (raw_view document) };

    fn read(
        alloc: Global,
        version: u64,
        reader: &mut Source<'a, '_>,
        depth: usize,
    ) -> Option<RawDocument<'a>> {
        let mut slots = DocumentSlots::new();
        fill_slots(&mut slots, alloc, version, reader, depth)?;
        document_of(alloc, version, slots)
    }
}

impl<'a> DocumentSlots<'a> {
    /// Slots that are empty.
    pub fn new() -> DocumentSlots<'a>
        ensures { (version : ℕ) → DocumentHolds version result no_members }
    {
        DocumentSlots {
            version: None,
            top: None,
            links: None,
            groups: None,
            reporters: None,
            script: None,
            closings: None,
        }
    }
}

/// The document of this version that the slots hold.
pub fn document_of<'a>(
    alloc: Global,
    version: u64,
    slots: DocumentSlots<'a>,
) -> Option<RawDocument<'a>>
    ensures { IfSome result (λ raw. (found : Members) → DocumentHolds version slots.entry found
        → document_at (object found) ≡ Ok (raw_view raw)) }
{
    if slots.version? != version {
        return None;
    }
    match (
        slots.top,
        slots.links,
        slots.groups,
        slots.reporters,
        slots.script,
    ) {
        (Some(top), Some(links), Some(groups), Some(reporters), Some(script)) => {
            let closings = slots.closings.unwrap_or(Vec::new(alloc));
            Some(RawDocument {
                version,
                top,
                links,
                groups,
                reporters,
                script,
                closings,
            })
        }
        _ => None,
    }
}

/// The document of a JSON text in UTF-8, where it can be read straight from its tokens: mostly
/// where its shape has no fault.
pub fn read_straight<'a>(
    alloc: Global,
    bytes: &'a [u8],
    scratch: &'a mut Scratch,
) -> Option<RawDocument<'a>>
    // What is read is the shape of the bytes' value. That anything is read is not promised.
    ensures { IfSome result (λ raw. (d : Data) × (json bytes.now ≡ Some d)
        × (document_at d ≡ Ok (raw_view raw))) }
{
    let Ok(text) = simdutf8::compat::from_utf8(bytes) else {
        return None;
    };
    let version = guess_version(text, scratch)?;
    read_text(alloc, version, text, scratch)
}

// The document of the text, whose version is known.
fn read_text<'a>(
    alloc: Global,
    version: u64,
    text: &'a str,
    scratch: &'a mut Scratch,
) -> Option<RawDocument<'a>>
    ensures { IfSome result (λ raw. (d : Data) × (read text.now ≡ Some d)
        × (document_at d ≡ Ok (raw_view raw))) }
{
    let mut reader = Source::lasting(text, scratch)?;
    let document = RawDocument::read(alloc, version, &mut reader, MAX_DEPTH)?;
    if reader.next().is_some() {
        return None;
    }
    Some(document)
}
