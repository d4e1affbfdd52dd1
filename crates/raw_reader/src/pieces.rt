//! A stretch of a document's text, which begins and ends between two items of a list, or with the
//! document.

ghost use Rattle.std.specs.Prelude.{◌≡◌, ◌<◌, ◌≤◌, ◌∷◌, ◌++◌, [], List, length, cond, Some, None, IsSome, IfSome, OnSome};
ghost use Rattle.json.specs.Token.{Token as SpecToken, begin_object, key as key_token};
ghost use Rattle.raw_reader.specs.declared.pieces.Place.TheVariants.{Members};
ghost use Rattle.json.specs.Lex.{tokens};
ghost use Rattle.raw_reader.specs.Takes.{Takes};
ghost use Rattle.raw_reader.specs.Pieces.{MemberIs, ItemsTake, Closes, PieceTakes, BeginsAt, member_depth};
ghost use Rattle.raw_reader.specs.Stretches.{IsRead};

use crate::part::{Item, Part, add};
use crate::source::Source;
use crate::values::{MAX_DEPTH, is, open_array, open_object};
use json::{Scratch, Token};
use raw_document::{DocKey, RawClosing, RawGroup, RawLink, RawReport};
use std::alloc::Global;

/// Where in a document a stretch of its text stands: before its first brace, among its members, or
/// between two items of its list of groups or of its script.
#[derive(Clone, Copy, Drop)]
pub enum Place {
    Outside,
    Members,
    Groups,
    Script,
}

/// A stretch of the text of a document of this version.
#[derive(Drop)]
pub struct Stretch<'a> {
    pub alloc: Global,
    pub version: u64,
    pub text: &'a str,
    pub place: Place,
}

/// A member of a document other than its groups and its script.
#[derive(Drop)]
pub enum Member<'a> {
    Version(u64),
    Top(u64),
    Links(Vec<RawLink<'a>>),
    Reporters(Vec<&'a str>),
    Closings(Vec<RawClosing<'a>>),
}

/// What stands in a document's text, in its order: its braces, its members, and of its two long
/// lists the bracket that opens one, and items, behind which the list is closed or the stretch
/// ends.
#[derive(Drop)]
pub enum Piece<'a> {
    Begin,
    Member(Member<'a>),
    OpenGroups,
    OpenScript,
    Groups {
        items: Vec<RawGroup<'a>>,
        closed: bool,
    },
    Script {
        items: Vec<RawReport<'a>>,
        closed: bool,
    },
    End,
}

// The depth at which members of a document, and items of its lists, may nest.
const MEMBER_DEPTH: usize = MAX_DEPTH - 1;

const ITEM_DEPTH: usize = MAX_DEPTH - 2;

fn read_member<'a>(
    alloc: Global,
    version: u64,
    key: &str,
    reader: &mut Source<'a, '_>,
) -> Option<Member<'a>>
    ensures value { IfSome result (λ member. Takes member_depth reader.old reader.new
        (λ d. MemberIs version member key.now d)) }
    ensures shorter { OnSome result (length reader.new < length reader.old) }
{
    let depth = MEMBER_DEPTH;
    if is(key, DocKey::Version) {
        return Some(Member::Version(Part::read(alloc, version, reader, depth)?));
    }
    if is(key, DocKey::Top) {
        return Some(Member::Top(Part::read(alloc, version, reader, depth)?));
    }
    if is(key, DocKey::Links) {
        return Some(Member::Links(Part::read(alloc, version, reader, depth)?));
    }
    if is(key, DocKey::Reporters) {
        return Some(Member::Reporters(Part::read(alloc, version, reader, depth)?));
    }
    if is(key, DocKey::Closings) {
        return Some(Member::Closings(Part::read(alloc, version, reader, depth)?));
    }
    None
}

// Reads items, one at least, up to the end of the list, where the second answer is `true`, or of
// the text.
fn read_items<'a, T: Item<'a>>(
    alloc: Global,
    version: u64,
    reader: &mut Source<'a, '_>,
) -> Option<(Vec<T>, bool)>
    ensures value { IfSome result (λ found. (behind : List SpecToken)
        × ItemsTake (T.is_read version) found.0.items reader.old behind
        × Closes found.1 behind reader.new) }
    ensures begins { OnSome result ((ts : List SpecToken) × (reader.old ≡ begin_object ∷ ts)) }
    ensures shorter { OnSome result (length reader.new < length reader.old) }
{
    let Token::BeginObject = reader.next()? else {
        return None;
    };
    let mut found = Vec::new(alloc);
    let first = T::read_behind_brace(alloc, version, reader, ITEM_DEPTH)?;
    add(&mut found, first)?;
    let closed = read_more_items(alloc, version, reader, &mut found)?;
    Some((found, closed))
}

// Reads more items.
fn read_more_items<'a, T: Item<'a>>(
    alloc: Global,
    version: u64,
    reader: &mut Source<'a, '_>,
    found: &mut Vec<T>,
) -> Option<bool>
    ensures value { IfSome result (λ closed. (behind : List SpecToken) × (xs : List T)
        × (found.new.items ≡ found.old.items ++ xs)
        × ItemsTake (T.is_read version) xs reader.old behind × Closes closed behind reader.new) }
    ensures shorter { OnSome result (length reader.new ≤ length reader.old) }
{
    'items: while let Some(token) = reader.next() {
        match token {
            Token::BeginObject => {
                let item = T::read_behind_brace(alloc, version, reader, ITEM_DEPTH)?;
                add(found, item)?;
            }
            Token::EndArray => return Some(true),
            _ => return None,
        }
    }
    Some(false)
}

// Where one stands behind items.
fn behind_list(closed: bool) -> Option<Place>
    ensures { result ≡ cond closed (Some Members) None }
{
    if closed { Some(Place::Members) } else { None }
}

fn read_at_key<'a>(
    alloc: Global,
    version: u64,
    key: &str,
    reader: &mut Source<'a, '_>,
) -> Option<(Piece<'a>, Option<Place>)>
    ensures value { IfSome result (λ found. PieceTakes version found.0
        (key_token key.now ∷ reader.old) reader.new) }
    ensures next { IfSome result (λ found. IsSome found.1) }
    ensures shorter { OnSome result (length reader.new < length reader.old) }
{
    if is(key, DocKey::Groups) {
        open_array(reader, MEMBER_DEPTH)?;
        return Some((Piece::OpenGroups, Some(Place::Groups)));
    }
    if is(key, DocKey::Script) {
        open_array(reader, MEMBER_DEPTH)?;
        return Some((Piece::OpenScript, Some(Place::Script)));
    }
    let member = read_member(alloc, version, key, reader)?;
    Some((Piece::Member(member), Some(Place::Members)))
}

// The next piece, and where the next one stands, `None` at the end of the text.
fn read_piece<'a>(
    alloc: Global,
    version: u64,
    place: Place,
    reader: &mut Source<'a, '_>,
) -> Option<(Piece<'a>, Option<Place>)>
    ensures value { IfSome result (λ found. PieceTakes version found.0 reader.old reader.new) }
    ensures begins { OnSome result (BeginsAt place reader.old) }
    ensures last { IfSome result (λ found. found.1 ≡ None → reader.new ≡ []) }
    ensures shorter { OnSome result (length reader.new < length reader.old) }
{
    match place {
        Place::Outside => {
            open_object(reader, MAX_DEPTH)?;
            Some((Piece::Begin, Some(Place::Members)))
        }
        Place::Members => match reader.next_key().ok()? {
            Some(key) => read_at_key(alloc, version, key, reader),
            None if reader.next().is_none() => Some((Piece::End, None)),
            None => None,
        },
        Place::Groups => {
            let (items, closed) = read_items(alloc, version, reader)?;
            Some((Piece::Groups { items, closed }, behind_list(closed)))
        }
        Place::Script => {
            let (items, closed) = read_items(alloc, version, reader)?;
            Some((Piece::Script { items, closed }, behind_list(closed)))
        }
    }
}

/// All pieces of a stretch.
pub fn read_stretch<'a>(stretch: Stretch<'a>, scratch: &mut Scratch) -> Option<Vec<Piece<'a>>>
    ensures { IsRead stretch.entry result }
{
    let mut reader = Source::passing(stretch.text, scratch)?;
    let mut pieces = Vec::new(stretch.alloc);
    let mut place = Some(stretch.place);
    'pieces: while let Some(now) = place {
        let (piece, next) = read_piece(stretch.alloc, stretch.version, now, &mut reader)?;
        pieces.push(piece).ok()?;
        place = next;
    }
    Some(pieces)
}
