//! The pieces of a document put together.

ghost use Rattle.std.specs.Prelude.{◌≡◌, ◌++◌, [], ℕ, List, Ok, Some, IfSome};
ghost use Rattle.json.specs.Token.{Token};
ghost use Rattle.json.specs.Json.{value};
ghost use Rattle.serde_json.specs.Data.{Data, Members, no_members, put};
ghost use Rattle.serde_json.specs.Read.{of_json, converted};
ghost use Rattle.raw_document.specs.Raw.{raw_view};
ghost use Rattle.raw_document.specs.Forms.{document_at};
ghost use Rattle.raw_reader.specs.Slots.{DocumentHolds};
ghost use Rattle.raw_reader.specs.Pieces.{MemberIs, PieceTakes};
ghost use Rattle.raw_reader.specs.Joined.{IsJoined};
ghost use Rattle.raw_reader.specs.declared.pieces.Piece.TheVariants as pieces;

use crate::document::{DocumentSlots, document_of};
use crate::pieces::{Member, Piece};
use raw_document::{RawDocument, RawGroup, RawReport};
use std::alloc::Global;

/// The list that is open: the document has not begun, no list is open, one of the two long lists
/// with its items so far, or the document has ended.
#[derive(Drop)]
pub enum OpenList<'a> {
    Before,
    Closed,
    Groups(Vec<RawGroup<'a>>),
    Script(Vec<RawReport<'a>>),
    Over,
}

/// What was put together of a document so far.
#[derive(Drop)]
pub struct Joined<'a> {
    pub slots: DocumentSlots<'a>,
    pub list: OpenList<'a>,
}

// One list behind the other.
fn appended<T: Drop>(mut front: Vec<T>, mut behind: Vec<T>) -> Option<Vec<T>>
    ensures { IfSome result (λ all. all.items ≡ front.items ++ behind.items) }
{
    if front.is_empty() {
        return Some(behind);
    }
    front.append(&mut behind).ok()?;
    Some(front)
}

impl<'a> DocumentSlots<'a> {
    // Takes the value of a member. Of members of one key the last one stays.
    fn set(&mut self, member: Member<'a>)
        ensures { (version : ℕ) (k : List ℕ) (d : Data) (found : Members)
            → MemberIs version member.entry k d → DocumentHolds version self.old found
            → DocumentHolds version self.new (put k d found) }
    {
        match member {
            Member::Version(version) => self.version = Some(version),
            Member::Top(top) => self.top = Some(top),
            Member::Links(links) => self.links = Some(links),
            Member::Reporters(reporters) => self.reporters = Some(reporters),
            Member::Closings(closings) => self.closings = Some(closings),
        }
    }
}

impl<'a> Joined<'a> {
    /// Nothing of a document.
    pub fn new() -> Joined<'a>
        ensures { (version : ℕ) (start : List Token) → IsJoined version result start start }
    {
        Joined {
            slots: DocumentSlots::new(),
            list: OpenList::Before,
        }
    }

    // With the groups that are next.
    fn with_groups(self, items: Vec<RawGroup<'a>>, closed: bool) -> Option<Joined<'a>>
        ensures { IfSome result (λ after. (version : ℕ) (start old new more : List Token)
            → PieceTakes version (pieces.Groups items.entry closed) old new
            → IsJoined version self.entry start (old ++ more)
            → IsJoined version after start (new ++ more)) }
    {
        let Joined { mut slots, list } = self;
        let OpenList::Groups(found) = list else {
            return None;
        };
        let all = appended(found, items)?;
        if closed {
            slots.groups = Some(all);
            Some(Joined {
                slots,
                list: OpenList::Closed,
            })
        } else {
            Some(Joined {
                slots,
                list: OpenList::Groups(all),
            })
        }
    }

    fn with_reports(self, items: Vec<RawReport<'a>>, closed: bool) -> Option<Joined<'a>>
        ensures { IfSome result (λ after. (version : ℕ) (start old new more : List Token)
            → PieceTakes version (pieces.Script items.entry closed) old new
            → IsJoined version self.entry start (old ++ more)
            → IsJoined version after start (new ++ more)) }
    {
        let Joined { mut slots, list } = self;
        let OpenList::Script(found) = list else {
            return None;
        };
        let all = appended(found, items)?;
        if closed {
            slots.script = Some(all);
            Some(Joined {
                slots,
                list: OpenList::Closed,
            })
        } else {
            Some(Joined {
                slots,
                list: OpenList::Script(all),
            })
        }
    }

    /// With the piece that is next, where it may stand there.
    pub fn with(self, alloc: Global, piece: Piece<'a>) -> Option<Joined<'a>>
        ensures { IfSome result (λ after. (version : ℕ) (start old new more : List Token)
            → PieceTakes version piece.entry old new → IsJoined version self.entry start (old ++ more)
            → IsJoined version after start (new ++ more)) }
    {
        let Joined { mut slots, list } = self;
        let list = match (piece, list) {
            (Piece::Begin, OpenList::Before) => OpenList::Closed,
            (Piece::Member(member), OpenList::Closed) => {
                slots.set(member);
                OpenList::Closed
            }
            (Piece::OpenGroups, OpenList::Closed) => OpenList::Groups(Vec::new(alloc)),
            (Piece::OpenScript, OpenList::Closed) => OpenList::Script(Vec::new(alloc)),
            (Piece::Groups { items, closed }, list) => {
                return Joined { slots, list }.with_groups(items, closed);
            }
            (Piece::Script { items, closed }, list) => {
                return Joined { slots, list }.with_reports(items, closed);
            }
            (Piece::End, OpenList::Closed) => OpenList::Over,
            _ => return None,
        };
        Some(Joined { slots, list })
    }

    /// The document, where all of it was put together.
    pub fn document(self, alloc: Global, version: u64) -> Option<RawDocument<'a>>
        ensures { IfSome result (λ raw. (start : List Token) → IsJoined version self.entry start []
            → (d : Data) × (converted of_json (value 127 start) ≡ Some (d, []))
            × (document_at d ≡ Ok (raw_view raw))) }
    {
        match self.list {
            OpenList::Over => document_of(alloc, version, self.slots),
            _ => None,
        }
    }
}
