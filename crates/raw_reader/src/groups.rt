//! Links, and groups with their paths.

ghost use Rattle.std.specs.Prelude.{◌≡◌, Ok};
ghost use Rattle.raw_document.specs.Raw.{group_view, link_view, path_view};
ghost use Rattle.raw_document.specs.Forms.{group_at, link_at, path_at};

use crate::part::{Item, Part};
use crate::slots::{Slots, fill, fill_members, fill_slots};
use crate::source::Source;
use crate::values::{is, open_object};
use raw_document::{DocKey, RawGroup, RawLink, RawPath, RawUser};
use std::alloc::Global;

#[derive(Drop)]
pub struct LinkSlots<'a> {
    pub name: Option<&'a str>,
    pub from: Option<&'a str>,
    pub to: Option<&'a str>,
    pub capacity: Option<u64>,
    pub owner: Option<&'a str>,
}

impl<'a> Slots<'a> for LinkSlots<'a> {
    ghost use Rattle.raw_reader.specs.Slots.{LinkHolds};

    ghost holds = { LinkHolds };

    fn take(
        &mut self,
        alloc: Global,
        version: u64,
        key: &str,
        reader: &mut Source<'a, '_>,
        depth: usize,
    ) -> Option<()> {
        if is(key, DocKey::Name) {
            return fill(&mut self.name, alloc, version, reader, depth);
        }
        if is(key, DocKey::From) {
            return fill(&mut self.from, alloc, version, reader, depth);
        }
        if is(key, DocKey::To) {
            return fill(&mut self.to, alloc, version, reader, depth);
        }
        if is(key, DocKey::Capacity) {
            return fill(&mut self.capacity, alloc, version, reader, depth);
        }
        if version != 1 && is(key, DocKey::Owner) {
            return fill(&mut self.owner, alloc, version, reader, depth);
        }
        None
    }
}

impl<'a> Part<'a> for RawLink<'a> {
    const USUAL_COUNT: usize = 4;

    ghost is_read = { λ version d link. link_at version d ≡ Ok (link_view link) };

    fn read(
        alloc: Global,
        version: u64,
        reader: &mut Source<'a, '_>,
        depth: usize,
    ) -> Option<RawLink<'a>> {
        let mut slots = LinkSlots {
            name: None,
            from: None,
            to: None,
            capacity: None,
            owner: None,
        };
        fill_slots(&mut slots, alloc, version, reader, depth)?;
        match (slots.name, slots.from, slots.to, slots.capacity) {
            (Some(name), Some(from), Some(to), Some(capacity)) => Some(RawLink {
                name,
                from,
                to,
                capacity,
                owner: slots.owner,
            }),
            _ => None,
        }
    }
}

#[derive(Drop)]
pub struct PathSlots<'a> {
    pub weight: Option<u64>,
    pub links: Option<Vec<&'a str>>,
}

impl<'a> Slots<'a> for PathSlots<'a> {
    ghost use Rattle.raw_reader.specs.Slots.{PathHolds};

    ghost holds = { PathHolds };

    fn take(
        &mut self,
        alloc: Global,
        version: u64,
        key: &str,
        reader: &mut Source<'a, '_>,
        depth: usize,
    ) -> Option<()> {
        if is(key, DocKey::Weight) {
            return fill(&mut self.weight, alloc, version, reader, depth);
        }
        if is(key, DocKey::Links) {
            return fill(&mut self.links, alloc, version, reader, depth);
        }
        None
    }
}

impl<'a> Part<'a> for RawPath<'a> {
    const USUAL_COUNT: usize = 1;

    ghost is_read = { λ version d path. path_at d ≡ Ok (path_view path) };

    fn read(
        alloc: Global,
        version: u64,
        reader: &mut Source<'a, '_>,
        depth: usize,
    ) -> Option<RawPath<'a>> {
        let mut slots = PathSlots {
            weight: None,
            links: None,
        };
        fill_slots(&mut slots, alloc, version, reader, depth)?;
        Some(RawPath {
            weight: slots.weight?,
            links: slots.links?,
        })
    }
}

#[derive(Drop)]
pub struct GroupSlots<'a> {
    pub name: Option<&'a str>,
    pub from: Option<&'a str>,
    pub to: Option<&'a str>,
    pub function: Option<Vec<(u64, u64)>>,
    pub path_groups: Option<Vec<Vec<RawPath<'a>>>>,
    pub users: Option<Vec<RawUser<'a>>>,
}

impl<'a> Slots<'a> for GroupSlots<'a> {
    ghost use Rattle.raw_reader.specs.Slots.{GroupHolds};

    ghost holds = { GroupHolds };

    fn take(
        &mut self,
        alloc: Global,
        version: u64,
        key: &str,
        reader: &mut Source<'a, '_>,
        depth: usize,
    ) -> Option<()> {
        if is(key, DocKey::Name) {
            return fill(&mut self.name, alloc, version, reader, depth);
        }
        if is(key, DocKey::From) {
            return fill(&mut self.from, alloc, version, reader, depth);
        }
        if is(key, DocKey::To) {
            return fill(&mut self.to, alloc, version, reader, depth);
        }
        if is(key, DocKey::Function) {
            return fill(&mut self.function, alloc, version, reader, depth);
        }
        if is(key, DocKey::Paths) {
            return fill(&mut self.path_groups, alloc, version, reader, depth);
        }
        if is(key, DocKey::Users) {
            return fill(&mut self.users, alloc, version, reader, depth);
        }
        None
    }
}

impl<'a> Part<'a> for RawGroup<'a> {
    const USUAL_COUNT: usize = 4;

    ghost is_read = { λ version d group. group_at version d ≡ Ok (group_view group) };

    fn read(
        alloc: Global,
        version: u64,
        reader: &mut Source<'a, '_>,
        depth: usize,
    ) -> Option<RawGroup<'a>> {
        open_object(reader, depth)?;
        RawGroup::read_behind_brace(alloc, version, reader, depth)
    }
}

impl<'a> Item<'a> for RawGroup<'a> {
    fn read_behind_brace(
        alloc: Global,
        version: u64,
        reader: &mut Source<'a, '_>,
        depth: usize,
    ) -> Option<RawGroup<'a>> {
        let mut slots = GroupSlots {
            name: None,
            from: None,
            to: None,
            function: None,
            path_groups: None,
            users: None,
        };
        fill_members(&mut slots, alloc, version, reader, depth)?;
        match (
            slots.name,
            slots.from,
            slots.to,
            slots.path_groups,
            slots.users,
        ) {
            (Some(name), Some(from), Some(to), Some(path_groups), Some(users)) => Some(RawGroup {
                name,
                from,
                to,
                function: slots.function,
                path_groups,
                users,
            }),
            _ => None,
        }
    }
}
