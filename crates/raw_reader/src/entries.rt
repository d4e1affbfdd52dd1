//! Entries of the script, and closings.

ghost use Rattle.std.specs.Prelude.{◌≡◌, Ok};
ghost use Rattle.raw_document.specs.Raw.{closing_view, report_view};
ghost use Rattle.raw_document.specs.Forms.{closing_at, report_at};

use crate::part::{Item, Part};
use crate::slots::{Slots, fill, fill_members, fill_slots};
use crate::source::Source;
use crate::values::{is, open_object};
use raw_document::{DocKey, RawClosing, RawReport, RawTarget};
use std::alloc::Global;

#[derive(Drop)]
pub struct ReportSlots<'a> {
    pub reporter: Option<&'a str>,
    pub task: Option<&'a str>,
    pub demand: Option<u64>,
    pub link: Option<&'a str>,
    pub capacity: Option<u64>,
}

impl<'a> Slots<'a> for ReportSlots<'a> {
    ghost use Rattle.raw_reader.specs.Slots.{ReportHolds};

    ghost holds = { ReportHolds };

    fn take(
        &mut self,
        alloc: Global,
        version: u64,
        key: &str,
        reader: &mut Source<'a, '_>,
        depth: usize,
    ) -> Option<()> {
        if is(key, DocKey::Reporter) {
            return fill(&mut self.reporter, alloc, version, reader, depth);
        }
        if is(key, DocKey::Task) {
            return fill(&mut self.task, alloc, version, reader, depth);
        }
        if is(key, DocKey::Demand) {
            return fill(&mut self.demand, alloc, version, reader, depth);
        }
        if is(key, DocKey::Link) {
            return fill(&mut self.link, alloc, version, reader, depth);
        }
        if is(key, DocKey::Capacity) {
            return fill(&mut self.capacity, alloc, version, reader, depth);
        }
        None
    }
}

impl<'a> Part<'a> for RawReport<'a> {
    const USUAL_COUNT: usize = 4;

    ghost is_read = { λ version d report. report_at version d ≡ Ok (report_view report) };

    fn read(
        alloc: Global,
        version: u64,
        reader: &mut Source<'a, '_>,
        depth: usize,
    ) -> Option<RawReport<'a>> {
        open_object(reader, depth)?;
        RawReport::read_behind_brace(alloc, version, reader, depth)
    }
}

impl<'a> Item<'a> for RawReport<'a> {
    fn read_behind_brace(
        alloc: Global,
        version: u64,
        reader: &mut Source<'a, '_>,
        depth: usize,
    ) -> Option<RawReport<'a>> {
        let mut slots = ReportSlots {
            reporter: None,
            task: None,
            demand: None,
            link: None,
            capacity: None,
        };
        fill_members(&mut slots, alloc, version, reader, depth)?;
        let (target, amount) = match (slots.task, slots.demand, slots.link, slots.capacity) {
            (Some(task), Some(demand), None, None) => (RawTarget::Task(task), demand),
            (None, None, Some(link), Some(capacity)) if version != 1 => {
                (RawTarget::Link(link), capacity)
            }
            _ => return None,
        };
        Some(RawReport {
            reporter: slots.reporter?,
            target,
            amount,
        })
    }
}

#[derive(Drop)]
pub struct ClosingSlots<'a> {
    pub link: Option<&'a str>,
    pub share: Option<u64>,
}

impl<'a> Slots<'a> for ClosingSlots<'a> {
    ghost use Rattle.raw_reader.specs.Slots.{ClosingHolds};

    ghost holds = { ClosingHolds };

    fn take(
        &mut self,
        alloc: Global,
        version: u64,
        key: &str,
        reader: &mut Source<'a, '_>,
        depth: usize,
    ) -> Option<()> {
        if is(key, DocKey::Link) {
            return fill(&mut self.link, alloc, version, reader, depth);
        }
        if is(key, DocKey::Share) {
            return fill(&mut self.share, alloc, version, reader, depth);
        }
        None
    }
}

impl<'a> Part<'a> for RawClosing<'a> {
    const USUAL_COUNT: usize = 4;

    ghost is_read = { λ version d closing. closing_at d ≡ Ok (closing_view closing) };

    fn read(
        alloc: Global,
        version: u64,
        reader: &mut Source<'a, '_>,
        depth: usize,
    ) -> Option<RawClosing<'a>> {
        let mut slots = ClosingSlots {
            link: None,
            share: None,
        };
        fill_slots(&mut slots, alloc, version, reader, depth)?;
        Some(RawClosing {
            link: slots.link?,
            share: slots.share?,
        })
    }
}
