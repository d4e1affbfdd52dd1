//! Numbers and names in their ranges.

ghost use Rattle.std.specs.Prelude.{◌≡◌, map, option_map, nat_le, ◌&&◌};
ghost use Rattle.raw_document.specs.Reading.{Gives, each_view};
ghost use Rattle.std.specs.List.{list_all};
ghost use Rattle.raw_document.specs.Reading.{check_each};
ghost use Rattle.raw_document.specs.Raw.{Link, Path, Task, Job, User, Group, Report, Closing};
ghost use Rattle.raw_document.specs.Raw.{name_view, link_view, path_view, task_view, job_view, user_view, group_view, target_view, report_view, closing_view, raw_view};
ghost use Rattle.doc_passes.specs.Ranges.{is_name, is_name_byte, is_within, name_range, member_range, owner_range, items_range, link_range, path_range, task_range, job_range, user_range, group_range, target_range, report_range, closing_range, ranges};

use bwe_specs::{MAX_AMOUNT, MAX_SHARE, MAX_WEIGHT};
use raw_document::{
    DocKey, Fault, PathStep, RawClosing, RawDocument, RawGroup, RawJob, RawLink, RawPath,
    RawReport, RawTarget, RawTask, RawUser, under,
};
use std::alloc::Global;

const I: bool = true;

const O: bool = false;

// For each byte, whether it may stand in a name: `I` where it may.
const NAME_BYTES: [bool; 256] = [
    O, O, O, O, O, O, O, O, O, O, O, O, O, O, O, O, O, O, O, O, O, O, O, O, O, O, O, O, O, O, O, O,
    O, O, O, O, O, O, O, O, O, O, O, O, O, I, I, O, I, I, I, I, I, I, I, I, I, I, O, O, O, O, O, O,
    O, I, I, I, I, I, I, I, I, I, I, I, I, I, I, I, I, I, I, I, I, I, I, I, I, I, I, O, O, O, O, I,
    O, I, I, I, I, I, I, I, I, I, I, I, I, I, I, I, I, I, I, I, I, I, I, I, I, I, I, O, O, O, O, O,
    O, O, O, O, O, O, O, O, O, O, O, O, O, O, O, O, O, O, O, O, O, O, O, O, O, O, O, O, O, O, O, O,
    O, O, O, O, O, O, O, O, O, O, O, O, O, O, O, O, O, O, O, O, O, O, O, O, O, O, O, O, O, O, O, O,
    O, O, O, O, O, O, O, O, O, O, O, O, O, O, O, O, O, O, O, O, O, O, O, O, O, O, O, O, O, O, O, O,
    O, O, O, O, O, O, O, O, O, O, O, O, O, O, O, O, O, O, O, O, O, O, O, O, O, O, O, O, O, O, O, O,
];

fn is_name_char(byte: u8) -> bool
    ensures { result ≡ is_name_byte byte }
{
    NAME_BYTES[byte as usize]
}

// No byte ends the loop: names are short, and most are right.
fn has_name_chars(bytes: &[u8]) -> bool
    ensures { result ≡ list_all is_name_byte bytes.now }
{
    let mut all = true;
    for byte in bytes {
        all = all & is_name_char(*byte);
    }
    all
}

/// Whether a text is 1 to 64 letters, digits, `-`, `_` and `.`.
#[tactic(auto, unfolding(crate::specs::Ranges::is_name))]
fn is_right_name(name: &str) -> bool
    ensures { result ≡ is_name name.now }
{
    1 <= name.len() && name.len() <= 64 && has_name_chars(name.as_bytes())
}

fn is_in(low: u64, high: u64, number: u64) -> bool
    ensures { result ≡ is_within low high number }
{
    low <= number && number <= high
}

fn check(alloc: Global, key: DocKey, passes: bool) -> Result<(), Fault>
    ensures { Gives (λ nothing. nothing) result (member_range key passes) }
{
    if passes {
        Ok(())
    } else {
        Err(Fault::here(alloc).under(PathStep::Key { name: key }))
    }
}

/// What has a range in the document.
trait InRange {
    ghost use Rattle.std.specs.Prelude.{List, Result, ⊤};
    ghost use Rattle.raw_document.specs.declared.doc_path.PathStep.{PathStep};

    // What contracts see of it.
    ghost Shown: { Type 0 };

    ghost shown: { Self → Shown };

    // Nothing where it is in its range, or where it is not.
    ghost range: { Shown → Result ⊤ (List PathStep) };

    /// Whether it is in its range.
    fn check_range(&self, alloc: Global) -> Result<(), Fault>
        ensures { Gives (λ nothing. nothing) result (range (shown self.now)) };
}

impl<'a> InRange for &'a str {
    ghost use Rattle.std.specs.Prelude.{ℕ, List};

    ghost Shown = { List ℕ };

    ghost shown = { name_view };

    ghost range = { name_range };

    fn check_range(&self, alloc: Global) -> Result<(), Fault> {
        if is_right_name(*self) {
            Ok(())
        } else {
            Err(Fault::here(alloc))
        }
    }
}

impl<T: InRange> InRange for Vec<T> {
    ghost use Rattle.std.specs.Prelude.{List};

    ghost Shown = { List T.Shown };

    ghost shown = { each_view T.shown };

    ghost range = { check_each T.range };

    fn check_range(&self, alloc: Global) -> Result<(), Fault> {
        check_each(alloc, self.as_slice())
    }
}

// Whether each item is in its range. The first fault is told from the list.
fn check_each<T: InRange>(alloc: Global, items: &[T]) -> Result<(), Fault>
    ensures { Gives (λ nothing. nothing) result (check_each T.range (map T.shown items.now)) }
{
    for (place, item) in items.iter().enumerate() {
        match item.check_range(alloc) {
            Ok(()) => (),
            Err(fault) => return Err(fault.under(PathStep::Index {
                place: place as u64,
            })),
        }
    }
    Ok(())
}

// The same of the list that is the member of a key.
fn check_list<T: InRange>(alloc: Global, key: DocKey, items: &[T]) -> Result<(), Fault>
    ensures { Gives (λ nothing. nothing) result (items_range key T.range (map T.shown items.now)) }
{
    under(PathStep::Key { name: key }, check_each(alloc, items))
}

fn check_owner(alloc: Global, owner: Option<&str>) -> Result<(), Fault>
    ensures { Gives (λ nothing. nothing) result (owner_range (option_map name_view owner.entry)) }
{
    match owner {
        Some(name) => check(alloc, DocKey::Owner, is_right_name(name)),
        None => Ok(()),
    }
}

impl<'a> InRange for RawLink<'a> {
    ghost Shown = { Link };

    ghost shown = { link_view };

    ghost range = { link_range };

    #[tactic(auto, unfolding(crate::specs::Ranges::link_range))]
    fn check_range(&self, alloc: Global) -> Result<(), Fault> {
        check(alloc, DocKey::Name, is_right_name(self.name))?;
        check(alloc, DocKey::From, is_right_name(self.from))?;
        check(alloc, DocKey::To, is_right_name(self.to))?;
        check_owner(alloc, self.owner)
    }
}

impl<'a> InRange for RawPath<'a> {
    ghost Shown = { Path };

    ghost shown = { path_view };

    ghost range = { path_range };

    #[tactic(auto, unfolding(crate::specs::Ranges::path_range))]
    fn check_range(&self, alloc: Global) -> Result<(), Fault> {
        check_list(alloc, DocKey::Links, &self.links)
    }
}

impl<'a> InRange for RawTask<'a> {
    ghost Shown = { Task };

    ghost shown = { task_view };

    ghost range = { task_range };

    #[tactic(auto, unfolding(crate::specs::Ranges::task_range))]
    fn check_range(&self, alloc: Global) -> Result<(), Fault> {
        check(alloc, DocKey::Name, is_right_name(self.name))?;
        check(alloc, DocKey::Reporter, is_right_name(self.reporter))?;
        check(alloc, DocKey::Weight, is_in(1, MAX_WEIGHT, self.weight))
    }
}

impl<'a> InRange for RawJob<'a> {
    ghost Shown = { Job };

    ghost shown = { job_view };

    ghost range = { job_range };

    #[tactic(auto, unfolding(crate::specs::Ranges::job_range))]
    fn check_range(&self, alloc: Global) -> Result<(), Fault> {
        check(alloc, DocKey::Name, is_right_name(self.name))?;
        check_list(alloc, DocKey::Tasks, &self.tasks)
    }
}

impl<'a> InRange for RawUser<'a> {
    ghost Shown = { User };

    ghost shown = { user_view };

    ghost range = { user_range };

    #[tactic(auto, unfolding(crate::specs::Ranges::user_range))]
    fn check_range(&self, alloc: Global) -> Result<(), Fault> {
        check(alloc, DocKey::Name, is_right_name(self.name))?;
        check_list(alloc, DocKey::Jobs, &self.jobs)
    }
}

impl<'a> InRange for RawGroup<'a> {
    ghost Shown = { Group };

    ghost shown = { group_view };

    ghost range = { group_range };

    #[tactic(auto, unfolding(crate::specs::Ranges::group_range))]
    fn check_range(&self, alloc: Global) -> Result<(), Fault> {
        check(alloc, DocKey::Name, is_right_name(self.name))?;
        check(alloc, DocKey::From, is_right_name(self.from))?;
        check(alloc, DocKey::To, is_right_name(self.to))?;
        check_list(alloc, DocKey::Paths, &self.path_groups)?;
        check_list(alloc, DocKey::Users, &self.users)
    }
}

fn check_target(alloc: Global, target: &RawTarget, amount: u64) -> Result<(), Fault>
    ensures { Gives (λ nothing. nothing) result (target_range (target_view target.now) amount) }
{
    match target {
        RawTarget::Task(name) => {
            check(alloc, DocKey::Task, is_right_name(name))?;
            check(alloc, DocKey::Demand, is_in(0, MAX_AMOUNT, amount))
        }
        RawTarget::Link(name) => {
            check(alloc, DocKey::Link, is_right_name(name))?;
            check(alloc, DocKey::Capacity, is_in(0, MAX_AMOUNT, amount))
        }
    }
}

impl<'a> InRange for RawReport<'a> {
    ghost Shown = { Report };

    ghost shown = { report_view };

    ghost range = { report_range };

    #[tactic(auto, unfolding(crate::specs::Ranges::report_range))]
    fn check_range(&self, alloc: Global) -> Result<(), Fault> {
        check(alloc, DocKey::Reporter, is_right_name(self.reporter))?;
        check_target(alloc, &self.target, self.amount)
    }
}

impl<'a> InRange for RawClosing<'a> {
    ghost Shown = { Closing };

    ghost shown = { closing_view };

    ghost range = { closing_range };

    #[tactic(auto, unfolding(crate::specs::Ranges::closing_range))]
    fn check_range(&self, alloc: Global) -> Result<(), Fault> {
        check(alloc, DocKey::Link, is_right_name(self.link))?;
        check(alloc, DocKey::Share, is_in(0, MAX_SHARE, self.share))
    }
}

/// Whether each number and each name of the document is in its range.
#[tactic(auto, unfolding(crate::specs::Ranges::ranges))]
pub fn check_ranges(alloc: Global, raw: &RawDocument) -> Result<(), Fault>
    ensures { Gives (λ nothing. nothing) result (ranges (raw_view raw.now)) }
{
    check(alloc, DocKey::Version, is_in(1, 4, raw.version))?;
    check(alloc, DocKey::Top, is_in(1, MAX_SHARE, raw.top))?;
    check_list(alloc, DocKey::Links, &raw.links)?;
    check_list(alloc, DocKey::Groups, &raw.groups)?;
    check_list(alloc, DocKey::Reporters, &raw.reporters)?;
    check_list(alloc, DocKey::Script, &raw.script)?;
    check_list(alloc, DocKey::Closings, &raw.closings)
}
