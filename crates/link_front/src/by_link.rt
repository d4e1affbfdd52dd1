//! The groups of each link.

ghost use Rattle.std.specs.Prelude.{◌≡◌, ℕ, ◌+◌, ◌<◌, true, List, length, IfOk, OnOk};
ghost use Rattle.bwe_specs.specs.Paths.{PathGroups, path_group_at, path_group_count, uses};
ghost use Rattle.path_groups.specs.Plan.{IsBuiltOn};
ghost use Rattle.path_groups.specs.Parts.{IsPartOn};
ghost use Rattle.link_front.specs.ByLink.{nothing, listed_of, listed_on, AreGroupsOn, AreUsesOn, AreListed, IsListedTo, AreListedTo};

use bwe_specs::OutOfMemory;
use path_groups::{LinkPart, LinkUse, PathPlan};
use std::alloc::Global;
use std::marker::Model;
use wan_topology::Topology;

/// The groups that use a link on one of their path groups, and of each the first of these.
#[derive(Drop)]
struct LinkGroups {
    groups: Vec<u32>,
    uses: Vec<LinkUse>,
}

// How many groups were counted at a link, and the last of them.
#[derive(Clone, Copy)]
struct Count {
    groups: u32,
    last: Option<u32>,
}

/// The path groups of a plan, and for each link the groups that use it on one of theirs.
#[derive(Drop)]
pub struct GroupsByLink<'a> {
    plan: &'a PathPlan,
    lists: Vec<LinkGroups>,
}

impl<'a> Model for GroupsByLink<'a> {
    ghost use Rattle.std.specs.Prelude.{List};
    ghost use Rattle.bwe_specs.specs.Paths.{PathGroups};
    ghost use Rattle.link_front.specs.ByLink.{AreListed};

    ghost Value = { List PathGroups };

    ghost view = { λ by_link. by_link.plan.now };

    ghost invariant = { λ by_link. AreListed by_link.plan.now by_link.lists.items };
}

impl<'a> GroupsByLink<'a> {
    /// The groups of the plan, by the links of the topology on which it was built. It walks all
    /// paths twice: the lists take the room that they need.
    pub fn of(
        alloc: Global,
        topology: &Topology,
        plan: &'a PathPlan,
    ) -> Result<GroupsByLink<'a>, OutOfMemory>
        requires { IsBuiltOn topology.now plan.now }
        ensures { IfOk result (λ by_link. by_link ≡ plan.now) }
    {
        let counts = counts_of(alloc, topology.links(), plan)?;
        let mut lists = empty_lists(alloc, &counts)?;
        list_groups(&mut lists, plan)?;
        Ok(GroupsByLink { plan, lists })
    }

    /// The path groups.
    pub fn plan(&self) -> &PathPlan
        ensures { result.now ≡ self.now }
    {
        self.plan
    }

    /// The groups that use the link on a path group, in ascending order.
    pub fn on(&self, link: u32) -> &[u32]
        ensures { AreGroupsOn self.now link result.now }
    {
        self.uses_on(link).0
    }

    /// The same, and of each of these groups, in the same order, a path group that uses the link.
    pub fn uses_on(&self, link: u32) -> (&[u32], &[LinkUse])
        ensures groups { AreGroupsOn self.now link result.0.now }
        ensures uses { AreUsesOn self.now link result.0.now result.1.now }
    {
        match self.lists.get(link as usize) {
            Some(list) => (&list.groups, &list.uses),
            None => (&[], &[]),
        }
    }
}

// How many groups use each link.
fn counts_of(alloc: Global, links: u32, plan: &PathPlan) -> Result<Vec<Count>, OutOfMemory>
    ensures { IfOk result (λ counts. length counts.items ≡ links) }
{
    let none = Count {
        groups: 0,
        last: None,
    };
    let mut counts = vec![in alloc; none; links as usize]?;
    for group in 0..plan.groups() {
        for place in 0..plan.places(group) {
            count_parts(&mut counts, plan.parts(group, place), group);
        }
    }
    Ok(counts)
}

// Counts a group at the links of a path group, at each once.
fn count_parts(counts: &mut [Count], parts: &[LinkPart], group: u32)
    ensures { length counts.new ≡ length counts.old }
{
    for part in parts {
        if let Some(count) = counts.get_mut(part.link as usize)
            && count.last != Some(group)
        {
            count.groups = count.groups.saturating_add(1);
            count.last = Some(group);
        }
    }
}

// A list with nothing in it for each link, with room for as many groups as were counted.
fn empty_lists(alloc: Global, counts: &[Count]) -> Result<Vec<LinkGroups>, OutOfMemory>
    ensures count { IfOk result (λ lists. length lists.items ≡ length counts.now) }
    ensures empty { IfOk result (λ lists. (link : ℕ) → listed_on lists.items link ≡ nothing) }
{
    let mut lists = Vec::with_capacity(alloc, counts.len())?;
    for count in counts {
        let room = count.groups as usize;
        lists.push(LinkGroups {
            groups: Vec::with_capacity(alloc, room)?,
            uses: Vec::with_capacity(alloc, room)?,
        })?;
    }
    Ok(lists)
}

// Lists each group at the links of its path groups.
fn list_groups(lists: &mut [LinkGroups], plan: &PathPlan) -> Result<(), OutOfMemory>
    requires links { (group place link : ℕ) → uses (path_group_at plan.now group place) link ≡ true
        → link < length lists.old }
    requires empty { (link : ℕ) → listed_on lists.old link ≡ nothing }
    ensures { OnOk result (AreListed plan.now lists.new) }
{
    for group in 0..plan.groups() {
        list_group(lists, plan, group)?;
    }
    Ok(())
}

// Lists a group, after those below it.
fn list_group(lists: &mut [LinkGroups], plan: &PathPlan, group: u32) -> Result<(), OutOfMemory>
    requires group { group < length plan.now }
    requires links { (place link : ℕ) → uses (path_group_at plan.now group place) link ≡ true
        → link < length lists.old }
    requires before { AreListedTo plan.now group 0 lists.old }
    ensures each_link { OnOk result (length lists.new ≡ length lists.old) }
    ensures after { OnOk result (AreListedTo plan.now (group + 1) 0 lists.new) }
{
    for place in 0..plan.places(group) {
        list_place(lists, plan, group, place)?;
    }
    Ok(())
}

// Lists a group at the links of a path group, after those below that.
fn list_place(
    lists: &mut [LinkGroups],
    plan: &PathPlan,
    group: u32,
    place: u32,
) -> Result<(), OutOfMemory>
    requires group { group < length plan.now }
    requires place { place < path_group_count plan.now group }
    requires links { (link : ℕ) → uses (path_group_at plan.now group place) link ≡ true
        → link < length lists.old }
    requires before { AreListedTo plan.now group place lists.old }
    ensures each_link { OnOk result (length lists.new ≡ length lists.old) }
    ensures after { OnOk result (AreListedTo plan.now group (place + 1) lists.new) }
{
    for part in plan.parts(group, place) {
        list_once(&mut lists[part.link as usize], group, place, *part)?;
    }
    Ok(())
}

// Lists the group with this path group of its, which uses the link of the list. Where it is listed
// with an earlier one, that is not the only one.
fn list_once(
    list: &mut LinkGroups,
    group: u32,
    place: u32,
    part: LinkPart,
) -> Result<(), OutOfMemory>
    ensures { (groups : List PathGroups) (link : ℕ)
        → IsPartOn (path_group_at groups group place) link part
        → IsListedTo groups link group place (listed_of list.old)
        → OnOk result (IsListedTo groups link group (place + 1) (listed_of list.new)) }
{
    if list.groups.last() == Some(&group) {
        if let Some(last) = list.uses.last_mut() {
            last.is_only = false;
        }
        return Ok(());
    }
    list.groups.push(group)?;
    list.uses.push(LinkUse {
        place,
        part,
        is_only: true,
    })?;
    Ok(())
}
