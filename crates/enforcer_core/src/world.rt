//! The world of a centre, its regions and the network between them.

ghost use Rattle.std.specs.Prelude.{◌≡◌, ◌<◌, ◌^◌, IfOk, OnErr, OnOk, None, length, replicate};
ghost use Rattle.std.specs.List.{All};
ghost use Rattle.bwe_specs.specs.Lists.{lists_of};
ghost use Rattle.enforcer_core.specs.World.{IsMeant, acked_at, answer_to, first_world, limit_in_force, prefix_in_force, region_at, settled_of, tasks_at, world_after};

use crate::centre::Centre;
use crate::event::{WorldAnswer, WorldEvent};
use crate::region::{Region, RegionLimits};
use bwe_specs::OutOfMemory;
use demand_book::Posted;
use std::alloc::Global;
use std::marker::Model;

// A message from the centre to a region.
#[derive(Drop)]
struct DownMessage {
    region: u32,
    limits: RegionLimits,
}

impl Model for DownMessage {
    ghost use Rattle.enforcer_core.specs.World.{Down};

    ghost Value = { Down };

    ghost view = { λ down. record { region = down.region; limits = down.limits } };
}

// A message from a region to the centre.
#[derive(Drop)]
struct UpMessage {
    region: u32,
    floor: u64,
}

impl Model for UpMessage {
    ghost use Rattle.enforcer_core.specs.World.{Up};

    ghost Value = { Up };

    ghost view = { λ up. record { region = up.region; floor = up.floor } };
}

/// A centre that posts tables, regions that keep to them, and every message that was ever sent
/// between them.
///
/// The network may lose, repeat and reorder messages: which are delivered, and when, is up to the
/// events.
#[derive(Drop)]
pub struct World<T: Posted> {
    tasks: Vec<Vec<u32>>,
    centre: Centre<T>,
    regions: Vec<Region>,
    downs: Vec<DownMessage>,
    ups: Vec<UpMessage>,
}

impl<T: Posted> Model for World<T> {
    ghost use Rattle.std.specs.Prelude.{map};
    ghost use Rattle.bwe_specs.specs.Lists.{lists_of};
    ghost use Rattle.enforcer_core.specs.World.{IsWhole, World as WorldView};

    ghost Value = { WorldView T };

    ghost view = { λ world. record {
      tasks = lists_of world.tasks.items;
      posted = world.centre.posted;
      acked = world.centre.acked;
      regions = world.regions.items;
      downs = world.downs.items;
      ups = world.ups.items;
    } };

    ghost invariant = { λ world. IsWhole (T.tasks_of (T.frame world.centre.posted)) (record {
      tasks = lists_of world.tasks.items;
      posted = world.centre.posted;
      acked = world.centre.acked;
      regions = world.regions.items;
      downs = world.downs.items;
      ups = world.ups.items;
    }) };
}

impl<T: Posted> World<T> {
    /// The world before any event: `first` is posted, each floor is 0 and nothing is in force.
    ///
    /// There is a region for each list of tasks, with these tasks in this order.
    pub fn new(alloc: Global, regions: Vec<Vec<u32>>, first: T) -> Result<World<T>, OutOfMemory>
        requires tasks { All (λ tasks. All (λ task. task < T.tasks_of (T.frame first)) tasks)
            (lists_of regions.items) }
        requires first { T.covers first ≡ 0 }
        ensures { IfOk result (λ world. world ≡ first_world (lists_of regions.items) first) }
    {
        let count = regions.len();
        let centre = Centre::new(alloc, count, first)?;
        Ok(World {
            tasks: regions,
            centre,
            regions: new_regions(alloc, count)?,
            downs: Vec::new(alloc),
            ups: Vec::new(alloc),
        })
    }

    /// One event of World. A post, a reply and a restart take no memory.
    pub fn step(&mut self, alloc: Global, event: WorldEvent<T>) -> Result<WorldAnswer, OutOfMemory>
        requires meant { IsMeant T.frame T.covers self.old event }
        ensures answer { IfOk result (λ answer. answer ≡ answer_to T.covers self.old event) }
        ensures world { OnOk result (self.new ≡ world_after T.covers T.limit_at self.old event) }
        ensures refused { OnErr result (self.new ≡ self.old) }
    {
        match event {
            WorldEvent::Post { table } => Ok(self.post(table)),
            WorldEvent::Send { region } => self.send(alloc, region),
            WorldEvent::Deliver { message } => self.deliver(alloc, message),
            WorldEvent::Reply { message } => Ok(self.reply(message)),
            WorldEvent::Restart { region } => Ok(self.restart(region)),
        }
    }

    // The centre posts a table.
    fn post(&mut self, table: T) -> WorldAnswer
        requires meant { IsMeant T.frame T.covers self.old (WorldEvent.Post table) }
        ensures answer { result ≡ answer_to T.covers self.old (WorldEvent.Post table) }
        ensures world { self.new
            ≡ world_after T.covers T.limit_at self.old (WorldEvent.Post table) }
    {
        self.centre.post(table);
        WorldAnswer::Posted {
            prefix: self.centre.posted(),
        }
    }

    // The centre sends a region its limits.
    #[tactic(auto, using(crate::proofs::Whole::one_down_more, crate::proofs::Whole::limits_for))]
    fn send(&mut self, alloc: Global, region: u32) -> Result<WorldAnswer, OutOfMemory>
        requires region { region < length self.old.tasks }
        ensures answer { IfOk result
            (λ answer. answer ≡ answer_to T.covers self.old (WorldEvent.Send region)) }
        ensures world { OnOk result
            (self.new ≡ world_after T.covers T.limit_at self.old (WorldEvent.Send region)) }
        ensures refused { OnErr result (self.new ≡ self.old) }
    {
        let message = self.downs.len() as u64;
        let limits = self.centre.limits(alloc, self.tasks(region))?;
        self.downs.push(DownMessage { region, limits })?;
        Ok(WorldAnswer::Sent {
            message,
            prefix: self.centre.posted(),
        })
    }

    // A region is delivered limits, and tells its floor.
    fn deliver(&mut self, alloc: Global, message: u64) -> Result<WorldAnswer, OutOfMemory>
        requires message { message < length self.old.downs }
        ensures answer { IfOk result
            (λ answer. answer ≡ answer_to T.covers self.old (WorldEvent.Deliver message)) }
        ensures world { OnOk result
            (self.new ≡ world_after T.covers T.limit_at self.old (WorldEvent.Deliver message)) }
        ensures refused { OnErr result (self.new ≡ self.old) }
    {
        let up = self.ups.len() as u64;
        let down = &self.downs[message as usize];
        let region = down.region;
        let limits = down.limits.copy(alloc)?;
        let prefix = limits.prefix();
        let floor = self.regions[region as usize].floor_after(prefix);
        self.ups.push(UpMessage { region, floor })?;
        if self.regions[region as usize].take(limits) {
            Ok(WorldAnswer::Took { prefix, up })
        } else {
            Ok(WorldAnswer::Older { floor, up })
        }
    }

    // The centre is told a region's floor.
    fn reply(&mut self, message: u64) -> WorldAnswer
        requires message { message < length self.old.ups }
        ensures answer { result ≡ answer_to T.covers self.old (WorldEvent.Reply message) }
        ensures world { self.new
            ≡ world_after T.covers T.limit_at self.old (WorldEvent.Reply message) }
    {
        let up = &self.ups[message as usize];
        let (region, floor) = (up.region, up.floor);
        WorldAnswer::Acked {
            prefix: self.centre.acknowledge(region, floor),
        }
    }

    // A region starts again.
    fn restart(&mut self, region: u32) -> WorldAnswer
        requires region { region < length self.old.tasks }
        ensures answer { result ≡ answer_to T.covers self.old (WorldEvent.Restart region) }
        ensures world { self.new
            ≡ world_after T.covers T.limit_at self.old (WorldEvent.Restart region) }
    {
        let region = &mut self.regions[region as usize];
        region.restart();
        WorldAnswer::Restarted {
            floor: region.floor(),
        }
    }

    /// How many regions there are.
    pub fn regions(&self) -> u32
        requires few { length self.now.tasks < 2 ^ 32 }
        ensures { result ≡ length self.now.tasks }
    {
        self.tasks.len() as u32
    }

    /// The posted table.
    pub fn posted(&self) -> &T
        ensures { result.now ≡ self.now.posted }
    {
        self.centre.table()
    }

    /// How many messages were sent to regions, lost ones too.
    pub fn downs(&self) -> u64
        ensures { result ≡ length self.now.downs }
    {
        self.downs.len() as u64
    }

    /// How many messages were sent to the centre, lost ones too.
    pub fn ups(&self) -> u64
        ensures { result ≡ length self.now.ups }
    {
        self.ups.len() as u64
    }

    /// The region's tasks. Each posted table has a limit for each of them.
    #[tactic(auto, using(crate::proofs::Whole::row_fits))]
    pub fn tasks(&self, region: u32) -> &[u32]
        requires region { region < length self.now.tasks }
        ensures tasks { result.now ≡ tasks_at self.now region }
        ensures fit { All (λ task. task < T.tasks_of (T.frame self.now.posted)) result.now }
    {
        self.tasks[region as usize].as_slice()
    }

    /// The region's floor: how many reports the last table covered whose limits it took. It takes
    /// no older limits.
    pub fn floor(&self, region: u32) -> u64
        requires region { region < length self.now.tasks }
        ensures { result ≡ (region_at self.now region).floor }
    {
        self.regions[region as usize].floor()
    }

    /// What the centre knows of the region's floor.
    pub fn acked(&self, region: u32) -> u64
        requires region { region < length self.now.tasks }
        ensures { result ≡ acked_at self.now region }
    {
        self.centre.acked(region)
    }

    /// The least that a region acknowledged, or the posted prefix where there is no region: no
    /// region will put in force a table of fewer reports any more (`world_law`).
    pub fn settled(&self) -> u64
        ensures { result ≡ settled_of T.covers self.now }
    {
        self.centre.settled()
    }

    /// How many reports the table covers whose limits are in force in the region, `None` exactly
    /// where it took no message since it began or last restarted.
    pub fn in_force(&self, region: u32) -> Option<u64>
        requires region { region < length self.now.tasks }
        ensures { result ≡ prefix_in_force self.now region }
    {
        let limits = self.regions[region as usize].in_force()?;
        Some(limits.prefix())
    }

    /// The limit in force for the task at an index of the region's tasks, in kilobits per second,
    /// `None` exactly where nothing is in force.
    pub fn limit(&self, region: u32, place: u32) -> Option<u64>
        requires region { region < length self.now.tasks }
        requires place { place < length (tasks_at self.now region) }
        ensures { result ≡ limit_in_force self.now region place }
    {
        let limits = self.regions[region as usize].in_force()?;
        Some(limits.limit(place))
    }
}

// So many regions with nothing in force.
fn new_regions(alloc: Global, count: usize) -> Result<Vec<Region>, OutOfMemory>
    ensures { IfOk result
        (λ regions. regions.items ≡ replicate count (record { floor = 0; in_force = None })) }
{
    let mut regions = Vec::with_capacity(alloc, count)?;
    for _ in 0..count {
        regions.push(Region::new())?;
    }
    Ok(regions)
}
