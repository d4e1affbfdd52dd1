//! What happens to a world, and what it answers.

/// What happens to a world of regions, with tables of the type `T`.
#[derive(Drop)]
pub enum WorldEvent<T> {
    /// The centre posts a table.
    Post { table: T },
    /// The centre sends the posted limits of a region's tasks to it.
    Send { region: u32 },
    /// The network delivers a message of the centre, maybe late or once more.
    Deliver { message: u64 },
    /// The network delivers a message of a region to the centre, maybe late or once more.
    Reply { message: u64 },
    /// A region starts again: it keeps its floor and loses its limits.
    Restart { region: u32 },
}

/// What an event answers. Messages to the regions and messages to the centre are numbered apart,
/// each from 0.
#[derive(Clone, Copy, Debug, PartialEq, Eq)]
pub enum WorldAnswer {
    /// How many reports the posted table covers.
    Posted { prefix: u64 },
    /// The number of the new message to the region, and how many reports its table covers.
    Sent { message: u64, prefix: u64 },
    /// The region took the limits; the number of its new message to the centre.
    Took { prefix: u64, up: u64 },
    /// The limits are older than the region's floor, and were dropped; the number of its new
    /// message to the centre.
    Older { floor: u64, up: u64 },
    /// What the region is known to have taken.
    Acked { prefix: u64 },
    /// The region's floor.
    Restarted { floor: u64 },
}
