//! Closings of links, and what is not right about a list of them.

/// A link that was closed, and the share at which it was.
#[derive(Clone, Copy, Debug, PartialEq, Eq, Drop)]
pub struct Closing {
    pub link: u32,
    pub share: u64,
}

/// Why a list of closings is not right, in the order in which the causes are looked at ("Right
/// closings", docs/DEFINITIONS.md).
///
/// All but the last speak of one closing, with the earlier ones in force.
#[derive(Clone, Copy, Debug, PartialEq, Eq, Drop)]
pub enum Cause {
    /// The network has no link of this number.
    NoSuchLink,
    /// The link stood in an earlier closing.
    Reclosed,
    /// The share is below that of the closing before.
    ShareFalls,
    /// The share is not below the top share.
    ShareAtTop,
    /// A link is over at the share itself; the lowest such link.
    OverBefore { link: u32 },
    /// The named link is not over at the next share.
    FitsAfter,
    /// A link lower than the named one is over at the next share; the lowest such link.
    LowerLink { link: u32 },
    /// After all closings a link is over at the top share; the lowest such link.
    OverAtTop { link: u32 },
}

/// What is said of a list of closings: right, or the place of the first closing at fault, from 0,
/// with its first cause.
///
/// With the cause `OverAtTop` the place is the number of closings.
#[derive(Clone, Copy, Debug, PartialEq, Eq, Drop)]
pub enum Verdict {
    Right,
    Wrong { at: u64, cause: Cause },
}
