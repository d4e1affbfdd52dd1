//! A reader.

/// The greatest revision of which a reader was told that it is posted, and the posted prefix that
/// it saw last.
#[derive(Clone, Copy, Debug, PartialEq, Eq)]
pub struct Reader {
    pub told: u64,
    pub seen: u64,
}
