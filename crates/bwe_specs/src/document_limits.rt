//! The limits that a document has by its version.

ghost use Rattle.std.specs.Prelude.{◌≡◌, ◌≤◌};
ghost use Rattle.bwe_specs.specs.DocumentLimits.{limits_of};

use crate::limits::{
    MAX_ALL_HOPS, MAX_CLOSINGS, MAX_GROUPS, MAX_LINKS, MAX_REPORTERS, MAX_REPORTS, MAX_TASKS,
};

/// How many there may be, at most, of what a document of version 4 may have more of.
///
/// `hops` are all entries of all lists of links of paths.
#[derive(Clone, Copy, Debug, PartialEq, Eq, Drop)]
pub struct DocumentLimits {
    pub links: u64,
    pub groups: u64,
    pub tasks: u64,
    pub hops: u64,
    pub reporters: u64,
    pub reports: u64,
    pub closings: u64,
}

impl DocumentLimits {
    /// Those of a document of this version. All versions but 4 have those of versions 1 to 3,
    /// also the ones that are refused.
    pub fn of(version: u64) -> DocumentLimits
        ensures of { result ≡ limits_of version }
        ensures links { result.links ≤ MAX_LINKS }
        ensures groups { result.groups ≤ MAX_GROUPS }
        ensures tasks { result.tasks ≤ MAX_TASKS }
        ensures hops { result.hops ≤ MAX_ALL_HOPS }
        ensures reporters { result.reporters ≤ MAX_REPORTERS }
        ensures reports { result.reports ≤ MAX_REPORTS }
        ensures closings { result.closings ≤ MAX_CLOSINGS }
    {
        if version == 4 {
            DocumentLimits {
                links: MAX_LINKS,
                groups: MAX_GROUPS,
                tasks: MAX_TASKS,
                hops: MAX_ALL_HOPS,
                reporters: MAX_REPORTERS as u64,
                reports: MAX_REPORTS,
                closings: MAX_CLOSINGS,
            }
        } else {
            DocumentLimits {
                links: 4_096,
                groups: 1_024,
                tasks: 20_000,
                hops: 1_000_000,
                reporters: 64,
                reports: 200_000,
                closings: 4_096,
            }
        }
    }
}
