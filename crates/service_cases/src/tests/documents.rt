//! The documents of the cases.

/// The document of the case "Three holds": each task has a reporter of its own, and the second
/// one reports twice.
pub const THREE_HOLDS: &str = "{\"version\":1,\"top\":100,\
    \"links\":[{\"name\":\"l0\",\"from\":\"a\",\"to\":\"b\",\"capacity\":100}],\
    \"groups\":[{\"name\":\"g0\",\"from\":\"a\",\"to\":\"b\",\"paths\":[[{\"weight\":1,\
    \"links\":[\"l0\"]}]],\
    \"users\":[{\"name\":\"u0\",\"jobs\":[{\"name\":\"j0\",\"task\":[[0,0],[100,100]],\
    \"tasks\":[{\"name\":\"t0\",\"reporter\":\"r0\"}]}]}]},\
    {\"name\":\"g1\",\"from\":\"a\",\"to\":\"b\",\"paths\":[[{\"weight\":1,\
    \"links\":[\"l0\"]}]],\
    \"users\":[{\"name\":\"u0\",\"jobs\":[{\"name\":\"j0\",\"task\":[[0,0],[100,100]],\
    \"tasks\":[{\"name\":\"t1\",\"reporter\":\"r1\"}]}]}]}],\"reporters\":[\"r0\",\"r1\"],\
    \"script\":[{\"reporter\":\"r0\",\"task\":\"t0\",\"demand\":80},\
    {\"reporter\":\"r1\",\"task\":\"t1\",\"demand\":80},\
    {\"reporter\":\"r1\",\"task\":\"t1\",\"demand\":40}]}";

/// A document without links, groups and reports.
pub const EMPTY: &str =
    "{\"version\":1,\"top\":1,\"links\":[],\"groups\":[],\"reporters\":[],\"script\":[]}";

/// That document as the first of two parts, of which the second is a line feed.
pub const EMPTY_IN_TWO_PARTS: &str =
    "71\n{\"version\":1,\"top\":1,\"links\":[],\"groups\":[],\"reporters\":[],\"script\":[]}\n";

/// Each member that a document may have.
pub const WHOLE: &str =
    "{\"version\":3,\"top\":100,\"links\":[{\"name\":\"l\\u0030\",\"from\":\"a\",\"to\":\"b\",\"capacity\":7,\"owner\":\"r0\"}],\"groups\":[{\"users\":[{\"name\":\"u\",\"jobs\":[{\"name\":\"j\",\"task\":[[0,0],[1,5]],\"tasks\":[{\"name\":\"t\",\"reporter\":\"r0\",\"weight\":2}]}]}],\"name\":\"g\",\"from\":\"a\",\"to\":\"b\",\"paths\":[[{\"weight\":1,\"links\":[\"l0\"]}]]}],\"reporters\":[\"r0\"],\"script\":[{\"reporter\":\"r0\",\"task\":\"t\",\"demand\":4},{\"capacity\":6,\"link\":\"l0\",\"reporter\":\"r0\"}]}";
