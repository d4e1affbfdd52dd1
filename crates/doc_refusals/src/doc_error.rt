//! Why a document is refused.

ghost use Rattle.std.specs.Prelude.{◌≡◌};

use bw_function::FunctionFault;
use bwe_specs::OutOfMemory;
use cluster_parts::BuildError;
use doc_passes::What;
use path_groups::PathFault;
use raw_document::{DocPath, Fault};
use std::fmt;
use tree_spec::TreeFault;
use wan_topology::TopologyFault;

/// The refusals of a document, in the order of their numbers, each with what it names. The one of
/// the lowest number is answered.
///
/// Refusals 2 to 7 name the first place in the order of the walk; `Limit` has the order of `What`,
/// and names the number found. `entry` is a place in the script, from 0. `OutOfMemory` has no
/// number that is printed.
#[derive(Drop)]
pub enum DocError {
    NotJson,
    Shape { path: DocPath },
    Limit { what: What, count: u64 },
    Range { path: DocPath },
    RepeatedName { path: DocPath },
    UnknownName { path: DocPath },
    Function { path: DocPath, cause: FunctionFault },
    Topology { cause: TopologyFault },
    Path { cause: PathFault },
    Tree { cause: TreeFault },
    NotOwner { entry: u64 },
    OutOfMemory,
}

// Says only that there is an error: `refusal_line` has the words, and no more is owed to a test
// that fails.
impl fmt::Debug for DocError {
    fn fmt<W: fmt::Write>(&self, f: &mut fmt::Formatter<W>) -> fmt::Result {
        f.write_str("a document was refused")
    }
}

impl From<OutOfMemory> for DocError {
    ghost use Rattle.doc_refusals.specs.declared.doc_error.DocError.TheVariants.{OutOfMemory};

    ghost from_gives = { λ _ error. error ≡ OutOfMemory };

    fn from(_error: OutOfMemory) -> DocError {
        DocError::OutOfMemory
    }
}

impl DocError {
    ghost use Rattle.doc_refusals.specs.Refusals.{IsRefusalBy, IsFunctionRefusal, bad_shape, out_of_range, repeated_name, unknown_name};

    /// A fault of the shape.
    pub fn shape(fault: Fault) -> DocError
        ensures { IsRefusalBy bad_shape fault result }
    {
        match fault {
            Fault::OutOfMemory => DocError::OutOfMemory,
            Fault::At(path) => DocError::Shape { path },
        }
    }

    /// A fault of a range.
    pub fn range(fault: Fault) -> DocError
        ensures { IsRefusalBy out_of_range fault result }
    {
        match fault {
            Fault::OutOfMemory => DocError::OutOfMemory,
            Fault::At(path) => DocError::Range { path },
        }
    }

    /// A name that stood before.
    pub fn repeated_name(fault: Fault) -> DocError
        ensures { IsRefusalBy repeated_name fault result }
    {
        match fault {
            Fault::OutOfMemory => DocError::OutOfMemory,
            Fault::At(path) => DocError::RepeatedName { path },
        }
    }

    /// A name that is none of the document.
    pub fn unknown_name(fault: Fault) -> DocError
        ensures { IsRefusalBy unknown_name fault result }
    {
        match fault {
            Fault::OutOfMemory => DocError::OutOfMemory,
            Fault::At(path) => DocError::UnknownName { path },
        }
    }

    /// A function that is refused.
    pub fn function(error: BuildError) -> DocError
        ensures { IsFunctionRefusal error result }
    {
        match error {
            BuildError::OutOfMemory => DocError::OutOfMemory,
            BuildError::Refused { path, cause } => DocError::Function { path, cause },
        }
    }
}
