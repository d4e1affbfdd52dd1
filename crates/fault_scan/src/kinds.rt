//! The kinds of values in a document.

ghost use Rattle.std.specs.Prelude.{◌≡◌};
ghost use Rattle.fault_scan.specs.Kinds.{is_number, takes_all, takes_number, takes_text};

use raw_document::DocKey;

/// What a value has to be.
#[derive(Clone, Copy)]
pub enum Kind {
    /// Anything.
    Any,
    Text,
    Whole,
    /// The version that the document was taken to be of.
    Version,
    Point,
    List(Many),
    Object(Form),
    /// An entry of the script, which has two forms.
    Entry,
}

/// A list, by what its items are.
#[derive(Clone, Copy)]
pub enum Many {
    Points,
    Names,
    Paths,
    PathGroups,
    Links,
    Groups,
    Users,
    Jobs,
    Tasks,
    Entries,
    Closings,
}

/// An object, by the table of its keys.
#[derive(Clone, Copy)]
pub enum Form {
    Link,
    Path,
    Task,
    Job,
    User,
    Group,
    Closing,
    /// A document that was taken to be of a version.
    Dated,
    /// A document whose version was taken to be no whole number.
    Undated,
}

/// A key of a table, and what its member has to be.
#[derive(Clone, Copy)]
pub struct Field {
    pub key: DocKey,
    pub is_required: bool,
    pub kind: Kind,
}

impl Kind {
    /// Whether a text is of the kind.
    pub fn takes_text(self) -> bool
        ensures { result ≡ takes_text self }
    {
        matches!(self, Kind::Any | Kind::Text)
    }

    /// Whether a number is of the kind, of which `whole` is known.
    pub fn takes_number(self, version: u64, whole: Option<u64>) -> bool
        ensures { result ≡ takes_number version self whole }
    {
        match self {
            Kind::Any => true,
            Kind::Whole => whole.is_some(),
            Kind::Version => is_number(version, whole),
            Kind::Text | Kind::Point | Kind::List(_) | Kind::Object(_) | Kind::Entry => false,
        }
    }

    /// Whether every value is of the kind.
    pub fn takes_all(self) -> bool
        ensures { result ≡ takes_all self }
    {
        matches!(self, Kind::Any)
    }
}

fn is_number(version: u64, whole: Option<u64>) -> bool
    ensures { result ≡ is_number version whole }
{
    match whole {
        Some(number) => number == version,
        None => false,
    }
}
