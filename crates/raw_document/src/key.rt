//! The keys of a document's objects.

ghost use Rattle.std.specs.Prelude.{◌≡◌};
ghost use Rattle.raw_document.specs.Words.{word};

/// A key of the table of a document's objects. A key outside the table never stands in a path.
#[derive(Clone, Copy)]
pub enum DocKey {
    Version,
    Top,
    Links,
    Groups,
    Reporters,
    Script,
    Closings,
    Name,
    From,
    To,
    Capacity,
    Owner,
    Function,
    Paths,
    Users,
    Weight,
    Jobs,
    Task,
    Tasks,
    Reporter,
    Demand,
    Link,
    Share,
}

impl DocKey {
    /// The key as it stands in the text.
    #[tactic(auto, unfolding(crate::specs::Words::word))]
    pub fn text(self) -> &'static str
        ensures { result.now ≡ word self }
    {
        match self {
            DocKey::Version => "version",
            DocKey::Top => "top",
            DocKey::Links => "links",
            DocKey::Groups => "groups",
            DocKey::Reporters => "reporters",
            DocKey::Script => "script",
            DocKey::Closings => "closings",
            DocKey::Name => "name",
            DocKey::From => "from",
            DocKey::To => "to",
            DocKey::Capacity => "capacity",
            DocKey::Owner => "owner",
            DocKey::Function => "function",
            DocKey::Paths => "paths",
            DocKey::Users => "users",
            DocKey::Weight => "weight",
            DocKey::Jobs => "jobs",
            DocKey::Task => "task",
            DocKey::Tasks => "tasks",
            DocKey::Reporter => "reporter",
            DocKey::Demand => "demand",
            DocKey::Link => "link",
            DocKey::Share => "share",
        }
    }
}
