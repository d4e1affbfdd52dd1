//! The table of keys of each object, and the kind of each list's items.

ghost use Rattle.std.specs.Prelude.{◌≡◌};
ghost use Rattle.fault_scan.specs.Tables.{entry_fields, fields_at, fields_of, item_at, item_of};

use crate::kinds::{Field, Form, Kind, Many};
use raw_document::DocKey;

const NAME: Field = Field {
    key: DocKey::Name,
    is_required: true,
    kind: Kind::Text,
};

const FROM: Field = Field {
    key: DocKey::From,
    is_required: true,
    kind: Kind::Text,
};

const TO: Field = Field {
    key: DocKey::To,
    is_required: true,
    kind: Kind::Text,
};

const CAPACITY: Field = Field {
    key: DocKey::Capacity,
    is_required: true,
    kind: Kind::Whole,
};

const OWNER: Field = Field {
    key: DocKey::Owner,
    is_required: false,
    kind: Kind::Text,
};

const PATH_WEIGHT: Field = Field {
    key: DocKey::Weight,
    is_required: true,
    kind: Kind::Whole,
};

const PATH_LINKS: Field = Field {
    key: DocKey::Links,
    is_required: true,
    kind: Kind::List(Many::Names),
};

const REPORTER: Field = Field {
    key: DocKey::Reporter,
    is_required: true,
    kind: Kind::Text,
};

const WEIGHT: Field = Field {
    key: DocKey::Weight,
    is_required: false,
    kind: Kind::Whole,
};

const FUNCTION: Field = Field {
    key: DocKey::Function,
    is_required: false,
    kind: Kind::List(Many::Points),
};

const TASK_FUNCTION: Field = Field {
    key: DocKey::Task,
    is_required: true,
    kind: Kind::List(Many::Points),
};

const TASKS: Field = Field {
    key: DocKey::Tasks,
    is_required: true,
    kind: Kind::List(Many::Tasks),
};

const JOBS: Field = Field {
    key: DocKey::Jobs,
    is_required: true,
    kind: Kind::List(Many::Jobs),
};

const PATHS: Field = Field {
    key: DocKey::Paths,
    is_required: true,
    kind: Kind::List(Many::PathGroups),
};

const USERS: Field = Field {
    key: DocKey::Users,
    is_required: true,
    kind: Kind::List(Many::Users),
};

const LINK_NAME: Field = Field {
    key: DocKey::Link,
    is_required: true,
    kind: Kind::Text,
};

const SHARE: Field = Field {
    key: DocKey::Share,
    is_required: true,
    kind: Kind::Whole,
};

const TASK_NAME: Field = Field {
    key: DocKey::Task,
    is_required: true,
    kind: Kind::Text,
};

const DEMAND: Field = Field {
    key: DocKey::Demand,
    is_required: true,
    kind: Kind::Whole,
};

const VERSION: Field = Field {
    key: DocKey::Version,
    is_required: true,
    kind: Kind::Version,
};

const ANY_VERSION: Field = Field {
    key: DocKey::Version,
    is_required: true,
    kind: Kind::Whole,
};

const TOP: Field = Field {
    key: DocKey::Top,
    is_required: true,
    kind: Kind::Whole,
};

const LINKS: Field = Field {
    key: DocKey::Links,
    is_required: true,
    kind: Kind::List(Many::Links),
};

const GROUPS: Field = Field {
    key: DocKey::Groups,
    is_required: true,
    kind: Kind::List(Many::Groups),
};

const REPORTERS: Field = Field {
    key: DocKey::Reporters,
    is_required: true,
    kind: Kind::List(Many::Names),
};

const SCRIPT: Field = Field {
    key: DocKey::Script,
    is_required: true,
    kind: Kind::List(Many::Entries),
};

const CLOSINGS: Field = Field {
    key: DocKey::Closings,
    is_required: false,
    kind: Kind::List(Many::Closings),
};

const LINK_1: [Field; 4] = [NAME, FROM, TO, CAPACITY];

const LINK: [Field; 5] = [NAME, FROM, TO, CAPACITY, OWNER];

const PATH: [Field; 2] = [PATH_WEIGHT, PATH_LINKS];

const TASK_1: [Field; 2] = [NAME, REPORTER];

const TASK: [Field; 3] = [NAME, REPORTER, WEIGHT];

const JOB: [Field; 4] = [NAME, FUNCTION, TASK_FUNCTION, TASKS];

const USER: [Field; 3] = [NAME, FUNCTION, JOBS];

const GROUP: [Field; 6] = [NAME, FROM, TO, FUNCTION, PATHS, USERS];

const ENTRY: [Field; 5] = [REPORTER, TASK_NAME, DEMAND, LINK_NAME, CAPACITY];

const CLOSING: [Field; 2] = [LINK_NAME, SHARE];

const DATED: [Field; 7] = [VERSION, TOP, LINKS, GROUPS, REPORTERS, SCRIPT, CLOSINGS];

const UNDATED: [Field; 7] = [ANY_VERSION, TOP, LINKS, GROUPS, REPORTERS, SCRIPT, CLOSINGS];

#[tactic(auto, unfolding(crate::specs::Tables::fields_of))]
fn fields_of(form: Form, version: u64) -> &'static [Field]
    ensures { result.now ≡ fields_of version form }
{
    match form {
        Form::Link if version == 1 => &LINK_1,
        Form::Link => &LINK,
        Form::Path => &PATH,
        Form::Task if version == 1 || version == 2 => &TASK_1,
        Form::Task => &TASK,
        Form::Job => &JOB,
        Form::User => &USER,
        Form::Group => &GROUP,
        Form::Closing => &CLOSING,
        Form::Dated => &DATED,
        Form::Undated => &UNDATED,
    }
}

/// The table of an object of the kind. One that may have any members has none.
#[tactic(auto, unfolding(crate::specs::Tables::fields_at))]
pub fn fields_at(kind: Kind, version: u64) -> &'static [Field]
    ensures { result.now ≡ fields_at version kind }
{
    match kind {
        Kind::Object(form) => fields_of(form, version),
        Kind::Entry => &ENTRY,
        Kind::Any | Kind::Text | Kind::Whole | Kind::Version | Kind::Point | Kind::List(_) => &[],
    }
}

fn item_of(items: Many) -> Kind
    ensures { result ≡ item_of items }
{
    match items {
        Many::Points => Kind::Point,
        Many::Names => Kind::Text,
        Many::Paths => Kind::Object(Form::Path),
        Many::PathGroups => Kind::List(Many::Paths),
        Many::Links => Kind::Object(Form::Link),
        Many::Groups => Kind::Object(Form::Group),
        Many::Users => Kind::Object(Form::User),
        Many::Jobs => Kind::Object(Form::Job),
        Many::Tasks => Kind::Object(Form::Task),
        Many::Entries => Kind::Entry,
        Many::Closings => Kind::Object(Form::Closing),
    }
}

/// The kind of the items of a list of the kind.
#[tactic(auto, unfolding(crate::specs::Tables::item_at))]
pub fn item_at(kind: Kind) -> Kind
    ensures { result ≡ item_at kind }
{
    match kind {
        Kind::List(items) => item_of(items),
        Kind::Point => Kind::Whole,
        Kind::Any | Kind::Text | Kind::Whole | Kind::Version | Kind::Object(_) | Kind::Entry =>
            Kind::Any,
    }
}
