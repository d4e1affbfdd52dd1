//! The names of a document, for the texts that are made of its tables, and the owners of its tasks
//! and links.
//!
//! Reading a document makes them; the texts of tables and runs print them. A name's place in its
//! list is the number of what it names. `texts_of` (`specs/NameTexts.antt`) is what contracts see
//! of them. Nothing is promised here of names: a text says which lists have to be long enough. Who
//! may report what is said by `owner_of`, `is_owner` and `find_not_owned` (`specs/Owners.antt`).
#![tactic(auto)]

mod name_list;
mod owners;

pub use name_list::NameList;
pub use owners::{find_not_owned, is_owner, owner_of};

/// The names of a document's links, groups, tasks and reporters, each list in the order of their
/// numbers.
#[derive(Debug, Drop)]
pub struct Names {
    pub links: NameList,
    pub groups: NameList,
    pub tasks: NameList,
    pub reporters: NameList,
}
