//! Names, each with its number.

ghost use Rattle.std.specs.Prelude.{◌≡◌, IfOk};
ghost use Rattle.text_scan.specs.Names.{number_in, IsIndexOf, IsNumberOf};

use bwe_specs::OutOfMemory;
use doc_names::NameList;
use std::alloc::Global;
use std::collections::HashMap;

/// The numbers of names. A name's number is the first index at which it stands, and nothing else
/// has one.
#[derive(Drop)]
pub struct NameIndex {
    numbers: HashMap<String, u32>,
}

impl NameIndex {
    /// Numbers the names. Takes about the time of one hash for each, and keeps a copy of each.
    pub fn new(alloc: Global, names: &NameList) -> Result<NameIndex, OutOfMemory>
        ensures { IfOk result (IsIndexOf names.now) }
    {
        let mut numbers = HashMap::new(alloc);
        for place in 0..names.len() {
            let name = names.name(place);
            if !numbers.contains_key(name) {
                let Ok(number) = u32::try_from(place) else {
                    return Err(OutOfMemory);
                };
                numbers.insert(String::from_str(alloc, name)?, number)?;
            }
        }
        Ok(NameIndex { numbers })
    }

    /// The number of the name, `None` where it does not stand. Takes about the time of one hash.
    pub fn number(&self, name: &str) -> Option<u32>
        ensures { result ≡ number_in self.now name.now }
    {
        self.numbers.get(name).copied()
    }

    /// The number of a name of bytes, `None` where it does not stand, as where it is no UTF-8.
    pub fn number_of_bytes(&self, name: &[u8]) -> Option<u32>
        ensures { IsNumberOf self.now name.now result }
    {
        match std::str::from_utf8(name) {
            Ok(name) => self.number(name),
            Err(_) => None,
        }
    }
}
