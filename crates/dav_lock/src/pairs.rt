ghost use Rattle.std.specs.Prelude.{◌≡◌, [], IfOk, OnOk, OnErr, option_copied};
ghost use Rattle.std.specs.BTreeMap.{insert_entry};
ghost use Rattle.dav_lock.specs.Pairs.{value_at, text_order};

use dav_io::{NoMemory, Text};
use std::alloc::Global;
use std::collections::BTreeMap;
use std::default::Emptied;
use std::marker::Model;

/// Attributes or namespaces: texts by name. A contract sees the list of its pairs, in the order of their names.
#[derive(Drop)]
pub struct Pairs {
    pairs: BTreeMap<Text, Text>,
}

impl Model for Pairs {
    ghost use Rattle.dav_lock.specs.Pairs.{Table};

    ghost Value = { Table };

    ghost view = { λ p. p.pairs.entries };
}

impl Pairs {
    /// The pairs of a map.
    pub fn new(pairs: BTreeMap<Text, Text>) -> Self
        ensures { result ≡ pairs.entries }
    {
        Pairs { pairs }
    }

    /// No pairs yet, from this allocator on.
    pub fn empty(alloc: Global) -> Self
        ensures { result ≡ [] }
    {
        Pairs {
            pairs: BTreeMap::new(alloc),
        }
    }

    /// The text at a name.
    pub fn get(&self, name: &Text) -> Option<&Text>
        ensures { option_copied result ≡ value_at name.now self.now }
    {
        self.pairs.get(name)
    }

    /// The text at a name that no `Text` holds. It looks at each pair in turn.
    pub fn find(&self, name: &str) -> Option<&Text>
        ensures { option_copied result ≡ value_at name.now self.now }
    {
        for (key, value) in self.pairs.iter() {
            if name.as_bytes().cmp(key.as_slice()).is_eq() {
                return Some(value);
            }
        }
        None
    }

    /// Puts a text at a name, in place of one that is there. Where memory is refused, nothing changes.
    pub fn put(&mut self, name: Text, value: Text) -> Result<(), NoMemory>
        ensures ok { OnOk result (self.new ≡ insert_entry text_order self.old name value) }
        ensures err { OnErr result (self.new ≡ self.old) }
    {
        self.pairs.insert(name, value)?;
        Ok(())
    }

    /// An equal list of pairs. It may be refused for want of memory.
    pub fn try_clone(&self) -> Result<Self, NoMemory>
        ensures { IfOk result (λ copy. copy ≡ self.now) }
    {
        let mut copy = Pairs {
            pairs: BTreeMap::emptied(&self.pairs)?,
        };
        for (name, value) in self.pairs.iter() {
            copy.put(name.try_clone()?, value.try_clone()?)?;
        }
        Ok(copy)
    }
}
