// The places of rows, by their paths.
ghost use Rattle.std.specs.Prelude.{◌≡◌, ℕ, List, None, IfOk, OnOk, OnErr};
ghost use Rattle.std.specs.Option.{ForSome};
ghost use Rattle.std.specs.BTreeMap.{keys, IsOrdered};
ghost use Rattle.std.specs.Cmp.Lexicographic.{slice_cmp};
ghost use Rattle.std.specs.Ordering.{nat_cmp};
ghost use Rattle.std.specs.Arc.{arc_value};
ghost use Rattle.std.proofs.Props.{props};
ghost use Rattle.dav_disk.specs.Members.{AreNamesIn};

use dav_core::copied_names;
use dav_io::{NoMemory, Text};
use std::alloc::Global;
use std::collections::BTreeMap;
use std::sync::Arc;

// The names in the directory that was listed last, in order of their bytes.
#[derive(Drop)]
struct Listed {
    dir: Vec<Text>,
    names: Arc<Vec<Text>>,
}

// For each directory, the places of its members by their names. What was listed last is kept until a name gets a place,
// so that one who lists a directory again and again copies its names once.
#[derive(Drop)]
pub struct Places {
    dirs: BTreeMap<Vec<Text>, BTreeMap<Text, usize>>,
    listed: Option<Listed>,
    ghost last: { ForSome listed (λ l. AreNamesIn dirs l.dir.items (arc_value l.names).items) } by { Prim.hlevel props },
}

// The names of members, in order of their bytes.
fn names_of(alloc: Global, members: &BTreeMap<Text, usize>) -> Result<Vec<Text>, NoMemory>
    ensures names { IfOk result (λ v. v.items ≡ keys members.now) }
    ensures ordered { IsOrdered (slice_cmp nat_cmp) members.now }
{
    let mut names = Vec::with_capacity(alloc, members.len())?;
    for name in members.keys() {
        names.push(name.try_clone()?)?;
    }
    Ok(names)
}

impl Places {
    ghost use Rattle.dav_disk.specs.Places.{place_in, IsAdded, IsKept};

    // No place.
    pub fn new(alloc: Global) -> Self
        ensures { (dir : List (List ℕ)) (name : List ℕ) → place_in result dir name ≡ None }
    {
        Places {
            dirs: BTreeMap::new(alloc),
            listed: None,
        }
    }

    // The place of a name in a directory.
    pub fn place(&self, dir: &[Text], name: &Text) -> Option<usize>
        ensures { result ≡ place_in self.now dir.now name.now }
    {
        match self.dirs.get(dir) {
            Some(members) => members.get(name).copied(),
            None => None,
        }
    }

    // Gives a name that has none a place.
    fn put(
        &mut self,
        alloc: Global,
        dir: &[Text],
        name: &Text,
        place: usize,
    ) -> Result<(), NoMemory>
        requires { place_in self.old dir.now name.now ≡ None }
        ensures ok { OnOk result (IsAdded dir.now name.now place self.old self.new) }
        ensures err { OnErr result (IsKept self.old self.new) }
    {
        let name = name.try_clone()?;
        self.listed = None;
        if let Some(members) = self.dirs.get_mut(dir) {
            members.insert(name, place)?;
            return Ok(());
        }
        let mut members = BTreeMap::new(alloc);
        members.insert(name, place)?;
        self.dirs.insert(copied_names(alloc, dir)?, members)?;
        Ok(())
    }

    // Gives a name a place. One that has a place keeps it.
    pub fn add(
        &mut self,
        alloc: Global,
        dir: &[Text],
        name: &Text,
        place: usize,
    ) -> Result<(), NoMemory>
        ensures ok { OnOk result (IsAdded dir.now name.now place self.old self.new) }
        ensures err { OnErr result (IsKept self.old self.new) }
    {
        if self.place(dir, name).is_some() {
            return Ok(());
        }
        self.put(alloc, dir, name, place)
    }

    // A copy of the names that have a place in a directory.
    fn copied_names(&self, alloc: Global, dir: &[Text]) -> Result<Vec<Text>, NoMemory>
        ensures { IfOk result (λ v. AreNamesIn self.now.dirs dir.now v.items) }
    {
        match self.dirs.get(dir) {
            Some(members) => Ok(names_of(alloc, members)?),
            None => Ok(Vec::new(alloc)),
        }
    }

    // The names that have a place in a directory, in order of their bytes.
    pub fn names(&mut self, alloc: Global, dir: &[Text]) -> Result<Arc<Vec<Text>>, NoMemory>
        ensures names { IfOk result (λ names. AreNamesIn self.old.dirs dir.now (arc_value names).items) }
        ensures kept { self.new.dirs ≡ self.old.dirs }
    {
        if let Some(listed) = &self.listed {
            if listed.dir.as_slice() == dir {
                return Ok(listed.names.clone()?);
            }
        }
        let names = Arc::new(alloc, self.copied_names(alloc, dir)?)?;
        self.listed = Some(Listed {
            dir: copied_names(alloc, dir)?,
            names: names.clone()?,
        });
        Ok(names)
    }
}
