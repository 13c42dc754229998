// Rows in their order, which are found by their paths.
ghost use Rattle.std.specs.Prelude.{◌≡◌, ◌++◌, ◌∷◌, [], map, option_map, IfOk, OnOk, OnErr, true};
ghost use Rattle.std.specs.List.Sorted.{IsPermutation};
ghost use Rattle.std.specs.Arc.{arc_value};
ghost use Rattle.dav_core.specs.Changes.{timed_row, without};
ghost use Rattle.dav_core.specs.Edits.{timed_number};
ghost use Rattle.dav_core.specs.Listing.{names_in as the_names_in};
ghost use Rattle.dav_core.specs.Tree.{row_at as the_row_at, is_tree};
ghost use Rattle.dav_disk.specs.Listings.{AreSorted};

use crate::paths::{copy_rows, rows_without, set_time, set_times};
use crate::places::Places;
use crate::rows::put_row;
use dav_core::{FileTime, Row};
use dav_io::{NoMemory, Text};
use std::alloc::Global;
use std::marker::Model;
use std::sync::Arc;

// Rows with the places at which they stand. A contract sees the rows.
#[derive(Drop)]
pub struct IndexedRows {
    items: Vec<Row>,
    places: Places,
}

impl Model for IndexedRows {
    ghost use Rattle.std.specs.Prelude.{List};
    ghost use Rattle.dav_core.specs.declared.tree.Row.{Row};
    ghost use Rattle.dav_disk.specs.Places.{Indexes};

    ghost Value = { List Row };

    ghost view = { λ r. r.items.items };

    ghost invariant = { λ r. Indexes r.places r.items.items };
}

impl IndexedRows {
    // No rows.
    pub fn new(alloc: Global) -> Self
        ensures { result ≡ [] }
    {
        IndexedRows {
            items: Vec::new(alloc),
            places: Places::new(alloc),
        }
    }

    // These rows.
    pub fn of(rows: Vec<Row>) -> Result<Self, NoMemory>
        ensures { IfOk result (λ all. all ≡ rows.items) }
    {
        let alloc: Global = *rows.allocator();
        let mut all = IndexedRows::new(alloc);
        for row in rows {
            all.push(row)?;
        }
        Ok(all)
    }

    // The rows, in their order.
    pub fn as_slice(&self) -> &[Row]
        ensures { result.now ≡ self.now }
    {
        self.items.as_slice()
    }

    // What their memory is taken from.
    pub fn allocator(&self) -> Global {
        *self.items.allocator()
    }

    // A copy of its own.
    pub fn try_clone(&self) -> Result<Self, NoMemory>
        ensures { IfOk result (λ copy. copy ≡ self.now) }
    {
        IndexedRows::of(copy_rows(self.allocator(), self.as_slice())?)
    }

    // The row at a path.
    pub fn find(&self, path: &[Text]) -> Option<&Row>
        ensures { option_map (λ r. r.now) result ≡ the_row_at self.now path.now }
    {
        let Some((name, dir)) = path.split_last() else {
            // The root has no name, and stands first.
            return dav_core::row_at(&self.items, path);
        };
        match self.places.place(dir, name) {
            Some(place) => Some(&self.items[place]),
            None => None,
        }
    }

    // Appends a row.
    pub fn push(&mut self, row: Row) -> Result<(), NoMemory>
        ensures ok { OnOk result (self.new ≡ self.old ++ row ∷ []) }
        ensures err { OnErr result (self.new ≡ self.old) }
    {
        let alloc = self.allocator();
        self.items.reserve(1)?;
        if let Some((name, dir)) = row.path.as_slice().split_last() {
            self.places.add(alloc, dir, name, self.items.len())?;
        }
        put_row(&mut self.items, row);
        Ok(())
    }

    // Sets the time of the row at a path.
    pub fn set_time(&mut self, path: &[Text], time: FileTime)
        ensures { self.new ≡ map (timed_row path.now time) self.old }
    {
        set_time(self.items.as_mut_slice(), path, time);
    }

    // Sets the time of the row of a number.
    pub fn set_number_time(&mut self, number: u64, time: FileTime)
        ensures { self.new ≡ map (timed_number number time) self.old }
    {
        set_times(self.items.as_mut_slice(), number, time);
    }

    // Takes away the rows at a path and below it.
    pub fn take_away(&mut self, path: &[Text]) -> Result<(), NoMemory>
        ensures ok { OnOk result (self.new ≡ without path.now self.old) }
        ensures err { OnErr result (self.new ≡ self.old) }
    {
        *self = IndexedRows::of(rows_without(self.allocator(), self.as_slice(), path)?)?;
        Ok(())
    }

    // The names in a directory, in order of their bytes.
    pub fn names_in(&mut self, alloc: Global, dir: &[Text]) -> Result<Arc<Vec<Text>>, NoMemory>
        requires { is_tree self.old ≡ true }
        ensures each { IfOk result (λ names. IsPermutation (the_names_in self.old dir.now) (arc_value names).items) }
        ensures sorted { IfOk result (λ names. AreSorted (arc_value names).items) }
        ensures rows { self.new ≡ self.old }
    {
        Ok(self.places.names(alloc, dir)?)
    }
}
