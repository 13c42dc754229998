ghost use Rattle.std.specs.Prelude.{◌≡◌, ◌↔◌, IfOk, IsTrue, Option, option_map, true};
ghost use Rattle.std.specs.List.{list_all};
ghost use Rattle.dav_core.specs.Tree.{row_at as the_row_at, has_dir as the_has_dir, is_placed as the_is_placed, is_free as the_is_free, is_apart as the_is_apart};

use crate::{FileTime, FsPath};
use dav_io::{NoMemory, Text};
use std::alloc::Global;
use std::marker::Model;

/// What stands at a path. A symbolic link is handed on to the disk; a look at the link itself tells that it is one, and no
/// claim speaks of where it leads.
#[derive(Clone, Copy, Debug, PartialEq, Eq)]
pub enum Kind {
    Dir,
    File,
    Link,
}

/// A row of a tree: what stands at a path, its number, and the time of its last change.
#[derive(Drop)]
pub struct Row {
    pub path: FsPath,
    pub kind: Kind,
    pub number: u64,
    pub time: FileTime,
}

impl Row {
    /// A copy, with memory of its own.
    pub fn try_clone(&self) -> Result<Self, NoMemory>
        ensures { IfOk result (λ copy. copy ≡ self.now) }
    {
        Ok(Row {
            path: self.path.try_clone()?,
            kind: self.kind,
            number: self.number,
            time: self.time,
        })
    }
}

/// The row at a path.
pub fn row_at<'a>(rows: &'a [Row], path: &[Text]) -> Option<&'a Row>
    ensures { option_map (λ r. r.now) result ≡ the_row_at rows.now path.now }
{
    rows.iter().find(|row| path == row.path.as_slice())
}

/// Whether a directory stands at a path.
pub fn has_dir(rows: &[Row], path: &[Text]) -> bool
    ensures { result ≡ the_has_dir rows.now path.now }
{
    match row_at(rows, path) {
        Some(row) => row.kind == Kind::Dir,
        None => false,
    }
}

// Whether a row has its place among the rows.
fn is_placed(rows: &[Row], row: &Row) -> bool
    ensures { result ≡ the_is_placed rows.now row.now }
{
    let path = row.path.as_slice();
    match path.len() {
        0 => row.kind == Kind::Dir,
        count => has_dir(rows, &path[..count - 1]),
    }
}

// Whether each row has its place.
fn are_placed(rows: &[Row]) -> bool
    ensures { result ≡ list_all (the_is_placed rows.now) rows.now }
{
    rows.iter().all(|row| is_placed(rows, row))
}

// Whether no row has this one's path or number.
fn is_free(rows: &[Row], row: &Row) -> bool
    ensures { result ≡ the_is_free rows.now row.now }
{
    rows.iter().all(|other| other.path.as_slice() != row.path.as_slice()
        && other.number != row.number)
}

// Whether no path and no number stands twice.
fn is_apart(rows: &[Row]) -> bool
    ensures { result ≡ the_is_apart rows.now }
{
    for i in 0..rows.len() {
        if !is_free(&rows[i + 1..], &rows[i]) {
            return false;
        }
    }
    true
}

/// A list of rows that is a tree: the empty path is a directory, the parent of each other path is a directory of the
/// list, and no path and no number stands twice. A contract sees it as the list of its rows.
#[derive(Drop)]
pub struct Tree {
    rows: Vec<Row>,
}

impl Model for Tree {
    ghost use Rattle.std.specs.Prelude.{List, ◌≡◌, true};
    ghost use Rattle.dav_core.specs.declared.tree.Row.{Row};
    ghost use Rattle.dav_core.specs.Tree.{is_tree};

    ghost Value = { List Row };

    ghost view = { λ t. t.rows.items };

    ghost invariant = { λ t. is_tree t.rows.items ≡ true };
}

impl Tree {
    ghost use Rattle.dav_core.specs.Tree.{is_tree};

    /// Whether the rows are a tree, as `new` needs them.
    pub fn fits(rows: &[Row]) -> bool
        ensures { result ≡ is_tree rows.now }
    {
        if !has_dir(rows, &[]) {
            return false;
        }
        if !are_placed(rows) {
            return false;
        }
        is_apart(rows)
    }

    /// A tree of these rows, which are to be those of a tree, as `fits` tells.
    pub fn new(rows: Vec<Row>) -> Self
        requires { is_tree rows.items ≡ true }
        ensures { result ≡ rows.items }
    {
        Tree { rows }
    }

    /// The rows, in their order.
    pub fn as_slice(&self) -> &[Row]
        ensures value { result.now ≡ self.now }
        ensures tree { is_tree self.now ≡ true }
    {
        self.rows.as_slice()
    }

    /// A copy, with memory of its own.
    pub fn try_clone(&self) -> Result<Self, NoMemory>
        ensures { IfOk result (λ copy. copy ≡ self.now) }
    {
        let alloc: Global = *self.rows.allocator();
        let mut copy = Vec::new(alloc);
        for row in self.as_slice() {
            copy.push(row.try_clone()?)?;
        }
        Ok(Tree { rows: copy })
    }
}
