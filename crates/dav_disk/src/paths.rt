// Paths below others, and the rows that stand there.
ghost use Rattle.std.specs.Prelude.{◌≡◌, ◌<◌, ◌++◌, ℕ, List, IfOk, Option, option_map, map, drop, length, not, true};
ghost use Rattle.std.specs.List.{filter};
ghost use Rattle.dav_core.specs.Path.{is_front as the_front, parent_of as the_parent, same_names};
ghost use Rattle.dav_core.specs.Tree.{row_at as the_row_at};
ghost use Rattle.dav_core.specs.Edits.{timed_number};
ghost use Rattle.dav_core.specs.Changes.{timed_row, without, moved_row, is_leaf as the_leaf, yields as the_yields, tick as the_tick};

use crate::indexed_rows::IndexedRows;
use crate::tree::row_at;
use dav_core::{FileTime, FsPath, Kind, Row};
use dav_io::{NoMemory, Text};
use std::alloc::Global;

// The next tick: 1000 nanoseconds later, or none where its seconds are past the greatest i64.
pub fn tick(time: FileTime) -> Option<FileTime>
    ensures { result ≡ the_tick time }
{
    let nanos = u64::from(time.nanos) + 1000;
    if nanos < 1_000_000_000 {
        return Some(FileTime {
            secs: time.secs,
            nanos: nanos as u32,
        });
    }
    if time.secs == i64::MAX {
        return None;
    }
    Some(FileTime {
        secs: time.secs + 1,
        nanos: (nanos - 1_000_000_000) as u32,
    })
}

// The path without its last name.
pub fn parent_of(path: &[Text]) -> &[Text]
    ensures { result.now ≡ the_parent path.now }
{
    &path[..path.len().saturating_sub(1)]
}

// Whether the first path is the front of the second, or is equal to it.
pub fn is_front(front: &[Text], path: &[Text]) -> bool
    ensures { result ≡ the_front front.now path.now }
{
    if front.len() > path.len() {
        return false;
    }
    front == &path[..front.len()]
}

// Sets the time of the row at a path.
pub fn set_time(rows: &mut [Row], path: &[Text], time: FileTime)
    ensures { rows.new ≡ map (timed_row path.now time) rows.old }
{
    for row in rows.iter_mut() {
        if path == row.path.as_slice() {
            row.time = time;
        }
    }
}

// Sets the time of the rows of a number.
pub fn set_times(rows: &mut [Row], number: u64, time: FileTime)
    ensures { rows.new ≡ map (timed_number number time) rows.old }
{
    for row in rows.iter_mut() {
        if row.number == number {
            row.time = time;
        }
    }
}

// A copy of rows.
pub fn copy_rows(alloc: Global, rows: &[Row]) -> Result<Vec<Row>, NoMemory>
    ensures { IfOk result (λ copy. copy.items ≡ rows.now) }
{
    let mut copy = Vec::new(alloc);
    for row in rows {
        copy.push(row.try_clone()?)?;
    }
    Ok(copy)
}

// A copy of the rows that don't stand at a path or below it.
pub fn rows_without(alloc: Global, rows: &[Row], path: &[Text]) -> Result<Vec<Row>, NoMemory>
    ensures { IfOk result (λ copy. copy.items ≡ without path.now rows.now) }
{
    let mut copy = Vec::new(alloc);
    for row in rows {
        if !is_front(path, row.path.as_slice()) {
            copy.push(row.try_clone()?)?;
        }
    }
    Ok(copy)
}

// The new path of what stands below `from`, below `to`.
fn moved_path(alloc: Global, from: &[Text], to: &FsPath, path: &FsPath) -> Result<FsPath, NoMemory>
    requires { the_front from.now path.now ≡ true }
    ensures { IfOk result (λ p. p ≡ to.now ++ drop (length from.now) path.now) }
{
    let mut names = Vec::new(alloc);
    for name in to.as_slice() {
        names.push(name.try_clone()?)?;
    }
    let (_, rest) = path.as_slice().split_at(from.len());
    for name in rest {
        names.push(name.try_clone()?)?;
    }
    Ok(FsPath::new(names))
}

// A row, with the path that it has once `from` is moved to `to`.
fn moved(alloc: Global, row: &Row, from: &[Text], to: &FsPath) -> Result<Row, NoMemory>
    ensures { IfOk result (λ r. r ≡ moved_row from.now to.now row.now) }
{
    if !is_front(from, row.path.as_slice()) {
        return row.try_clone();
    }
    Ok(Row {
        path: moved_path(alloc, from, to, &row.path)?,
        kind: row.kind,
        number: row.number,
        time: row.time,
    })
}

// The rows, once a path is moved to another with all below it.
pub fn move_rows(
    alloc: Global,
    rows: &[Row],
    from: &[Text],
    to: &FsPath,
) -> Result<Vec<Row>, NoMemory>
    ensures { IfOk result (λ v. v.items ≡ map (moved_row from.now to.now) rows.now) }
{
    let mut copy = Vec::new(alloc);
    for row in rows {
        copy.push(moved(alloc, row, from, to)?)?;
    }
    Ok(copy)
}

// Whether no row lies below a path.
pub fn is_leaf(rows: &[Row], path: &[Text]) -> bool
    ensures { result ≡ the_leaf path.now rows.now }
{
    rows.iter().all(|row| !is_front(path, row.path.as_slice()) || path == row.path.as_slice())
}

// Whether what stands at a path, if anything does, may go where something of this kind is moved there.
pub fn yields(rows: &IndexedRows, kind: Kind, path: &[Text]) -> bool
    ensures { result ≡ the_yields kind (the_row_at rows.now path.now) rows.now }
{
    let Some(there) = row_at(rows, path) else {
        return true;
    };
    match kind {
        Kind::Dir => there.kind == Kind::Dir && is_leaf(rows.as_slice(), there.path.as_slice()),
        Kind::File | Kind::Link => there.kind != Kind::Dir,
    }
}
