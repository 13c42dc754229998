//! What a tree tells.

ghost use Rattle.std.specs.Prelude.{◌≡◌, IfOk};
ghost use Rattle.std.specs.Option.{option_copied};
ghost use Rattle.dav_core.specs.Tree.{row_at as the_row_at};
ghost use Rattle.dav_memory.specs.Trees as trees;
ghost use Rattle.dav_memory.specs.Entries.{is_time as the_time};
ghost use Rattle.dav_cache.specs.Core as core;

use dav_core::{FileTime, FsPath, Kind, Row};
use dav_io::{NoMemory, Text};

// The row at a path.
fn row_at<'a>(rows: &'a [Row], path: &FsPath) -> Option<&'a Row>
    ensures { option_copied result ≡ the_row_at rows.now path.now }
{
    rows.iter()
        .find(|row| path.as_slice() == row.path.as_slice())
}

/// Whether a row stands at the path.
pub fn has_row(rows: &[Row], path: &FsPath) -> bool
    ensures { result ≡ trees.has_row rows.now path.now }
{
    row_at(rows, path).is_some()
}

// The time of a directory, where one stands at the path.
fn time_of(rows: &[Row], dir: &FsPath) -> Option<FileTime>
    ensures { result ≡ trees.time_of rows.now dir.now }
{
    match row_at(rows, dir) {
        Some(row) => if row.kind == Kind::Dir {
            Some(row.time)
        } else {
            None
        },
        None => None,
    }
}

/// What a disk with these rows tells of a directory's time, where it doesn't refuse.
pub fn time_told(refused: bool, rows: &[Row], dir: &FsPath) -> Option<FileTime>
    ensures { result ≡ core.time_told refused rows.now dir.now }
{
    if refused { None } else { time_of(rows, dir) }
}

/// Whether the name begins with `._`.
pub fn is_dot(name: &Text) -> bool
    ensures { result ≡ trees.is_dot name.now }
{
    match name.as_slice() {
        [a, b, ..] => *a == b'.' && *b == b'_',
        _ => false,
    }
}

// The last name of a path, where all names before it are those of the directory.
fn member_name<'a>(dir: &[Text], path: &'a [Text]) -> Option<&'a Text>
    ensures { option_copied result ≡ trees.member_name dir.now path.now }
{
    for i in 0..dir.len() {
        if i >= path.len() {
            return None;
        }
        if dir[i] != path[i] {
            return None;
        }
    }
    if path.len() <= dir.len() {
        return None;
    }
    if path.len() - dir.len() > 1 {
        return None;
    }
    Some(&path[dir.len()])
}

// Whether the name comes after the last one, if there was one.
fn is_after(last: &Option<Text>, name: &Text) -> bool
    ensures { result ≡ trees.is_after last.now name.now }
{
    match last {
        Some(last) => last.cmp(name).is_lt(),
        None => true,
    }
}

// The least name so far, with one more.
fn with_name(
    last: &Option<Text>,
    name: Option<&Text>,
    best: Option<Text>,
) -> Result<Option<Text>, NoMemory>
    ensures { IfOk result (λ with. with ≡ trees.with_name last.now (option_copied name.entry) best) }
{
    let Some(name) = name else {
        return Ok(best);
    };
    if !is_after(last, name) {
        return Ok(best);
    }
    let Some(other) = best else {
        return Ok(Some(name.try_clone()?));
    };
    if name.cmp(&other).is_lt() {
        Ok(Some(name.try_clone()?))
    } else {
        Ok(Some(other))
    }
}

/// The least name of the directory that comes after the last one.
pub fn next_name(rows: &[Row], dir: &FsPath, last: &Option<Text>) -> Result<Option<Text>, NoMemory>
    ensures { IfOk result (λ name. name ≡ trees.next_name rows.now dir.now last.now) }
{
    let mut best = None;
    let mut left = rows.len();
    while left > 0 {
        left -= 1;
        best = with_name(
            last,
            member_name(dir.as_slice(), rows[left].path.as_slice()),
            best,
        )?;
    }
    Ok(best)
}
