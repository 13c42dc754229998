// Rows that are set in a tree, and their times.
ghost use Rattle.std.specs.Prelude.{◌≡◌, ◌==◌, ◌<◌, [], ◌∷◌, ◌++◌, true, vec_len, vec_capacity};
ghost use Rattle.std.specs.List.{list_any};
ghost use Rattle.dav_core.specs.Changes.{is_free_in};
ghost use Rattle.dav_disk.specs.Rows.{later_of as the_later, second_past as the_second_past, can_be_set as is_settable};

use crate::indexed_rows::IndexedRows;
use crate::tree::{has_dir, row_at};
use dav_core::{FileTime, Row};
use dav_io::Text;

// The later of two times.
pub fn later_of(a: FileTime, b: FileTime) -> FileTime
    ensures { result ≡ the_later a b }
{
    if a.secs < b.secs {
        return b;
    }
    if a.secs == b.secs && a.nanos < b.nanos {
        return b;
    }
    a
}

// Whether a time stands before the year 10000.
pub fn can_be_set(time: FileTime) -> bool
    ensures { result ≡ is_settable time }
{
    time.secs < 253_402_300_800 && time.nanos < 1_000_000_000
}

// A second past a time.
pub fn second_past(time: FileTime) -> FileTime
    requires { is_settable time ≡ true }
    ensures { result ≡ the_second_past time }
{
    FileTime {
        secs: time.secs + 1,
        nanos: time.nanos,
    }
}

// Whether nothing stands at a path, and a directory at its parent.
pub fn is_free(rows: &IndexedRows, path: &[Text]) -> bool
    ensures { result ≡ is_free_in rows.now path.now }
{
    let count = path.len();
    if count == 0 {
        return false;
    }
    if !has_dir(rows, &path[..count - 1]) {
        return false;
    }
    row_at(rows, path).is_none()
}

// Whether a row has the number.
pub fn has_number(rows: &[Row], number: u64) -> bool
    ensures { result ≡ list_any (λ row. number == row.number) rows.now }
{
    rows.iter().any(|row| number == row.number)
}

// Appends a row that there is room for.
pub fn put_row(rows: &mut Vec<Row>, row: Row)
    requires { vec_len rows.old < vec_capacity rows.old }
    ensures { rows.new.items ≡ rows.old.items ++ row ∷ [] }
{
    if rows.push(row).is_err() {
        unreachable!();
    }
}
