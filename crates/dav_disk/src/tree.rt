// Walks over the rows of a tree.
ghost use Rattle.std.specs.Prelude.{◌≡◌, Option, Ok, Err, IfOk, IfSome, MatchResult};
ghost use Rattle.std.specs.Option.{option_map};
ghost use Rattle.dav_core.specs.Tree.{row_at as the_row_at, has_dir as the_has_dir, look as found};
ghost use Rattle.dav_core.specs.Allowed.{place as the_place};

use crate::indexed_rows::IndexedRows;
use dav_core::{DiskError, Kind, Row};
use dav_io::Text;

// The row at a path.
pub fn row_at<'a>(rows: &'a IndexedRows, path: &[Text]) -> Option<&'a Row>
    ensures found { option_map (λ r. r.now) result ≡ the_row_at rows.now path.now }
    ensures path { IfSome result (λ r. r.now.path ≡ path.now) }
{
    rows.find(path)
}

// Whether a directory stands at a path.
pub fn has_dir(rows: &IndexedRows, path: &[Text]) -> bool
    ensures { result ≡ the_has_dir rows.now path.now }
{
    match row_at(rows, path) {
        Some(row) => row.kind == Kind::Dir,
        None => false,
    }
}

// What stands at a path, or nothing; or what every call on it is refused with.
pub fn place<'a>(rows: &'a IndexedRows, path: &[Text]) -> Result<Option<&'a Row>, DiskError>
    ensures found { MatchResult result (λ there. the_place rows.now path.now ≡ Ok (option_map (λ r. r.now) there))
        (λ e. the_place rows.now path.now ≡ Err e) }
    ensures path { IfOk result (λ there. IfSome there (λ r. r.now.path ≡ path.now)) }
{
    for i in 0..path.len() {
        match row_at(rows, &path[..i]) {
            None => return Err(DiskError::NotFound),
            Some(row) => {
                if row.kind != Kind::Dir {
                    return Err(DiskError::NotDir);
                }
            }
        }
    }
    Ok(row_at(rows, path))
}

// The row at a path, or what a call on it is refused with.
pub fn look<'a>(rows: &'a IndexedRows, path: &[Text]) -> Result<&'a Row, DiskError>
    ensures found { MatchResult result (λ r. found rows.now path.now ≡ Ok r.now)
        (λ e. found rows.now path.now ≡ Err e) }
    ensures path { IfOk result (λ r. r.now.path ≡ path.now) }
{
    match place(rows, path) {
        Ok(Some(row)) => Ok(row),
        Ok(None) => Err(DiskError::NotFound),
        Err(e) => Err(e),
    }
}
