// What the tree allows the writing calls, or what it refuses them with.
ghost use Rattle.std.specs.Prelude.{◌≡◌, ◌&&◌, ℕ, List, [], None, Some, Ok, Err, MatchResult, IfOk, cond, option_map};
ghost use Rattle.dav_core.specs.declared.tree.Kind.TheVariants.{Dir as TheDir};
ghost use Rattle.dav_core.specs.Edits.{makes, takes, moves};
ghost use Rattle.dav_core.specs.Allowed.{place as the_place, making_dir, taking_dir, taking_file, moving, moving_over, opening};
ghost use Rattle.dav_core.specs.Tree.{is_file};
ghost use Rattle.dav_disk.specs.Making.{opened_edit, copies};

use crate::indexed_rows::IndexedRows;
use crate::paths::{is_front, is_leaf};
use crate::tree::{look, place};
use dav_core::{DiskError, Kind, OpenOptions, Row};
use dav_io::Text;

// Whether a directory may be made at a path.
pub fn may_make_dir(rows: &IndexedRows, path: &[Text]) -> Result<(), DiskError>
    ensures { MatchResult result (λ x. making_dir rows.now path.now ≡ Ok (Some (makes path.now TheDir [])))
        (λ e. making_dir rows.now path.now ≡ Err e) }
{
    match place(rows, path) {
        Ok(None) => Ok(()),
        Ok(Some(_)) => Err(DiskError::Exists),
        Err(e) => Err(e),
    }
}

// Whether the directory at a path may be removed.
pub fn may_take_dir(rows: &IndexedRows, path: &[Text]) -> Result<(), DiskError>
    ensures { MatchResult result (λ x. taking_dir rows.now path.now ≡ Ok (Some (takes path.now)))
        (λ e. taking_dir rows.now path.now ≡ Err e) }
{
    let row = match look(rows, path) {
        Ok(row) => row,
        Err(e) => return Err(e),
    };
    if row.kind != Kind::Dir {
        return Err(DiskError::NotDir);
    }
    if path.is_empty() || !is_leaf(rows.as_slice(), path) {
        return Err(DiskError::NotEmpty);
    }
    Ok(())
}

// Whether the file at a path may be removed.
pub fn may_take_file(rows: &IndexedRows, path: &[Text]) -> Result<(), DiskError>
    ensures { MatchResult result (λ x. taking_file rows.now path.now ≡ Ok (Some (takes path.now)))
        (λ e. taking_file rows.now path.now ≡ Err e) }
{
    match look(rows, path) {
        Ok(row) => {
            if row.kind == Kind::Dir {
                return Err(DiskError::IsDir);
            }
            Ok(())
        }
        Err(e) => Err(e),
    }
}

// Whether something of this kind may go in place of what stands where it is moved to.
fn may_replace(rows: &IndexedRows, row: &Row, there: &Row) -> Result<(), DiskError>
    ensures { MatchResult result
        (λ x. (to : List (List ℕ)) → moving_over rows.now row.now to (Some there.now)
        ≡ Ok (Some (moves row.now.path to)))
        (λ e. (to : List (List ℕ)) → moving_over rows.now row.now to (Some there.now) ≡ Err e) }
{
    if row.kind != Kind::Dir {
        if there.kind == Kind::Dir {
            return Err(DiskError::IsDir);
        }
        return Ok(());
    }
    if there.kind != Kind::Dir {
        return Err(DiskError::NotDir);
    }
    if !is_leaf(rows.as_slice(), there.path.as_slice()) {
        return Err(DiskError::NotEmpty);
    }
    Ok(())
}

// Whether what stands at a path may be moved to another, and isn't there already.
pub fn may_move(rows: &IndexedRows, from: &[Text], to: &[Text]) -> Result<bool, DiskError>
    ensures { MatchResult result
        (λ moves_it. moving rows.now from.now to.now ≡ Ok (cond moves_it (Some (moves from.now to.now)) None))
        (λ e. moving rows.now from.now to.now ≡ Err e) }
{
    let row = match look(rows, from) {
        Ok(row) => row,
        Err(e) => return Err(e),
    };
    let there = match place(rows, to) {
        Ok(there) => there,
        Err(e) => return Err(e),
    };
    if from.is_empty() || to.is_empty() {
        return Err(DiskError::NotEmpty);
    }
    if from == to {
        return Ok(false);
    }
    if is_front(from, to) {
        return Err(DiskError::NotEmpty);
    }
    let Some(there) = there else {
        return Ok(true);
    };
    match may_replace(rows, row, there) {
        Ok(()) => Ok(true),
        Err(e) => Err(e),
    }
}

// What stands where something is opened, or nothing where a file is to be made.
pub fn may_open<'a>(
    rows: &'a IndexedRows,
    path: &[Text],
    how: OpenOptions,
) -> Result<Option<&'a Row>, DiskError>
    ensures place { IfOk result (λ there. the_place rows.now path.now ≡ Ok (option_map (λ r. r.now) there)) }
    ensures judged { MatchResult result
        (λ there. opening rows.now path.now how ≡ Ok (opened_edit how path.now (option_map (λ r. r.now) there)))
        (λ e. opening rows.now path.now how ≡ Err e) }
{
    match place(rows, path) {
        Err(e) => Err(e),
        Ok(None) => {
            if how.create || how.create_new {
                return Ok(None);
            }
            Err(DiskError::NotFound)
        }
        Ok(Some(row)) => {
            if how.create_new {
                return Err(DiskError::Exists);
            }
            if row.kind == Kind::Dir && (how.write || how.append) {
                return Err(DiskError::IsDir);
            }
            Ok(Some(row))
        }
    }
}

// Whether opening takes all bytes from what stands there, if it is of this kind.
pub fn empties(kind: Kind, how: OpenOptions) -> bool
    ensures { result ≡ (is_file kind && (how.write && how.truncate)) }
{
    kind == Kind::File && how.write && how.truncate
}

// What a copy makes.
pub enum Copying {
    // Nothing: the paths are equal.
    Stays,
    // A file with the bytes of this number.
    Makes(u64),
    // The bytes of the first number in the file of the second.
    Fills(u64, u64),
}

// What a copy from a path to another makes.
pub fn may_copy(rows: &IndexedRows, from: &[Text], to: &[Text]) -> Result<Copying, DiskError>
    ensures { MatchResult result (λ c. copies rows.now from.now to.now ≡ Ok c)
        (λ e. copies rows.now from.now to.now ≡ Err e) }
{
    let row = match look(rows, from) {
        Ok(row) => row,
        Err(e) => return Err(e),
    };
    let there = match place(rows, to) {
        Ok(there) => there,
        Err(e) => return Err(e),
    };
    if row.kind == Kind::Dir {
        return Err(DiskError::IsDir);
    }
    let Some(there) = there else {
        return Ok(Copying::Makes(row.number));
    };
    if there.kind == Kind::Dir {
        return Err(DiskError::IsDir);
    }
    if from == to {
        return Ok(Copying::Stays);
    }
    Ok(Copying::Fills(row.number, there.number))
}
