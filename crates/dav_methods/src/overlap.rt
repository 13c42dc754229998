// Paths that lie one inside the other.
ghost use Rattle.std.specs.Prelude.{◌≡◌, IfOk, true};
ghost use Rattle.dav_model.specs.Overlap.{overlap, same_name};

use caseless::default_case_fold_str;
use dav_core::DavPath;
use dav_io::{NoMemory, Text};
use std::alloc::Global;

// Whether two names are one without regard to case.
fn folds_alike(alloc: Global, one: &Text, other: &Text) -> Result<bool, NoMemory>
    ensures { IfOk result (λ same. same ≡ same_name true one.now other.now) }
{
    let one = default_case_fold_str(alloc, one.as_str())?;
    let other = default_case_fold_str(alloc, other.as_str())?;
    Ok(one.as_bytes() == other.as_bytes())
}

// Whether two names are one to a store.
fn is_same(alloc: Global, folds: bool, one: &Text, other: &Text) -> Result<bool, NoMemory>
    ensures { IfOk result (λ same. same ≡ same_name folds one.now other.now) }
{
    if folds {
        return folds_alike(alloc, one, other);
    }
    Ok(one.as_slice() == other.as_slice())
}

// Whether the shorter of two lists of names stands at the front of the longer.
fn meets(alloc: Global, folds: bool, names: &[Text], others: &[Text]) -> Result<bool, NoMemory>
    ensures { IfOk result (λ meets. meets ≡ overlap folds names.now others.now) }
{
    let shorter = names.len().min(others.len());
    for at in 0..shorter {
        if !is_same(alloc, folds, &names[at], &others[at])? {
            return Ok(false);
        }
    }
    Ok(true)
}

// Whether two paths are one, or one lies inside the other.
pub fn overlaps(
    alloc: Global,
    folds: bool,
    one: &DavPath,
    other: &DavPath,
) -> Result<bool, NoMemory>
    ensures { IfOk result (λ overlaps. overlaps ≡ overlap folds one.now.names other.now.names) }
{
    meets(
        alloc,
        folds,
        one.names().as_slice(),
        other.names().as_slice(),
    )
}
