// Paths in order, name by name, each by its bytes.
ghost use Rattle.std.specs.Prelude.{◌≡◌, IfOk, OnOk};
ghost use Rattle.std.specs.List.Sorted.{IsPermutation, IsSorted};
ghost use Rattle.dav_fetch.specs.Copy.{path_cmp};
ghost use Rattle.dav_fetch.specs.Fetching.{IsOrdered};
ghost use Rattle.dav_fetch.specs.Keeping.{with_next};

use dav_core::FsPath;
use dav_io::NoMemory;
use std::alloc::Global;
use std::cmp::Ordering;

// The order of two paths.
pub(crate) fn path_order(one: &FsPath, other: &FsPath) -> Ordering
    ensures { result ≡ path_cmp one.now other.now }
{
    one.as_slice().cmp(other.as_slice())
}

// Brings paths into their order.
fn sort(paths: &mut Vec<FsPath>) -> Result<(), NoMemory>
    ensures each { OnOk result (IsPermutation paths.old.items paths.new.items) }
    ensures order { OnOk result (IsSorted path_cmp paths.new.items) }
{
    paths.sort_by(|one, other| path_order(one, other))?;
    Ok(())
}

// Adds a path, if it comes behind the last one.
fn add_next(paths: &mut Vec<FsPath>, path: FsPath) -> Result<(), NoMemory>
    ensures { OnOk result (paths.new.items ≡ with_next path paths.old.items) }
{
    if let Some(last) = paths.last() {
        if path_order(last, &path) != Ordering::Less {
            return Ok(());
        }
    }
    paths.push(path)?;
    Ok(())
}

// These paths in order, each once.
pub(crate) fn ordered(alloc: Global, mut paths: Vec<FsPath>) -> Result<Vec<FsPath>, NoMemory>
    ensures { IfOk result (λ v. IsOrdered paths.items v.items) }
{
    sort(&mut paths)?;
    let mut once = Vec::new(alloc);
    paths.reverse();
    while let Some(path) = paths.pop() {
        add_next(&mut once, path)?;
    }
    Ok(once)
}
