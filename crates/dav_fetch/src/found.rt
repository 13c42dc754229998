ghost use Rattle.std.specs.Prelude.{◌≡◌, ◌++◌, ◌∷◌, [], ℕ, List, IfOk, IfSome, Ok, None, Some};
ghost use Rattle.std.specs.List.{AllZip};
ghost use Rattle.dav_core.specs.DavPath.{shown};
ghost use Rattle.dav_page.specs.declared.row.PageRow.{PageRow as Line};
ghost use Rattle.dav_fetch.specs.declared.found.Found.{Found as It};
ghost use Rattle.dav_fetch.specs.Asking.{dir_path};
ghost use Rattle.dav_fetch.specs.Walk.{IsFound, IsIn, IsName};

use dav_core::{DavPath, is_plain};
use dav_io::{NoMemory, Text};
use dav_page::PageRow;
use std::alloc::Global;

/// What a row names: a member of its directory.
#[derive(Drop)]
pub struct Found {
    pub name: Text,
    pub is_dir: bool,
}

// The name that is left of a row's path behind its directory's, and whether a slash ends it.
fn name_in(rest: &str) -> Option<(&str, bool)>
    ensures some { IfSome result (λ found. IsName rest.now found.0.now found.1) }
    ensures none { result ≡ None → (found : It) → IsName rest.now found.name found.is_dir → ⊥ }
{
    match rest.strip_suffix("/") {
        Some(name) if is_plain(name.as_bytes()) => Some((name, true)),
        Some(_) => None,
        None if is_plain(rest.as_bytes()) => Some((rest, false)),
        None => None,
    }
}

// What is left of a row's path behind that of its directory.
fn behind<'a>(dir: &str, path: &'a str) -> Option<&'a str>
    ensures some { IfSome result (λ rest. path.now ≡ dir.now ++ rest.now) }
    ensures none { result ≡ None → (rest : List ℕ) → path.now ≡ dir.now ++ rest → ⊥ }
{
    path.strip_prefix(dir)
}

// What a row names, by the text of its directory's path.
fn found_in(alloc: Global, dir: &str, row: &PageRow) -> Result<Option<Found>, NoMemory>
    ensures some { IfOk result (λ o. IfSome o (IsIn dir.now row.now)) }
    ensures none { result ≡ Ok None → (found : It) → IsIn dir.now row.now found → ⊥ }
{
    let Some(rest) = behind(dir, row.path.as_str()) else {
        return Ok(None);
    };
    let Some((name, is_dir)) = name_in(rest) else {
        return Ok(None);
    };
    let name = Text::copy(alloc, name)?;
    Ok(Some(Found { name, is_dir }))
}

// What the rows of a directory's page name. None exactly where one leads elsewhere.
pub(crate) fn all_found(
    alloc: Global,
    dir: &DavPath,
    rows: &[PageRow],
) -> Result<Option<Vec<Found>>, NoMemory>
    requires { dir.now ≡ dir_path dir.now.names }
    ensures some { IfOk result (λ o. IfSome o (λ found. AllZip (IsFound dir.now.names) rows.now found.items)) }
    ensures none { result ≡ Ok None → (found : List It) → AllZip (IsFound dir.now.names) rows.now found → ⊥ }
{
    let text = dir.with_prefix()?;
    let mut all = Vec::new(alloc);
    for row in rows {
        let Some(found) = found_in(alloc, text.as_str(), row)? else {
            return Ok(None);
        };
        all.push(found)?;
    }
    Ok(Some(all))
}
