// The heading of a page: the names of its path, each but the last with a link to it.
ghost use Rattle.std.specs.Prelude.{◌≡◌, ◌++◌, ◌∷◌, [], IfOk, OnOk, map, string_bytes, true};
ghost use Rattle.std.specs.List.{flat_map, list_all};
ghost use Rattle.std.specs.Str.{is_utf8};
ghost use Rattle.dav_core.specs.DavPath.{slashed};
ghost use Rattle.dav_page.specs.Index as index;
ghost use Rattle.dav_page.specs.Index.{IsHeading, heading_of, written_crumb};
ghost use Rattle.dav_page.specs.Listed as listed;
ghost use Rattle.dav_page.specs.Pages.{crumb_text};

use crate::literals::ROOT_LINK;
use dav_core::{DavPath, link_of};
use dav_io::{NoMemory, Text};
use htmlescape::encode_minimal;
use std::alloc::Global;

// Appends the link to a path under a name.
fn push_crumb(alloc: Global, text: &mut String, path: &str, name: &str) -> Result<(), NoMemory>
    ensures { OnOk result (string_bytes text.new ≡ string_bytes text.old
        ++ crumb_text (written_crumb (record { path = path.now; name = name.now }))) }
{
    let link = link_of(alloc, path)?;
    let name = encode_minimal(alloc, name)?;
    let crumb = format!(in alloc; "<a href = \"{}\">{}</a>/", link.as_str(), name.as_str())?;
    text.push_str(crumb.as_str())?;
    Ok(())
}

// Appends a link under each name, to the path of the names up to it.
fn push_crumbs(alloc: Global, text: &mut String, names: &[Text]) -> Result<(), NoMemory>
    ensures text { OnOk result (string_bytes text.new ≡ string_bytes text.old
        ++ flat_map crumb_text (map written_crumb (index.crumbs_at [] names.now))) }
    ensures utf8 { OnOk result (list_all is_utf8 names.now ≡ true) }
{
    let mut path = String::new(alloc);
    for name in names {
        path.push_str("/")?;
        path.push_str(name.as_str())?;
        push_crumb(alloc, text, path.as_str(), name.as_str())?;
    }
    Ok(())
}

// The heading of the path with these names.
fn heading(alloc: Global, names: &[Text]) -> Result<Text, NoMemory>
    ensures text { IfOk result (λ text. text ≡ heading_of names.now) }
    ensures reads { IfOk result (IsHeading names.now) }
{
    let Some((last, front)) = names.split_last() else {
        return Ok(Text::copy(alloc, "/")?);
    };
    let mut text = String::from_str(alloc, ROOT_LINK)?;
    push_crumbs(alloc, &mut text, front)?;
    let name = encode_minimal(alloc, last.as_str())?;
    text.push_str(name.as_str())?;
    Ok(Text::new(text))
}

// Appends copies of names.
fn push_names(names: &mut Vec<Text>, more: &[Text]) -> Result<(), NoMemory>
    ensures { OnOk result (names.new.items ≡ names.old.items ++ more.now) }
{
    for name in more {
        names.push(name.try_clone()?)?;
    }
    Ok(())
}

/// The names of a path as the heading of a page shows them: each but the last is a link to its path, and the names of
/// the prefix come first. Of the root it is a slash.
pub fn display_path(alloc: Global, path: &DavPath) -> Result<Text, NoMemory>
    ensures text { IfOk result (λ text. text ≡ heading_of (listed.all_names path.now)) }
    ensures reads { IfOk result (IsHeading (listed.all_names path.now)) }
{
    let mut names = Vec::new(alloc);
    push_names(&mut names, path.prefix().as_slice())?;
    push_names(&mut names, path.names().as_slice())?;
    Ok(heading(alloc, names.as_slice())?)
}
