ghost use Rattle.std.specs.Prelude.{◌≡◌, ◌++◌, IfOk, true};
ghost use Rattle.std.specs.List.{list_all};
ghost use Rattle.dav_core.specs.DavPath.{link_of as the_link_of, shown};
ghost use Rattle.dav_page.specs.Index.{HasHead, IsIndex, name_text};
ghost use Rattle.dav_page.specs.Listed.{AreRows, AreSound, has_plain_name};
ghost use Rattle.dav_page.specs.Pages.{IsTitle, after_rows};

use crate::display_path;
use crate::literals::{AFTER_ROWS, BEFORE_HEADING, BEFORE_ROWS, BEFORE_TITLE};
use crate::order::listed;
use crate::rows::push_rows;
use dav_core::{DavPath, Member, is_plain};
use dav_io::{NoMemory, Octets, Text};
use htmlescape::encode_minimal;
use std::alloc::Global;

// The title of a directory's page.
fn title_text(alloc: Global, dir: &DavPath) -> Result<Text, NoMemory>
    ensures text { IfOk result (λ text. text ≡ name_text (the_link_of (shown dir.now))) }
    ensures reads { IfOk result (λ text. IsTitle text (the_link_of (shown dir.now))) }
{
    let link = dir.as_url_string()?;
    Ok(Text::new(encode_minimal(alloc, link.as_str())?))
}

// What stands before the rows of a directory's page.
fn head_text(alloc: Global, dir: &DavPath) -> Result<Octets, NoMemory>
    ensures { IfOk result (HasHead dir.now) }
{
    let title = title_text(alloc, dir)?;
    let heading = display_path(alloc, dir)?;
    let text = format!(in alloc;
        "{}{}{}{}{}",
        BEFORE_TITLE,
        title.as_str(),
        BEFORE_HEADING,
        heading.as_str(),
        BEFORE_ROWS
    )?;
    Ok(Octets::new(text.into_bytes()))
}

// What stands behind the rows.
fn end_text(alloc: Global) -> Result<Octets, NoMemory>
    ensures { IfOk result (λ text. text ≡ after_rows) }
{
    Ok(Octets::new(Vec::from_slice(alloc, AFTER_ROWS.as_bytes())?))
}

/// Whether the names of all members are plain, as `index_page` needs them.
pub fn has_plain_names(members: &[Member]) -> bool
    ensures { result ≡ list_all has_plain_name members.now }
{
    members
        .iter()
        .all(|member| is_plain(member.name.as_slice()))
}

/// The index page of a directory with these members, in pieces: its head, one text a row, and its end. Joined they
/// are the page, and its rows lead to nothing outside the directory. Each byte is settled: a link is what
/// `as_url_string` gives of a path, and a name or the title what `encode_minimal` makes of it.
///
/// Members whose names begin with a dot aren't shown. Directories come first; within a kind the lesser name does, by
/// its bytes, where a directory's name has a slash behind it. A time before 1970 or after 9999 is shown as unknown.
pub fn index_page(
    alloc: Global,
    dir: &DavPath,
    members: Vec<Member>,
) -> Result<Vec<Octets>, NoMemory>
    requires { list_all has_plain_name members.items ≡ true }
    ensures page { IfOk result (λ texts. IsIndex dir.now (AreRows dir.now members.items) texts.items) }
    ensures sound { IfOk result (λ texts. IsIndex dir.now (AreSound dir.now) texts.items) }
{
    let members = listed(members)?;
    let mut texts = Vec::new(alloc);
    texts.push(head_text(alloc, dir)?)?;
    push_rows(alloc, dir, members.as_slice(), &mut texts)?;
    texts.push(end_text(alloc)?)?;
    Ok(texts)
}
