// The rows of a page.
ghost use Rattle.std.specs.Prelude.{◌≡◌, ◌==◌, ◌++◌, IfOk, OnOk, IsUtf8, List, ℕ, codes, string_bytes, true};
ghost use Rattle.std.specs.List.{AllZip, list_any};
ghost use Rattle.dav_core.specs.DavPath.{final_slash, link_of as the_link_of, shown};
ghost use Rattle.dav_core.specs.Tree.{is_dir};
ghost use Rattle.dav_page.specs.Listed as listed;
ghost use Rattle.dav_page.specs.Index as index;
ghost use Rattle.dav_page.specs.Index.{IsRowBelow, IsRowText};

use crate::dates::{push_date, push_size_of};
use dav_core::{DavPath, Kind, Member, link_of, push_link};
use dav_io::{NoMemory, Octets, Text};
use htmlescape::encode_minimal;
use std::alloc::Global;

// The text of a directory's path with a final slash. The paths of its members go on behind it.
fn text_above(dir: &DavPath) -> Result<Text, NoMemory>
    ensures { IfOk result (λ text. text ≡ shown (record dir.now { slash = true })) }
{
    let mut dir = dir.try_clone()?;
    dir.add_slash();
    dir.with_prefix()
}

// Appends a slash where a member is a directory.
fn push_slash(row: &mut String, member: &Member) -> Result<(), NoMemory>
    ensures { OnOk result (string_bytes row.new ≡ string_bytes row.old ++ final_slash (is_dir member.now.kind)) }
{
    if member.kind == Kind::Dir {
        row.push('/')?;
    }
    Ok(())
}

// Appends the link to a member, of which its directory's link is known.
fn push_link_below(row: &mut String, below: &str, member: &Member) -> Result<(), NoMemory>
    ensures { OnOk result (string_bytes row.new ≡ string_bytes row.old
        ++ (below.now ++ (the_link_of member.now.name ++ final_slash (is_dir member.now.kind)))) }
{
    row.push_str(below)?;
    push_link(row, member.name.as_str())?;
    push_slash(row, member)
}

// One of the bytes for which an entity stands.
fn is_escaped(b: u8) -> bool
    ensures { result ≡ list_any (λ m. b == m) (codes "\"&'<>") }
{
    b == b'"' || b == b'&' || b == b'\'' || b == b'<' || b == b'>'
}

// Whether something of a name is escaped.
fn has_escaped(name: &str) -> bool
    ensures { result ≡ list_any (λ b. list_any (λ m. b == m) (codes "\"&'<>")) name.now }
{
    name.as_bytes().iter().any(|b| is_escaped(*b))
}

// Appends the text of a name. Where nothing is escaped it is the name itself.
fn push_text(alloc: Global, row: &mut String, name: &str) -> Result<(), NoMemory>
    ensures { OnOk result (string_bytes row.new ≡ string_bytes row.old ++ index.name_text name.now) }
{
    if has_escaped(name) {
        let text = encode_minimal(alloc, name)?;
        return Ok(row.push_str(text.as_str())?);
    }
    Ok(row.push_str(name)?)
}

// Appends the text of a member's name.
fn push_name(alloc: Global, row: &mut String, member: &Member) -> Result<(), NoMemory>
    ensures text { OnOk result (string_bytes row.new ≡ string_bytes row.old
        ++ index.name_text (listed.shown_name member.now)) }
    ensures utf8 { OnOk result (IsUtf8 member.now.name) }
{
    push_text(alloc, row, member.name.as_str())?;
    push_slash(row, member)?;
    Ok(())
}

// Writes the row of a member in place of what was written.
fn write_row(alloc: Global, row: &mut String, below: &str, member: &Member) -> Result<(), NoMemory>
    ensures { OnOk result (IsRowBelow below.now member.now (string_bytes row.new)) }
{
    row.clear();
    row.push_str("<tr><td><a href=\"")?;
    push_link_below(row, below, member)?;
    row.push_str("\">")?;
    push_name(alloc, row, member)?;
    row.push_str("</a></td><td class=\"mono\">")?;
    push_date(row, member.modified)?;
    row.push_str("</td><td class=\"mono\" align=\"right\">")?;
    push_size_of(row, member)?;
    row.push_str("</td></tr>")?;
    Ok(())
}

// Appends the rows of members of a directory, one text each. Each is written where the one before was, and copied to
// memory of its size.
pub(crate) fn push_rows(
    alloc: Global,
    dir: &DavPath,
    members: &[Member],
    texts: &mut Vec<Octets>,
) -> Result<(), NoMemory>
    ensures { OnOk result ((rows : List (List ℕ)) × (texts.new.items ≡ texts.old.items ++ rows)
        × AllZip (IsRowText dir.now) members.now rows) }
{
    let above = text_above(dir)?;
    let below = link_of(alloc, above.as_str())?;
    let mut row = String::new(alloc);
    for member in members {
        write_row(alloc, &mut row, below.as_str(), member)?;
        texts.push(Octets::new(Vec::from_slice(alloc, row.as_bytes())?))?;
    }
    Ok(())
}
