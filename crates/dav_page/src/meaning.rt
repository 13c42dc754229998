// What the texts of a page say.
ghost use Rattle.std.specs.Prelude.{◌≡◌, ℕ, List, IfOk, IfSome, Ok, None, true, false};
ghost use Rattle.std.specs.Str.{chars};
ghost use Rattle.htmlescape.specs.Grammar.{IsText};
ghost use Rattle.dav_page.specs.declared.row.PageRow.{PageRow};
ghost use Rattle.dav_page.specs.Pages.{Crumb, IsCrumb, IsName, IsRow, Leads};
ghost use Rattle.dav_page.specs.Cuts.{Spells, crumb_texts, row_texts};

use crate::PageRow;
use crate::cutting::{CrumbCut, RowCut};
use crate::forms::{has_mark, is_date, is_link, is_size};
use dav_io::{NoMemory, Text};
use htmlescape::{DecodeErrKind, decode_html};
use percent_encoding::percent_decode;
use std::alloc::Global;

// What a text stands for. None where it is no text of the entity grammar.
pub(crate) fn decoded(alloc: Global, text: &str) -> Result<Option<Text>, NoMemory>
    ensures some { IfOk result (λ found. IfSome found (λ value. Spells text.now value)) }
    ensures none { result ≡ Ok None → (value : List ℕ) → IsText (chars text.now) value → ⊥ }
{
    match decode_html(alloc, text) {
        Ok(value) => Ok(Some(Text::new(value))),
        Err(fault) => match fault.kind {
            DecodeErrKind::NoMemory => Err(NoMemory),
            _ => Ok(None),
        },
    }
}

// What a name's text stands for. None where it is no name's.
pub(crate) fn name_in(alloc: Global, text: &str) -> Result<Option<Text>, NoMemory>
    ensures some { IfOk result (λ found. IfSome found (λ name. IsName text.now name)) }
    ensures none { result ≡ Ok None → (name : List ℕ) → IsName text.now name → ⊥ }
{
    if has_mark(text) {
        return Ok(None);
    }
    decoded(alloc, text)
}

// Where a link leads. None where it is no link.
pub(crate) fn path_in(alloc: Global, link: &str) -> Result<Option<Text>, NoMemory>
    ensures some { IfOk result (λ found. IfSome found (λ path. Leads link.now path)) }
    ensures none { result ≡ Ok None → (path : List ℕ) → Leads link.now path → ⊥ }
{
    let link = link.as_bytes();
    if !is_link(link) {
        return Ok(None);
    }
    let mut bytes = Vec::new(alloc);
    percent_decode(link).append_to(&mut bytes)?;
    match String::from_utf8(bytes) {
        Ok(path) => Ok(Some(Text::new(path))),
        Err(_) => Ok(None),
    }
}

// What the texts of a row say. None where they are no row's.
pub(crate) fn row_in(alloc: Global, cut: RowCut<'_>) -> Result<Option<PageRow>, NoMemory>
    ensures some { IfOk result (λ found. IfSome found (λ row. IsRow (row_texts cut.entry) row)) }
    ensures none { result ≡ Ok None → (row : PageRow) → IsRow (row_texts cut.entry) row → ⊥ }
{
    if !is_date(cut.date) || !is_size(cut.size) {
        return Ok(None);
    }
    let Some(path) = path_in(alloc, cut.link)? else {
        return Ok(None);
    };
    let Some(name) = name_in(alloc, cut.name)? else {
        return Ok(None);
    };
    let date = Text::copy(alloc, cut.date)?;
    let size = Text::copy(alloc, cut.size)?;
    Ok(Some(PageRow {
        path,
        name,
        date,
        size,
    }))
}

// Whether the texts are those of a heading's link.
pub(crate) fn is_crumb(alloc: Global, cut: CrumbCut<'_>) -> Result<bool, NoMemory>
    ensures yes { result ≡ Ok true → (crumb : Crumb) × IsCrumb (crumb_texts cut.entry) crumb }
    ensures no { result ≡ Ok false → (crumb : Crumb) → IsCrumb (crumb_texts cut.entry) crumb → ⊥ }
{
    let Some(_path) = path_in(alloc, cut.link)? else {
        return Ok(false);
    };
    let Some(_name) = name_in(alloc, cut.name)? else {
        return Ok(false);
    };
    Ok(true)
}
