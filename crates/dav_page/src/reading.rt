ghost use Rattle.std.specs.Prelude.{◌≡◌, ℕ, List, IfOk, IfSome, Ok, None};
ghost use Rattle.dav_page.specs.declared.row.PageRow.{PageRow};
ghost use Rattle.std.specs.Str.{bytes_eq};
ghost use Rattle.dav_page.specs.Pages.{Page, IsPage, after_rows};
ghost use Rattle.dav_page.specs.Cuts.{HasTitle, HasHeading, HasCrumbs, HasLast, HasRoot, HasRows};

use crate::Rows;
use crate::cutting::{between, cut_crumb, cut_row, expect, until};
use crate::literals::{AFTER_ROWS, BEFORE_HEADING, BEFORE_ROWS, BEFORE_TITLE, ROOT_LINK};
use crate::meaning::{decoded, is_crumb, name_in, row_in};
use dav_io::NoMemory;
use std::alloc::Global;

// What is behind a page's title and the text that leads to its heading. None where no such front stands there.
fn skip_title<'a>(alloc: Global, page: &'a str) -> Result<Option<&'a str>, NoMemory>
    ensures some { IfOk result (λ found. IfSome found (λ rest. HasTitle page.now rest.now)) }
    ensures none { result ≡ Ok None → (rest : List ℕ) → HasTitle page.now rest → ⊥ }
{
    let Some((title, rest)) = between(page, BEFORE_TITLE, '<') else {
        return Ok(None);
    };
    let Some(behind) = expect(rest, BEFORE_HEADING) else {
        return Ok(None);
    };
    let Some(_title) = decoded(alloc, title)? else {
        return Ok(None);
    };
    Ok(Some(behind))
}

// What is behind the last name of a heading and the text that leads to the rows.
fn skip_last<'a>(alloc: Global, whole: &'a str) -> Result<Option<&'a str>, NoMemory>
    ensures some { IfOk result (λ found. IfSome found (λ rest. HasLast whole.now rest.now)) }
    ensures none { result ≡ Ok None → (rest : List ℕ) → HasLast whole.now rest → ⊥ }
{
    let Some((name, rest)) = until(whole, '<') else {
        return Ok(None);
    };
    let Some(behind) = expect(rest, BEFORE_ROWS) else {
        return Ok(None);
    };
    let Some(_name) = name_in(alloc, name)? else {
        return Ok(None);
    };
    Ok(Some(behind))
}

// What is behind the links of a heading, its last name, and the text that leads to the rows.
fn skip_crumbs<'a>(alloc: Global, whole: &'a str) -> Result<Option<&'a str>, NoMemory>
    ensures some { IfOk result (λ found. IfSome found (λ rest. HasCrumbs whole.now rest.now)) }
    ensures none { result ≡ Ok None → (rest : List ℕ) → HasCrumbs whole.now rest → ⊥ }
{
    let mut left = whole;
    'crumbs: while let Some((cut, behind)) = cut_crumb(left) {
        if !is_crumb(alloc, cut)? {
            return Ok(None);
        }
        left = behind;
    }
    skip_last(alloc, left)
}

// What is behind the heading of the root and the text that leads to the rows.
fn skip_root(whole: &str) -> Option<&str>
    ensures some { IfSome result (λ rest. HasRoot whole.now rest.now) }
    ensures none { result ≡ None → (rest : List ℕ) → HasRoot whole.now rest → ⊥ }
{
    let rest = expect(whole, "/")?;
    expect(rest, BEFORE_ROWS)
}

// What is behind a heading and the text that leads to the rows.
fn skip_heading<'a>(alloc: Global, whole: &'a str) -> Result<Option<&'a str>, NoMemory>
    ensures some { IfOk result (λ found. IfSome found (λ rest. HasHeading whole.now rest.now)) }
    ensures none { result ≡ Ok None → (rest : List ℕ) → HasHeading whole.now rest → ⊥ }
{
    match expect(whole, ROOT_LINK) {
        Some(rest) => skip_crumbs(alloc, rest),
        None => Ok(skip_root(whole)),
    }
}

// Whether the text is what stands behind the rows.
fn is_end(text: &str) -> bool
    ensures { result ≡ bytes_eq text.now after_rows }
{
    text == AFTER_ROWS
}

// The rows up to the end of the page. None where it isn't rows and the end.
fn read_rows(alloc: Global, whole: &str) -> Result<Option<Rows>, NoMemory>
    ensures some { IfOk result (λ found. IfSome found (HasRows whole.now)) }
    ensures none { result ≡ Ok None → (rows : List PageRow) → HasRows whole.now rows → ⊥ }
{
    let mut rows = Vec::new(alloc);
    let mut left = whole;
    'rows: while !is_end(left) {
        let Some((cut, behind)) = cut_row(left) else {
            return Ok(None);
        };
        let Some(row) = row_in(alloc, cut)? else {
            return Ok(None);
        };
        rows.push(row)?;
        left = behind;
    }
    Ok(Some(Rows::new(rows)))
}

/// The rows of an index page, in the order in which they stand. None exactly where the text is no page.
///
/// A page is told by its form alone: no calendar is asked for a date, and link, name and size of a row aren't compared.
pub fn read_page(alloc: Global, page: &str) -> Result<Option<Rows>, NoMemory>
    ensures some { IfOk result (λ found. IfSome found (λ rows. (p : Page) × IsPage page.now p × (rows ≡ p.rows))) }
    ensures none { result ≡ Ok None → (p : Page) → IsPage page.now p → ⊥ }
{
    let Some(rest) = skip_title(alloc, page)? else {
        return Ok(None);
    };
    let Some(rest) = skip_heading(alloc, rest)? else {
        return Ok(None);
    };
    read_rows(alloc, rest)
}
