// Cuts a page into its texts. Nothing here judges what they say.
ghost use Rattle.std.specs.Prelude.{◌≡◌, ◌<◌, ◌++◌, ℕ, List, IfSome, None, false};
ghost use Rattle.dav_page.specs.Pages.{RowTexts, CrumbTexts};
ghost use Rattle.dav_page.specs.Cuts.{IsFreeOf, IsCut, IsBetween, IsRowFront, IsCrumbFront, row_texts, crumb_texts};

// The texts of a row as they stand.
#[derive(Clone, Copy)]
pub(crate) struct RowCut<'a> {
    pub(crate) link: &'a str,
    pub(crate) name: &'a str,
    pub(crate) date: &'a str,
    pub(crate) size: &'a str,
}

// The texts of a heading's link as they stand.
#[derive(Clone, Copy)]
pub(crate) struct CrumbCut<'a> {
    pub(crate) link: &'a str,
    pub(crate) name: &'a str,
}

// What is behind a literal at the front. None where it doesn't stand there.
pub(crate) fn expect<'a>(whole: &'a str, literal: &str) -> Option<&'a str>
    ensures some { IfSome result (λ rest. whole.now ≡ literal.now ++ rest.now) }
    ensures none { result ≡ None → (rest : List ℕ) → whole.now ≡ literal.now ++ rest → ⊥ }
{
    whole.strip_prefix(literal)
}

// The text up to the first `stop`, and the rest from there on.
pub(crate) fn until(whole: &str, stop: char) -> Option<(&str, &str)>
    requires { stop < 128 }
    ensures some { IfSome result (λ cut. IsCut stop whole.now cut.0.now cut.1.now) }
    ensures none { result ≡ None → IsFreeOf stop whole.now }
{
    let (front, _) = whole.split_once(stop)?;
    Some(whole.split_at(front.len()))
}

// The text between a literal at the front and the first `stop` behind it, and the rest from there on.
pub(crate) fn between<'a>(whole: &'a str, literal: &str, stop: char) -> Option<(&'a str, &'a str)>
    requires { stop < 128 }
    ensures some { IfSome result (λ cut. IsBetween literal.now stop whole.now cut.0.now cut.1.now) }
    ensures none { result ≡ None → (text rest : List ℕ) → IsBetween literal.now stop whole.now text rest → ⊥ }
{
    let behind = expect(whole, literal)?;
    until(behind, stop)
}

// The texts of a row at the front, and the rest behind it.
pub(crate) fn cut_row(whole: &str) -> Option<(RowCut<'_>, &str)>
    ensures some { IfSome result (λ cut. IsRowFront whole.now (row_texts cut.0) cut.1.now) }
    ensures none { result ≡ None → (texts : RowTexts) (rest : List ℕ) → IsRowFront whole.now texts rest → ⊥ }
{
    let (link, rest) = between(whole, "<tr><td><a href=\"", '"')?;
    let (name, rest) = between(rest, "\">", '<')?;
    let (date, rest) = between(rest, "</a></td><td class=\"mono\">", '<')?;
    let (size, rest) = between(rest, "</td><td class=\"mono\" align=\"right\">", '<')?;
    let rest = expect(rest, "</td></tr>")?;
    let cut = RowCut {
        link,
        name,
        date,
        size,
    };
    Some((cut, rest))
}

// The texts of a heading's link at the front, and the rest behind it.
pub(crate) fn cut_crumb(whole: &str) -> Option<(CrumbCut<'_>, &str)>
    ensures some { IfSome result (λ cut. IsCrumbFront whole.now (crumb_texts cut.0) cut.1.now) }
    ensures none { result ≡ None → (texts : CrumbTexts) (rest : List ℕ) → IsCrumbFront whole.now texts rest → ⊥ }
{
    let (link, rest) = between(whole, "<a href = \"", '"')?;
    let (name, rest) = between(rest, "\">", '<')?;
    let rest = expect(rest, "</a>/")?;
    Some((CrumbCut { link, name }, rest))
}
