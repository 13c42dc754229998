//! What holds of the definitions alone. Each function has nothing to do, and its contract is the law.
ghost use Rattle.std.specs.Prelude.{◌≡◌, ℕ, List, true};
ghost use Rattle.std.specs.List.{AllByRecursion, flat_map, list_all};
ghost use Rattle.std.specs.Str.{is_utf8};
ghost use Rattle.dav_core.specs.DavPath.{WebPath};
ghost use Rattle.dav_page.specs.declared.row.PageRow.{PageRow};
ghost use Rattle.dav_page.specs.Index.{CanBeSaid, LeadsInside, page_of, page_texts};
ghost use Rattle.dav_page.specs.Listed.{AreSound, all_names};
ghost use Rattle.dav_page.specs.Pages.{Page, IsPage};

/// A text is a page in one way at most: a reader can take one thing from it.
pub fn pages_are_one()
    ensures { (text : List ℕ) (one other : Page) → IsPage text one → IsPage text other → one ≡ other }
{}

/// Sound rows lead to plain names right below their directory, and so to nothing outside it.
pub fn sound_rows_lead_inside()
    ensures { (dir : WebPath) (rows : List PageRow) → AreSound dir rows → AllByRecursion (LeadsInside dir) rows }
{}

/// Where a directory's names are text, and its rows can be said, a reader takes from the page that is written just the
/// title, the way there and the rows.
pub fn written_pages_are_read()
    ensures { (dir : WebPath) (rows : List PageRow) → list_all is_utf8 (all_names dir) ≡ true → AllByRecursion CanBeSaid rows
        → IsPage (flat_map (λ t. t) (page_texts dir rows)) (page_of dir rows) }
{}
