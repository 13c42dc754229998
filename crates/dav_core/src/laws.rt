//! What holds of the definitions alone. Each function has nothing to do, and its contract is the law.
ghost use Rattle.std.specs.Prelude.{◌≡◌, ◌<◌, ◌++◌, ◌∷◌, [], ℕ, List, All, Ok, true, false};
ghost use Rattle.std.specs.Str.{is_utf8};
ghost use Rattle.percent_encoding.specs.Percent.{percent_decode};
ghost use Rattle.dav_core.specs.DavPath.{WebPath, IsPath, link_of, shown};
ghost use Rattle.dav_core.specs.Grammar.{and_then, keep, kept_of, parsed, prefix_names};
ghost use Rattle.dav_core.specs.Path.{Names, is_plain, parent_of};

/// A link, percent-decoded, is what it was made of.
pub fn links_decode()
    ensures { (bytes : List ℕ) → All (λ b. b < 256) bytes → percent_decode (link_of bytes) ≡ bytes }
{}

/// Segments are kept one after another: an empty one and `.` are dropped, `..` drops the last that is kept, and is
/// refused where none is left.
pub fn segments_are_kept()
    ensures { (segments : Names) (next : List ℕ)
        → kept_of (segments ++ next ∷ []) ≡ and_then (kept_of segments) (keep next) }
{}

/// A name that was pushed is the one that the parent is without.
pub fn pushed_names_go()
    ensures { (names : Names) (name : List ℕ) → parent_of (names ++ name ∷ []) ≡ names }
{}

/// A path that a text gives is a list of plain names in UTF-8 that ends well, below the names of the prefix. The calls
/// that change a path or make another of it keep that.
pub fn paths_stay_paths()
    ensures read { (text prefix : List ℕ) (path : WebPath) → parsed text prefix ≡ Ok path → IsPath path
        × (prefix_names prefix ≡ path.prefix) }
    ensures pushed { (path : WebPath) (name : List ℕ) → IsPath path → is_plain name ≡ true → is_utf8 name ≡ true
        → IsPath (record path { names = path.names ++ name ∷ []; slash = false }) }
    ensures parent { (path : WebPath) → IsPath path
        → IsPath (record path { names = parent_of path.names; slash = true }) }
    ensures slash { (path : WebPath) → IsPath path → IsPath (record path { slash = true }) }
{}

/// A link is parsed back to its path: `from_str_and_prefix` of what `as_url_string` writes, under the same prefix, is
/// the path again.
pub fn links_parse_back()
    ensures { (path : WebPath) (prefix : List ℕ) → IsPath path → prefix_names prefix ≡ path.prefix
        → parsed (link_of (shown path)) prefix ≡ Ok path }
{}
