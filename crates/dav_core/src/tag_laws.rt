//! Laws of entity tags and lists of them: the readers read what the grammar has, and each text has one reading. Each
//! function has nothing to do, and its contract is the law.
ghost use Rattle.std.specs.Prelude.{◌≡◌, ◌↔◌, ℕ, List, Some};
ghost use Rattle.dav_core.specs.Tags.{IsTag, IsList, IsIfRange};
ghost use Rattle.dav_core.specs.TagReading.{tag_of, list_of, if_range_of};
ghost use Rattle.dav_core.specs.declared.etag.ETag.{ETag as Tag};
ghost use Rattle.dav_core.specs.declared.etag_list.EtagList.{EtagList as TagList};
ghost use Rattle.dav_core.specs.declared.if_range.IfRange.{IfRange as Condition};

/// A tag is read where the text is one, and only there.
pub fn tags_are_read()
    ensures { (text : List ℕ) (tag : Tag) → (tag_of text ≡ Some tag) ↔ IsTag text tag }
{}

/// A list is read where the text is one, and only there.
pub fn lists_are_read()
    ensures { (text : List ℕ) (list : TagList) → (list_of text ≡ Some list) ↔ IsList text list }
{}

/// A value of `if-range` is read where it is a tag or a date, and only there. None is both.
pub fn if_ranges_are_read()
    ensures { (text : List ℕ) (read : Condition) → (if_range_of text ≡ Some read) ↔ IsIfRange text read }
{}

/// A text is one tag at most.
pub fn tags_are_one()
    ensures { (text : List ℕ) (a b : Tag) → IsTag text a → IsTag text b → a ≡ b }
{}

/// A text is one list at most.
pub fn lists_are_one()
    ensures { (text : List ℕ) (a b : TagList) → IsList text a → IsList text b → a ≡ b }
{}
