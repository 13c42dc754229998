// What stands at a path, as preconditions see it. Its tag isn't made: others are compared with it.
ghost use Rattle.std.specs.Prelude.{◌≡◌, IfSome, IsTrue, Some, option_map, true};
ghost use Rattle.std.specs.List.{list_any};
ghost use Rattle.dav_core.specs.Tags.{equal_strongly, equal_weakly};
ghost use Rattle.dav_core.specs.TagReading.{list_of};
ghost use Rattle.dav_model.specs.Conditions as conditions;
ghost use Rattle.dav_model.specs.Head.{quoted};
ghost use Rattle.dav_conditions.specs.Standing.{is_equal, stands, tag_of, time_of as the_time_of};

use dav_core::{DavMetaData, ETag, EtagList, FileTime};

// Whether a tag equals its own strongly, which isn't weak.
fn is_its_own<M: DavMetaData>(meta: &M, tag: &ETag) -> bool
    ensures { result ≡ is_equal equal_strongly (conditions.strong (M.info meta.now).tag) tag.now }
{
    !tag.weak && meta.has_tag(tag.tag.as_slice())
}

// The same by weak comparison.
fn has_its_text<M: DavMetaData>(meta: &M, tag: &ETag) -> bool
    ensures { result ≡ is_equal equal_weakly (conditions.strong (M.info meta.now).tag) tag.now }
{
    meta.has_tag(tag.tag.as_slice())
}

// Whether one of these equals its own strongly.
fn any_is_own<M: DavMetaData>(meta: &M, tags: &[ETag]) -> bool
    ensures { result ≡ list_any (is_equal equal_strongly (conditions.strong (M.info meta.now).tag)) tags.now }
{
    tags.iter().any(|tag| is_its_own(meta, tag))
}

// The same by weak comparison.
fn any_has_text<M: DavMetaData>(meta: &M, tags: &[ETag]) -> bool
    ensures { result ≡ list_any (is_equal equal_weakly (conditions.strong (M.info meta.now).tag)) tags.now }
{
    tags.iter().any(|tag| has_its_text(meta, tag))
}

// Whether its own tag, where it has one, is among these by strong comparison.
fn is_among<M: DavMetaData>(meta: &M, tags: &[ETag]) -> bool
    ensures { result ≡ conditions.has_equal equal_strongly (conditions.strong (M.info meta.now).tag) tags.now }
{
    any_is_own(meta, tags)
}

// The same by weak comparison.
fn is_among_weakly<M: DavMetaData>(meta: &M, tags: &[ETag]) -> bool
    ensures { result ≡ conditions.has_equal equal_weakly (conditions.strong (M.info meta.now).tag) tags.now }
{
    any_has_text(meta, tags)
}

// Whether a tag of the list equals its own strongly, or the list is a star and something stands.
pub fn matches_strongly<M: DavMetaData>(there: Option<&M>, list: &EtagList) -> bool
    ensures { let info = option_map (λ m. M.info m.now) there.entry in
        result ≡ conditions.matches equal_strongly (stands info) (tag_of info) list.now }
{
    match (list, there) {
        (EtagList::Any, _) => there.is_some(),
        (EtagList::Tags(tags), Some(meta)) => is_among(meta, tags.as_slice()),
        (EtagList::Tags(_), None) => false,
    }
}

// The same by weak comparison.
pub fn matches_weakly<M: DavMetaData>(there: Option<&M>, list: &EtagList) -> bool
    ensures { let info = option_map (λ m. M.info m.now) there.entry in
        result ≡ conditions.matches equal_weakly (stands info) (tag_of info) list.now }
{
    match (list, there) {
        (EtagList::Any, _) => there.is_some(),
        (EtagList::Tags(tags), Some(meta)) => is_among_weakly(meta, tags.as_slice()),
        (EtagList::Tags(_), None) => false,
    }
}

// What stands between two quotes that are the first and the last byte.
fn in_quotes(value: &[u8]) -> Option<&[u8]>
    ensures { IfSome result (λ text. value.now ≡ quoted text.now) }
{
    let Some((first, rest)) = value.split_first() else {
        return None;
    };
    let Some((last, text)) = rest.split_last() else {
        return None;
    };
    if *first == b'"' && *last == b'"' {
        return Some(text);
    }
    None
}

// Whether a value is the own tag, as a field writes it. It takes no memory.
pub fn is_own<M: DavMetaData>(there: Option<&M>, value: &[u8]) -> bool
    ensures { let info = option_map (λ m. M.info m.now) there.entry in IsTrue result
        → option_map (conditions.matches equal_weakly (stands info) (tag_of info)) (list_of value.now) ≡ Some true }
{
    let Some(meta) = there else {
        return false;
    };
    match in_quotes(value) {
        Some(text) => meta.has_tag(text),
        None => false,
    }
}

// The time of its last change, where something stands and the time is known.
fn time_of<M: DavMetaData>(there: Option<&M>) -> Option<FileTime>
    ensures { result ≡ the_time_of (option_map (λ m. M.info m.now) there.entry) }
{
    match there {
        Some(meta) => match meta.modified() {
            Ok(time) => Some(time),
            Err(_) => None,
        },
        None => None,
    }
}

// Whether its time is known and not later than a date.
pub fn is_unmodified<M: DavMetaData>(there: Option<&M>, date: u64) -> bool
    ensures { result ≡ conditions.is_unmodified (the_time_of (option_map (λ m. M.info m.now) there.entry)) date }
{
    match time_of(there) {
        Some(time) => !is_later(time.secs, date),
        None => false,
    }
}

// Whether a second is later than a date.
fn is_later(secs: i64, date: u64) -> bool
    ensures { result ≡ conditions.is_later secs date }
{
    if secs < 0 {
        return false;
    }
    secs as u64 > date
}

// Whether a second is that of a date.
pub fn is_at(secs: i64, date: u64) -> bool
    ensures { result ≡ conditions.is_at secs date }
{
    if secs < 0 {
        return false;
    }
    secs as u64 == date
}
