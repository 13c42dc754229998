// Paths below a prefix.
ghost use Rattle.std.specs.Prelude.{◌≡◌, ◌≢◌, ◌||◌, ◌++◌, ◌∷◌, [], IfOk, IfErr, OnOk, Ok, Err, map, not, true, take, drop, length};
ghost use Rattle.std.specs.List.{filter};
ghost use Rattle.dav_core.specs.Grammar as grammar;
ghost use Rattle.dav_core.specs.Path.{is_front, is_plain as the_is_plain, all_plain};

use crate::grammar::begins_with_slash;
use crate::plain_name::is_plain;
use dav_io::{NoMemory, Text};
use std::alloc::Global;

// Appends a segment of a prefix, where it isn't empty.
fn push_segment(alloc: Global, names: &mut Vec<Text>, segment: &str) -> Result<(), NoMemory>
    ensures { OnOk result (names.new.items ≡ names.old.items ++ filter (λ s. not (grammar.is_empty s))
        (segment.now ∷ [])) }
{
    if segment.is_empty() {
        return Ok(());
    }
    names.push(Text::copy(alloc, segment)?)?;
    Ok(())
}

// The segments of a prefix.
fn segments(alloc: Global, prefix: &str) -> Result<Vec<&str>, NoMemory>
    ensures { IfOk result (λ v. map (λ s. s.now) v.items ≡ grammar.segments prefix.now) }
{
    let all = prefix.split('/').collect(alloc)?;
    Ok(all)
}

// The names of a prefix.
pub fn prefix_names(alloc: Global, prefix: &str) -> Result<Vec<Text>, NoMemory>
    ensures { IfOk result (λ names. names.items ≡ grammar.prefix_names prefix.now) }
{
    if prefix.is_empty() {
        return Ok(Vec::new(alloc));
    }
    let all = segments(alloc, prefix)?;
    let mut names = Vec::new(alloc);
    for segment in all.as_slice() {
        push_segment(alloc, &mut names, *segment)?;
    }
    Ok(names)
}

// Whether names begin with those of a prefix.
pub fn begins_with(names: &[Text], prefix: &[Text]) -> bool
    ensures { result ≡ is_front prefix.now names.now }
{
    names.starts_with(prefix)
}

// Whether a segment may stand in a prefix.
fn may_stand(segment: &[u8]) -> bool
    ensures { result ≡ (grammar.is_empty segment.now || the_is_plain segment.now) }
{
    if segment.is_empty() {
        return true;
    }
    is_plain(segment)
}

// Whether all names of a prefix are plain.
fn has_plain_names(prefix: &[u8]) -> bool
    ensures { result ≡ all_plain (grammar.prefix_names prefix.now) }
{
    prefix
        .split(|b| *b == b'/')
        .all(|segment| may_stand(segment))
}

// Whether a text is a prefix as a server has it.
pub fn fits(prefix: &[u8]) -> bool
    ensures { result ≡ grammar.fits_prefix prefix.now }
{
    if prefix.is_empty() {
        return true;
    }
    if !begins_with_slash(prefix) {
        return false;
    }
    has_plain_names(prefix)
}
