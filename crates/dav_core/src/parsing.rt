// The path that a text gives.
ghost use Rattle.std.specs.Prelude.{◌≡◌, ◌≢◌, ◌||◌, ◌==◌, ◌≤◌, IfOk, IfErr, Ok, Err, option_map, true, take, drop, length};
ghost use Rattle.dav_core.specs.Grammar as grammar;
ghost use Rattle.dav_core.specs.Path.{all_plain, is_dots as the_is_dots};

use crate::grammar::{before_query, is_readable};
use crate::plain_name::is_dots;
use crate::prefix::{begins_with, prefix_names};
use crate::segments::last_segment;
use crate::usual::names_of;
use crate::{DavPath, FsPath, ParseError};
use dav_io::{NoMemory, Text};
use std::alloc::Global;

// Whether a segment at a text's end gives a path a final slash.
fn ends(segment: &[u8]) -> bool
    ensures { result ≡ (grammar.is_empty segment.now || the_is_dots segment.now) }
{
    if segment.is_empty() {
        return true;
    }
    is_dots(segment)
}

// Whether a text gives a path of these names a final slash.
fn has_slash(text: &[u8], names: &[Text]) -> bool
    ensures { result ≡ grammar.has_slash (grammar.segments text.now) names.now }
{
    if names.is_empty() {
        return true;
    }
    ends(last_segment(text))
}

// The names behind so many. Where that is all of them they aren't moved.
fn behind(mut names: Vec<Text>, count: usize) -> Result<Vec<Text>, NoMemory>
    requires { count ≤ length names.items }
    ensures { IfOk result (λ rest. rest.items ≡ drop count names.items) }
{
    if count == 0 {
        return Ok(names);
    }
    let rest = names.split_off(count)?;
    Ok(rest)
}

// The path of all names that a text says, the prefix's first.
fn placed(
    alloc: Global,
    text: &[u8],
    prefix: Vec<Text>,
    all: Vec<Text>,
) -> Result<DavPath, ParseError>
    requires { all_plain all.items ≡ true }
    ensures ok { IfOk result (λ path. grammar.placed (grammar.segments text.now) prefix.items all.items ≡ Ok path) }
    ensures err { IfErr result (λ fault. fault ≢ ParseError.NoMemory
        → grammar.placed (grammar.segments text.now) prefix.items all.items ≡ Err fault) }
{
    if !begins_with(all.as_slice(), prefix.as_slice()) {
        return Err(ParseError::PrefixMismatch);
    }
    let names = behind(all, prefix.len())?;
    let slash = has_slash(text, names.as_slice());
    Ok(DavPath::of_parts(alloc, FsPath::new(prefix), FsPath::new(names), slash))
}

// The path that a text gives under a prefix, or the first fault of the text.
pub fn read(alloc: Global, src: &str, prefix: &str) -> Result<DavPath, ParseError>
    ensures ok { IfOk result (λ path. grammar.parsed src.now prefix.now ≡ Ok path) }
    ensures err { IfErr result (λ fault. fault ≢ ParseError.NoMemory → grammar.parsed src.now prefix.now ≡ Err fault) }
{
    let cut = before_query(src.as_bytes());
    if !is_readable(cut) {
        return Err(ParseError::InvalidPath);
    }
    let all = match names_of(alloc, cut) {
        Ok(all) => all,
        Err(fault) => return Err(fault),
    };
    let prefix = prefix_names(alloc, prefix)?;
    placed(alloc, cut, prefix, all)
}
