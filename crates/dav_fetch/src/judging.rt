// What a file's answer is good for, by its status and its fields.
ghost use Rattle.std.specs.Prelude.{◌≡◌, ◌≤◌, ◌<◌, ◌&&◌, IfOk, Some, codes, length, nat_le, nat_lt, option_copied, true};
ghost use Rattle.std.specs.Option.{ForSome};
ghost use Rattle.std.specs.Char.{is_ascii_digit};
ghost use Rattle.std.specs.List.{list_all};
ghost use Rattle.std.specs.Str.{all_ascii_digits};
ghost use Rattle.std.specs.Str.Parse.{digits_value};
ghost use Rattle.dav_model.specs.Announced.{value_of as the_value_of};
ghost use Rattle.dav_fetch.specs.Uses.{IsJudged, IsNew, Means};
ghost use Rattle.dav_fetch.specs.Judging.{has_value as the_has_value, is_rest_of as the_is_rest_of, number_said, replaced as the_replaced, rest_use, strong_said};

use crate::asking::{Wanted, wanted_of};
use crate::copied::Kept;
use crate::peer::Got;
use dav_core::{ETag, FsPath};
use dav_io::{Field, NoMemory, Octets};
use std::alloc::Global;
use std::str;

// What an answer does to a file. Where it gives no bytes, what is kept of the file comes back.
#[derive(Drop)]
pub(crate) enum Judged {
    // So many bytes are announced behind those of this file.
    Gives { file: Kept, due: u64 },
    // It is still the same.
    Keeps(Option<Kept>),
    // The status isn't awaited.
    Refuses(Option<Kept>),
    // The head says what can't be of the file.
    Spoils(Option<Kept>),
    NoMemory(Option<Kept>),
}

// The value of the first field of a name.
fn value_of<'a>(fields: &'a [Field], name: &str) -> Option<&'a [u8]>
    ensures { option_copied result ≡ the_value_of name.now fields.now }
{
    for field in fields {
        if field.name.as_str() == name {
            return Some(field.value.as_slice());
        }
    }
    None
}

// Whether a text is digits alone.
fn are_digits(text: &[u8]) -> bool
    ensures { result ≡ list_all is_ascii_digit text.now }
{
    text.iter().all(|b| b.is_ascii_digit())
}

// Whether a text is 1 to 19 digits.
#[tactic(auto, using(dav_io::proofs::Digits::all_are_digits))]
fn is_number(text: &[u8]) -> bool
    ensures { result ≡ (nat_lt 0 (length text.now) && (nat_le (length text.now) 19 && all_ascii_digits text.now)) }
{
    !text.is_empty() && text.len() <= 19 && are_digits(text)
}

// The number that so many digits are.
fn parsed(digits: &[u8]) -> Option<u64>
    requires some { 0 < length digits.now }
    requires few { length digits.now ≤ 19 }
    requires digits { all_ascii_digits digits.now ≡ true }
    ensures { result ≡ Some (digits_value 10 digits.now) }
{
    match str::from_utf8(digits) {
        Ok(text) => match text.parse::<u64>() {
            Ok(number) => Some(number),
            Err(_) => None,
        },
        Err(_) => None,
    }
}

// The number that a text of 1 to 19 digits is.
fn number_in(text: &[u8]) -> Option<u64>
    ensures { result ≡ number_said (Some text.now) }
{
    if is_number(text) { parsed(text) } else { None }
}

// The length of the body that a head announces.
fn length_in(fields: &[Field]) -> Option<u64>
    ensures { result ≡ number_said (the_value_of (codes "content-length") fields.now) }
{
    match value_of(fields, "content-length") {
        Some(text) => number_in(text),
        None => None,
    }
}

// The value of the tag, where it is one strong tag; else nothing.
fn tag_in(alloc: Global, fields: &[Field]) -> Result<Octets, NoMemory>
    ensures { IfOk result (λ tag. tag ≡ strong_said (the_value_of (codes "etag") fields.now)) }
{
    let mut kept = Octets::empty(alloc);
    if let Some(value) = value_of(fields, "etag") {
        if let Some(tag) = ETag::parse(alloc, value)? {
            if !tag.weak {
                kept.extend(value)?;
            }
        }
    }
    Ok(kept)
}

// Whether a field has this value.
fn has_value(fields: &[Field], name: &str, wanted: &[u8]) -> bool
    ensures { result ≡ the_has_value (the_value_of name.now fields.now) wanted.now }
{
    match value_of(fields, name) {
        Some(value) => value == wanted,
        None => false,
    }
}

// Whether a head is that of the rest of this file.
fn is_rest_of(alloc: Global, file: &Kept, fields: &[Field]) -> Result<bool, NoMemory>
    requires { length file.now.bytes ≤ file.now.len }
    ensures { IfOk result (λ is. is ≡ the_is_rest_of file.now fields.now) }
{
    let kept = file.bytes.as_slice().len();
    let last = file.len.saturating_sub(1);
    let whole = file.len;
    let span = format!(in alloc; "bytes {kept}-{last}/{whole}")?;
    Ok(
        has_value(fields, "etag", file.tag.as_slice())
            && has_value(fields, "content-range", span.as_bytes())
            && length_in(fields) == Some(whole - kept as u64),
    )
}

// A file of which no bytes came yet, as its answer's head says it, and how many are announced. None where no length is
// announced.
fn new_file(alloc: Global, path: &FsPath, fields: &[Field]) -> Result<Option<(Kept, u64)>, NoMemory>
    ensures { IfOk result (λ new. IsNew path.now fields.now new) }
{
    let Some(len) = length_in(fields) else {
        return Ok(None);
    };
    let path = path.try_clone()?;
    let tag = tag_in(alloc, fields)?;
    let bytes = Octets::empty(alloc);
    Ok(Some((
        Kept {
            path,
            tag,
            len,
            bytes,
        },
        len,
    )))
}

// The file anew.
fn replaced(alloc: Global, path: &FsPath, kept: Option<Kept>, fields: &[Field]) -> Judged
    ensures { Means (the_replaced path.now fields.now) kept result }
{
    match new_file(alloc, path, fields) {
        Ok(Some((file, due))) => Judged::Gives { file, due },
        Ok(None) => Judged::Spoils(kept),
        Err(_) => Judged::NoMemory(kept),
    }
}

// The rest of a file.
fn resumed(alloc: Global, file: Kept, fields: &[Field]) -> Judged
    requires { length file.bytes ≤ file.len }
    ensures { Means (rest_use file fields.now) (Some file) result }
{
    let due = file.len - file.bytes.as_slice().len() as u64;
    match is_rest_of(alloc, &file, fields) {
        Ok(true) => Judged::Gives { file, due },
        Ok(false) => Judged::Spoils(Some(file)),
        Err(_) => Judged::NoMemory(Some(file)),
    }
}

// What an answer does to the file at a path, of which this is kept.
pub(crate) fn judge(alloc: Global, path: &FsPath, kept: Option<Kept>, got: &Got) -> Judged
    requires { ForSome kept (λ f. length f.bytes ≤ f.len) }
    ensures { IsJudged path.now kept got.now.status got.now.headers result }
{
    let fields = got.headers.as_slice();
    if got.status == 200 {
        return replaced(alloc, path, kept, fields);
    }
    match (got.status, wanted_of(&kept), kept) {
        (206, Wanted::Rest, Some(file)) => resumed(alloc, file, fields),
        (304, Wanted::Same, Some(file)) => Judged::Keeps(Some(file)),
        (_, _, kept) => Judged::Refuses(kept),
    }
}
