//! What a resource's content is, and what it says of itself.
ghost use Rattle.std.specs.Prelude.{◌≡◌, ◌<◌, IfOk, MatchOption, Some, None, codes, option_copied};
ghost use Rattle.dav_report.specs.Lines.{cut, colon, value_of, calendar_uid_in, calendar_uid, before_parameters, after_group, vcard_value_in, vcard_value, is_object, CutsAt};

use dav_io::{NoMemory, Text};
use std::alloc::Global;

/// Whether the content begins and ends as an iCalendar object. White space may follow it.
pub fn is_calendar_data(content: &[u8]) -> bool
    ensures { result ≡ is_object (codes "BEGIN:VCALENDAR") (codes "END:VCALENDAR") content.now }
{
    content.starts_with(b"BEGIN:VCALENDAR") && content.trim_ascii_end().ends_with(b"END:VCALENDAR")
}

/// Whether the content begins and ends as a vCard. White space may follow it.
pub fn is_vcard_data(content: &[u8]) -> bool
    ensures { result ≡ is_object (codes "BEGIN:VCARD") (codes "END:VCARD") content.now }
{
    content.starts_with(b"BEGIN:VCARD") && content.trim_ascii_end().ends_with(b"END:VCARD")
}

/// The text before and after the first `at`.
pub(crate) fn cut_at(text: &str, at: char) -> Option<(&str, &str)>
    requires { at < 128 }
    ensures { CutsAt at text.now result }
{
    text.split_once(at)
}

/// What follows the first colon.
fn after_colon(line: &str) -> Option<&str>
    ensures { option_copied result ≡ value_of line.now }
{
    match cut_at(line, ':') {
        Some((_, value)) => Some(value),
        None => None,
    }
}

/// The UID in a line of a calendar object.
fn calendar_uid_of(line: &str) -> Option<&str>
    ensures { option_copied result ≡ calendar_uid_in line.now }
{
    if line.as_bytes().starts_with(b"UID:") || line.as_bytes().starts_with(b"UID;") {
        after_colon(line)
    } else {
        None
    }
}

/// The UID of a calendar object: that of the first line that has one (RFC 5545 section 3.8.4.7).
pub fn extract_calendar_uid(alloc: Global, content: &str) -> Result<Option<Text>, NoMemory>
    ensures { IfOk result (λ uid. uid ≡ calendar_uid content.now) }
{
    for line in content.lines() {
        match calendar_uid_of(line.trim()) {
            Some(uid) => return Ok(Some(Text::copy(alloc, uid)?)),
            None => {}
        }
    }
    Ok(None)
}

/// The part of a line before its parameters.
fn without_parameters(part: &str) -> &str
    ensures { result.now ≡ before_parameters part.now }
{
    match cut_at(part, ';') {
        Some((name, _)) => name,
        None => part,
    }
}

/// The name of a property without its group.
fn without_group(name: &str) -> &str
    ensures { result.now ≡ after_group name.now }
{
    match cut_at(name, '.') {
        Some((_, name)) => name,
        None => name,
    }
}

/// The value in a line of a vCard, where its property has this name.
fn vcard_value_of<'a>(line: &'a str, name: &str) -> Option<&'a str>
    ensures { option_copied result ≡ vcard_value_in name.now line.now }
{
    match cut_at(line, ':') {
        Some((part, value)) => {
            if without_group(without_parameters(part)).eq_ignore_ascii_case(name) {
                Some(value)
            } else {
                None
            }
        }
        None => None,
    }
}

/// The value in the first line of a vCard whose property has this name.
fn read_value(alloc: Global, content: &str, name: &str) -> Result<Option<Text>, NoMemory>
    ensures { IfOk result (λ value. value ≡ vcard_value name.now content.now) }
{
    for line in content.lines() {
        match vcard_value_of(line.trim(), name) {
            Some(value) => return Ok(Some(Text::copy(alloc, value)?)),
            None => {}
        }
    }
    Ok(None)
}

/// The UID of a vCard (RFC 6350 section 6.7.6).
pub fn extract_vcard_uid(alloc: Global, content: &str) -> Result<Option<Text>, NoMemory>
    ensures { IfOk result (λ uid. uid ≡ vcard_value (codes "UID") content.now) }
{
    read_value(alloc, content, "UID")
}

/// The formatted name of a vCard (RFC 6350 section 6.2.1).
pub fn extract_vcard_fn(alloc: Global, content: &str) -> Result<Option<Text>, NoMemory>
    ensures { IfOk result (λ name. name ≡ vcard_value (codes "FN") content.now) }
{
    read_value(alloc, content, "FN")
}
