ghost use Rattle.std.specs.Prelude.{◌≡◌, ◌≤◌, IfOk, None, MatchBool, false, length, option_map};
ghost use Rattle.dav_core.specs.Blanks.{trimmed as the_trimmed};
ghost use Rattle.dav_core.specs.TagReading as reading;
ghost use Rattle.dav_core.specs.Commas.{comma_place, Adds};

use crate::{ETag, trimmed};
use dav_io::{Items, NoMemory};
use std::alloc::Global;

/// Entity tags in their order.
pub type Tags = Items<ETag>;

/// The value of a field `if-match` or `if-none-match`.
#[derive(Drop)]
pub enum EtagList {
    /// A star: whatever stands there.
    Any,
    /// One tag or more.
    Tags(Tags),
}

impl EtagList {
    /// The list that a value is (RFC 9110 sections 13.1.1 and 13.1.2): a star, or tags between commas, with spaces and
    /// tabs around them. Empty members are passed over. None exactly where it is no such list, or has no tag.
    pub fn parse(alloc: Global, value: &[u8]) -> Result<Option<EtagList>, NoMemory>
        ensures { IfOk result (λ list. list ≡ reading.list_of value.now) }
    {
        if trimmed(value) == b"*".as_slice() {
            return Ok(Some(EtagList::Any));
        }
        let tags = all_tags(alloc, value)?;
        Ok(some_tags(tags))
    }
}

// The list of tags, if there are any.
fn some_tags(tags: Option<Vec<ETag>>) -> Option<EtagList>
    ensures { result ≡ reading.some_tags (option_map (λ v. v.items) tags) }
{
    let Some(tags) = tags else {
        return None;
    };
    if tags.is_empty() {
        return None;
    }
    Some(EtagList::Tags(Tags::new(tags)))
}

// How many bytes stand before the first comma that isn't between quotes.
fn comma(text: &[u8]) -> usize
    ensures value { result ≡ comma_place false text.now }
    ensures within { result ≤ length text.now }
{
    let mut quoted = false;
    let mut count = 0;
    for byte in text {
        if *byte == b',' && !quoted {
            return count;
        }
        if *byte == b'"' {
            quoted = !quoted;
        }
        count += 1;
    }
    count
}

// Adds what a member says. False where it is neither empty nor a tag.
fn add_member(alloc: Global, tags: &mut Vec<ETag>, member: &[u8]) -> Result<bool, NoMemory>
    ensures { IfOk result (λ read. MatchBool read (Adds (the_trimmed member.now) tags.old.items tags.new.items)
        (reading.said_in (the_trimmed member.now) ≡ None)) }
{
    let member = trimmed(member);
    if member.is_empty() {
        return Ok(true);
    }
    match ETag::parse(alloc, member)? {
        Some(tag) => {
            tags.push(tag)?;
            Ok(true)
        }
        None => Ok(false),
    }
}

// The tags of all members. None where one of them is neither empty nor a tag.
fn all_tags(alloc: Global, text: &[u8]) -> Result<Option<Vec<ETag>>, NoMemory>
    ensures { IfOk result (λ tags. option_map (λ v. v.items) tags ≡ reading.all_tags (reading.members false text.now)) }
{
    let mut tags = Vec::new(alloc);
    let mut rest = text;
    'members: loop {
        let (member, behind) = rest.split_at(comma(rest));
        if !add_member(alloc, &mut tags, member)? {
            return Ok(None);
        }
        match behind.split_first() {
            Some((_, others)) => rest = others,
            None => return Ok(Some(tags)),
        }
    }
}
