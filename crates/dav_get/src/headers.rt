// The header fields of answers.
ghost use Rattle.std.specs.Prelude.{◌≡◌, ◌<◌, [], ◌++◌, ◌∷◌, List, ℕ, true, Option, None, Some, IfOk, OnOk, codes, decimal};
ghost use Rattle.dav_io.specs.Texts.{spelled};
ghost use Rattle.dav_model.specs.Slices.{IsWithin};
ghost use Rattle.dav_get.specs.Prepared.{IsSentOf};
ghost use Rattle.std.specs.Option.{option_map};
ghost use Rattle.dav_core.specs.Info.{is_in_years, natural};
ghost use Rattle.dav_model.specs.Head.{field, field_where, quoted_where, sent_fields as the_sent_fields, sent_length as the_sent_length, sent_range as the_sent_range, sent_type as the_sent_type, span_text, redirected_fields as the_redirected_fields, well_known, IsDate};

use dav_core::{DavMetaData, FileTime};
use dav_io::{Field, FieldName, FieldValue, Fields, NoMemory, Octets, Text, add_field};
use dav_model::{Sent, Slice};
use httpdate::HttpDate;
use itoa::Buffer;
use std::alloc::Global;

// The most fields of a file's answer.
const MOST_FIELDS: usize = 6;

// The most bytes of the value of `content-range`: a word, three numbers and what parts them.
const MOST_RANGE: usize = 68;

// Adds a field of this value.
fn push(fields: &mut Vec<Field>, name: FieldName, value: FieldValue) -> Result<(), NoMemory>
    ensures { OnOk result (fields.new.items ≡ fields.old.items ++ field (spelled name) value ∷ []) }
{
    let name = Text::known(name);
    fields.push(Field { name, value })?;
    Ok(())
}

// Adds the entity tag, where there is one.
fn add_tag<M: DavMetaData>(alloc: Global, fields: &mut Vec<Field>, meta: &M) -> Result<(), NoMemory>
    ensures { OnOk result (fields.new.items ≡ fields.old.items ++ field_where (codes "etag")
        (quoted_where (M.info meta.now).tag)) }
{
    match meta.tag_value(alloc)? {
        Some(value) => push(fields, FieldName::Etag, value),
        None => Ok(()),
    }
}

// The whole seconds of a known time, since 1970.
fn secs_of(time: FileTime) -> u64
    requires { is_in_years time.secs ≡ true }
    ensures secs { result ≡ natural time.secs }
    ensures known { result < 253_402_300_800 }
{
    time.secs as u64
}

// The text of a known time.
fn date_of(time: FileTime) -> [u8; 29]
    requires { is_in_years time.secs ≡ true }
    ensures { IsDate (Some time) (Some result) }
{
    match HttpDate::from_unix_secs(secs_of(time)) {
        Ok(date) => date.to_bytes(),
        Err(_) => unreachable!(),
    }
}

// Adds the time of the last change, where it is known.
fn add_date<M: DavMetaData>(fields: &mut Vec<Field>, meta: &M) -> Result<(), NoMemory>
    ensures { OnOk result ((date : Option (List ℕ)) × IsDate (M.info meta.now).modified date
        × (fields.new.items ≡ fields.old.items ++ field_where (codes "last-modified") date)) }
{
    match meta.modified() {
        Ok(time) => {
            let date = date_of(time);
            add_field(fields, Text::known(FieldName::LastModified), &date)?;
            Ok(())
        }
        Err(_) => Ok(()),
    }
}

// The number of the field `content-length`, where it stands.
fn sent_length(gives: bool, len: u64, sent: &Sent) -> Option<u64>
    ensures { result ≡ the_sent_length gives len sent.now }
{
    match sent {
        Sent::All => Some(len),
        Sent::Alone(status) => {
            if gives && *status != 304 {
                return Some(0);
            }
            Some(len)
        }
        Sent::Unsatisfied => {
            if gives {
                return Some(0);
            }
            Some(len)
        }
        Sent::One(part) => Some(part.count),
        Sent::Several(_) => None,
    }
}

// Adds `content-length`, where it stands.
fn add_length(fields: &mut Vec<Field>, gives: bool, len: u64, sent: &Sent) -> Result<(), NoMemory>
    ensures { OnOk result (fields.new.items ≡ fields.old.items ++ field_where (codes "content-length")
        (option_map decimal (the_sent_length gives len sent.now))) }
{
    let Some(number) = sent_length(gives, len, sent) else {
        return Ok(());
    };
    let mut text = Buffer::new();
    add_field(
        fields,
        Text::known(FieldName::ContentLength),
        text.format(number).as_bytes(),
    )
}

// Appends the digits of a number.
fn push_number(text: &mut Vec<u8>, number: u64) -> Result<(), NoMemory>
    ensures { OnOk result (text.new.items ≡ text.old.items ++ decimal number) }
{
    let mut digits = Buffer::new();
    text.extend_from_slice(digits.format(number).as_bytes())?;
    Ok(())
}

/// Appends the first and the last byte of a slice, and the length of the file (RFC 9110, section 14.4).
pub(crate) fn push_span(text: &mut Vec<u8>, len: u64, part: &Slice) -> Result<(), NoMemory>
    requires { IsWithin len part.now }
    ensures { OnOk result (text.new.items ≡ text.old.items ++ span_text len part.now) }
{
    push_number(text, part.start)?;
    text.push(b'-')?;
    push_number(text, part.start + (part.count - 1))?;
    text.push(b'/')?;
    push_number(text, len)
}

// Adds `content-range`, where it stands.
fn add_range(alloc: Global, fields: &mut Vec<Field>, len: u64, sent: &Sent) -> Result<(), NoMemory>
    requires { IsSentOf len sent.now }
    ensures { OnOk result (fields.new.items ≡ fields.old.items ++ field_where (codes "content-range")
        (the_sent_range len sent.now)) }
{
    match sent {
        Sent::All | Sent::Alone(_) | Sent::Several(_) => Ok(()),
        Sent::Unsatisfied => {
            let mut text = Vec::from_slice(alloc, b"bytes */")?;
            push_number(&mut text, len)?;
            push(
                fields,
                FieldName::ContentRange,
                FieldValue::new(Octets::new(text)),
            )
        }
        Sent::One(part) => {
            let mut text = Vec::with_capacity(alloc, MOST_RANGE)?;
            text.extend_from_slice(b"bytes ")?;
            push_span(&mut text, len, part)?;
            push(
                fields,
                FieldName::ContentRange,
                FieldValue::new(Octets::new(text)),
            )
        }
    }
}

// The content type of what is sent of a file of this type.
fn sent_type<'a>(kind: &'a str, sent: &Sent) -> &'a str
    ensures { result.now ≡ the_sent_type kind.now sent.now }
{
    match sent {
        Sent::Several(_) => "multipart/byteranges; boundary=BOUNDARY",
        _ => kind,
    }
}

/// The fields of a file's answer, in the order of their names. `gives` is whether a body may follow.
pub(crate) fn sent_fields<M: DavMetaData>(
    alloc: Global,
    gives: bool,
    kind: &str,
    meta: &M,
    sent: &Sent,
) -> Result<Fields, NoMemory>
    requires { IsSentOf (M.info meta.now).len sent.now }
    ensures { IfOk result (λ fields. (date : Option (List ℕ)) × IsDate (M.info meta.now).modified date
        × (fields ≡ the_sent_fields gives kind.now (M.info meta.now).len (M.info meta.now).tag date sent.now)) }
{
    let len = meta.len();
    let mut fields = Vec::with_capacity(alloc, MOST_FIELDS)?;
    add_field(&mut fields, Text::known(FieldName::AcceptRanges), b"bytes")?;
    add_length(&mut fields, gives, len, sent)?;
    add_range(alloc, &mut fields, len, sent)?;
    let kind = sent_type(kind, sent);
    add_field(
        &mut fields,
        Text::known(FieldName::ContentType),
        kind.as_bytes(),
    )?;
    add_tag(alloc, &mut fields, meta)?;
    add_date(&mut fields, meta)?;
    Ok(Fields::new(fields))
}

/// The fields of an answer that sends the client to another address.
pub(crate) fn redirected_fields<M: DavMetaData>(
    alloc: Global,
    address: &Text,
    meta: &M,
) -> Result<Fields, NoMemory>
    ensures { IfOk result (λ fields. (date : Option (List ℕ)) × IsDate (M.info meta.now).modified date
        × (fields ≡ the_redirected_fields address.now (M.info meta.now).tag date)) }
{
    let mut fields = Vec::new(alloc);
    add_field(&mut fields, Text::known(FieldName::ContentLength), b"0")?;
    add_tag(alloc, &mut fields, meta)?;
    add_date(&mut fields, meta)?;
    add_field(
        &mut fields,
        Text::known(FieldName::Location),
        address.as_slice(),
    )?;
    Ok(Fields::new(fields))
}

/// The fields of the page that clients of a well-known server look for.
pub(crate) fn well_known_fields(alloc: Global) -> Result<Fields, NoMemory>
    ensures { IfOk result (λ fields. fields ≡ well_known.fields) }
{
    let mut fields = Vec::new(alloc);
    add_field(&mut fields, Text::known(FieldName::AcceptRanges), b"bytes")?;
    add_field(&mut fields, Text::known(FieldName::ContentLength), b"0")?;
    Ok(Fields::new(fields))
}
