// What a file's request asks, by what is kept of the file.
ghost use Rattle.std.specs.Prelude.{◌≡◌, IfOk, Some};
ghost use Rattle.dav_fetch.specs.Asking.{asked_for, awaits, rest, same};
ghost use Rattle.dav_fetch.specs.Wanting.{awaiting};

use crate::copied::Kept;
use dav_io::{Field, Fields, NoMemory, Text, add_field};
use std::alloc::Global;

// What is wanted of a file's answer.
#[derive(Clone, Copy, Debug, PartialEq, Eq)]
pub(crate) enum Wanted {
    // All of the file.
    Whole,
    // What stands behind the bytes that are kept, if it is still this file.
    Rest,
    // Nothing, if it is still this file.
    Same,
}

// What is wanted of a file of which this is kept.
fn wanted_behind(file: &Kept) -> Wanted
    ensures { awaits (Some file.now) ≡ awaiting result (Some file.now) }
{
    let kept = file.bytes.as_slice().len();
    if file.tag.as_slice().is_empty() {
        Wanted::Whole
    } else if kept as u64 == file.len {
        Wanted::Same
    } else if kept == 0 {
        Wanted::Whole
    } else {
        Wanted::Rest
    }
}

// What is wanted of a file.
pub(crate) fn wanted_of(file: &Option<Kept>) -> Wanted
    ensures { awaits file.now ≡ awaiting result file.now }
{
    match file {
        Some(file) => wanted_behind(file),
        None => Wanted::Whole,
    }
}

// The fields that ask for the bytes behind those kept, if it is still this file.
fn rest_fields(alloc: Global, file: &Kept) -> Result<Fields, NoMemory>
    ensures { IfOk result (λ fields. fields ≡ asked_for (rest file.now)) }
{
    let kept = file.bytes.as_slice().len();
    let range = format!(in alloc; "bytes={kept}-")?;
    let mut fields: Vec<Field> = Vec::new(alloc);
    add_field(&mut fields, Text::copy(alloc, "range")?, range.as_bytes())?;
    add_field(
        &mut fields,
        Text::copy(alloc, "if-range")?,
        file.tag.as_slice(),
    )?;
    Ok(Fields::new(fields))
}

// The field that asks for nothing, if it is still this file.
fn same_fields(alloc: Global, file: &Kept) -> Result<Fields, NoMemory>
    ensures { IfOk result (λ fields. fields ≡ asked_for (same file.now)) }
{
    let mut fields: Vec<Field> = Vec::new(alloc);
    add_field(
        &mut fields,
        Text::copy(alloc, "if-none-match")?,
        file.tag.as_slice(),
    )?;
    Ok(Fields::new(fields))
}

// The fields of a file's request.
pub(crate) fn fields_for(alloc: Global, file: &Option<Kept>) -> Result<Fields, NoMemory>
    ensures { IfOk result (λ fields. fields ≡ asked_for (awaits file.now)) }
{
    match (wanted_of(file), file) {
        (Wanted::Rest, Some(file)) => rest_fields(alloc, file),
        (Wanted::Same, Some(file)) => same_fields(alloc, file),
        _ => Ok(Fields::empty(alloc)),
    }
}
