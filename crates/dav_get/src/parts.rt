// The parts of a file's answer.
ghost use Rattle.std.specs.Prelude.{◌≡◌, ◌≤◌, ◌<◌, ◌+◌, ◌^◌, [], ◌++◌, ℕ, true, IfOk, OnOk, length};
ghost use Rattle.std.specs.List.{AllByRecursion, list_all};
ghost use Rattle.dav_get.specs.Bodies.{is_part, parts_of};
ghost use Rattle.dav_model.specs.Head.{last_boundary, part_head as the_part_head, sent_parts as the_sent_parts, several_parts, slice_where, two_parts};
ghost use Rattle.dav_model.specs.Slices.{IsWithin};
ghost use Rattle.dav_get.specs.Prepared.{IsSentOf};

use crate::headers::push_span;
use crate::part::BodyPart;
use dav_io::{NoMemory, Octets};
use dav_model::{Sent, Slice};
use std::alloc::Global;

// The text before a slice of several.
fn part_head(alloc: Global, kind: &str, len: u64, part: &Slice) -> Result<Octets, NoMemory>
    requires { IsWithin len part.now }
    ensures text { IfOk result (λ text. text ≡ the_part_head kind.now len part.now) }
    ensures some { IfOk result (λ text. 0 < length text) }
{
    let mut text = Vec::from_slice(alloc, b"\n--BOUNDARY\nContent-Range: bytes ")?;
    push_span(&mut text, len, part)?;
    text.extend_from_slice(b"\nContent-Type: ")?;
    text.extend_from_slice(kind.as_bytes())?;
    text.extend_from_slice(b"\n\n")?;
    Ok(Octets::new(text))
}

// Adds a slice of several, and the text before it.
fn add_part(
    alloc: Global,
    parts: &mut Vec<BodyPart>,
    kind: &str,
    len: u64,
    part: &Slice,
) -> Result<(), NoMemory>
    requires { IsWithin len part.now }
    ensures parts { OnOk result ((number : ℕ) → parts_of number parts.new.items ≡ parts_of number parts.old.items ++
        two_parts kind.now number len part.now) }
    ensures sound { list_all is_part parts.old.items ≡ true → OnOk result (list_all is_part parts.new.items ≡ true) }
{
    let head = part_head(alloc, kind, len, part)?;
    parts.push(BodyPart::Text(head))?;
    parts.push(BodyPart::Slice(*part))?;
    Ok(())
}

// Several slices, each with the text before it, and the last boundary.
fn several(alloc: Global, kind: &str, len: u64, slices: &[Slice]) -> Result<Vec<BodyPart>, NoMemory>
    requires { AllByRecursion (IsWithin len) slices.now }
    ensures parts { IfOk result (λ parts. (number : ℕ) → parts_of number parts.items ≡ several_parts kind.now number len
        slices.now) }
    ensures sound { IfOk result (λ parts. list_all is_part parts.items ≡ true) }
{
    let mut parts = Vec::new(alloc);
    for part in slices {
        add_part(alloc, &mut parts, kind, len, part)?;
    }
    let end = Octets::new(Vec::from_slice(alloc, b"\n--BOUNDARY--\n")?);
    parts.push(BodyPart::Text(end))?;
    Ok(parts)
}

// One slice, if there is something in it.
fn single(alloc: Global, part: Slice) -> Result<Vec<BodyPart>, NoMemory>
    requires { part.start + part.count < 2 ^ 64 }
    ensures parts { IfOk result (λ parts. (number : ℕ) → parts_of number parts.items ≡ slice_where number part.start
        part.count) }
    ensures sound { IfOk result (λ parts. list_all is_part parts.items ≡ true) }
{
    let mut parts = Vec::new(alloc);
    if part.count > 0 {
        parts.push(BodyPart::Slice(part))?;
    }
    Ok(parts)
}

/// The parts of a file's answer. `gives` is whether a body may follow.
pub(crate) fn sent_parts(
    alloc: Global,
    gives: bool,
    kind: &str,
    len: u64,
    sent: &Sent,
) -> Result<Vec<BodyPart>, NoMemory>
    requires { IsSentOf len sent.now }
    ensures parts { IfOk result (λ parts. (number : ℕ) → parts_of number parts.items ≡ the_sent_parts gives kind.now
        number len sent.now) }
    ensures sound { IfOk result (λ parts. list_all is_part parts.items ≡ true) }
{
    if !gives {
        return Ok(Vec::new(alloc));
    }
    match sent {
        Sent::All => {
            let part = Slice {
                start: 0,
                count: len,
            };
            single(alloc, part)
        }
        Sent::Alone(_) | Sent::Unsatisfied => Ok(Vec::new(alloc)),
        Sent::One(part) => single(alloc, *part),
        Sent::Several(slices) => several(alloc, kind, len, slices.as_slice()),
    }
}
