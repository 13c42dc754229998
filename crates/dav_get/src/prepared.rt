// What is made ready before a file is given.
ghost use Rattle.std.specs.Prelude.{◌≡◌, ◌<◌, IfOk, true};
ghost use Rattle.std.specs.List.{list_all};
ghost use Rattle.dav_model.specs.Head.{is_get as the_is_get, sent_status};
ghost use Rattle.dav_model.specs.Bodies.{read_size_of};
ghost use Rattle.dav_get.specs.Bodies.{is_part};
ghost use Rattle.dav_get.specs.Prepared.{AreReady, IsPrepared, longest as the_longest, IsSentOf};
ghost use Rattle.dav_get.specs.Table.{IsOutcome};
ghost use Rattle.dav_model.specs.declared.sent.Sent.TheVariants.{Unsatisfied};

use crate::buffer::ReadBuffer;
use crate::headers::sent_fields;
use crate::part::BodyPart;
use crate::parts::sent_parts;
use dav_core::{DavMetaData, DavMethod, DavPath};
use dav_io::NoMemory;
use dav_model::{Outcome, Sent, Settings};
use std::alloc::Global;

/// The status and fields of an answer, the parts of its body, and room for their pieces.
#[derive(Drop)]
pub(crate) struct Prepared {
    pub(crate) outcome: Outcome,
    pub(crate) parts: Vec<BodyPart>,
    pub(crate) buffer: ReadBuffer,
}

/// Whether a method is GET, whose answer may have a body.
pub(crate) fn is_get(method: DavMethod) -> bool
    ensures { result ≡ the_is_get method }
{
    method == DavMethod::Get
}

fn status_of(sent: &Sent) -> u16
    ensures { result ≡ sent_status sent.now }
{
    match sent {
        Sent::All => 200,
        Sent::Alone(status) => *status,
        Sent::Unsatisfied => 416,
        Sent::One(_) | Sent::Several(_) => 206,
    }
}

// The most bytes of a slice among these parts.
fn longest(parts: &[BodyPart]) -> u64
    ensures { result ≡ the_longest parts.now }
{
    let mut most = 0;
    for part in parts {
        if let BodyPart::Slice(slice) = part {
            most = slice.count.max(most);
        }
    }
    most
}

// Room for the pieces of these parts, where there are some.
fn room_for(alloc: Global, size: usize, parts: &[BodyPart]) -> Result<ReadBuffer, NoMemory>
    requires some { 0 < size }
    requires sound { list_all is_part parts.now ≡ true }
    ensures { IfOk result (AreReady size parts.now) }
{
    if parts.is_empty() {
        return Ok(ReadBuffer::none(alloc));
    }
    ReadBuffer::new(alloc, size, longest(parts))
}

/// Makes ready the answer in which this of a file is sent.
pub(crate) fn prepare<M: DavMetaData>(
    alloc: Global,
    settings: &Settings,
    method: DavMethod,
    path: &DavPath,
    meta: &M,
    sent: &Sent,
) -> Result<Prepared, NoMemory>
    requires { IsSentOf (M.info meta.now).len sent.now }
    ensures { IfOk result (IsPrepared (read_size_of settings.now.read_buf_size) method path.now
        (M.info meta.now) sent.now) }
{
    let gives = is_get(method);
    let kind = path.get_mime_type_str();
    let fields = sent_fields(alloc, gives, kind, meta, sent)?;
    let parts = sent_parts(alloc, gives, kind, meta.len(), sent)?;
    let buffer = room_for(alloc, settings.read_size(), &parts)?;
    let status = status_of(sent);
    Ok(Prepared {
        outcome: Outcome { status, fields },
        parts,
        buffer,
    })
}

/// Makes ready the answer in which nothing of a file is sent, since no range could be met.
pub(crate) fn prepare_unsatisfied<M: DavMetaData>(
    alloc: Global,
    method: DavMethod,
    path: &DavPath,
    meta: &M,
) -> Result<Outcome, NoMemory>
    ensures { IfOk result (IsOutcome method path.now (M.info meta.now) Unsatisfied) }
{
    let kind = path.get_mime_type_str();
    let fields = sent_fields(alloc, is_get(method), kind, meta, &Sent::Unsatisfied)?;
    Ok(Outcome {
        status: 416,
        fields,
    })
}
