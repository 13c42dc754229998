// One request, and all that is answered to it.
ghost use Rattle.std.specs.Prelude.{◌≡◌, ◌+◌, ◌<◌, ◌^◌, true, IfOk, OnErr, OnOk};
ghost use Rattle.http.specs.Request.{head_of};
ghost use Rattle.dav_handler.specs.Player.{stage_of};
ghost use Rattle.dav_wire.specs.Answers.{head_text};
ghost use Rattle.dav_wire.specs.Fields.{ArePlain};
ghost use Rattle.dav_wire.specs.Framing.{takes_chunks as the_takes_chunks};
ghost use Rattle.dav_serving.specs.Exchange.{ClosesAfter};
ghost use Rattle.dav_serving.specs.Ends.{EndsBody, Exchanges, IsAt, MemoryStopped, ended_by};
ghost use Rattle.dav_serving.specs.Stages.{outlet_of, work_of};

use crate::turns::{poll_turn, request_turn};
use dav_core::Disk;
use dav_handler::{Answer, Player, Remember};
use dav_io::{Field, Moment, NoMemory, Octets, Sink};
use dav_wire::{Framing, Output, asks_close, framing, is_old, push_head, says_close, takes_chunks};
use http::Request;
use std::alloc::Global;

/// How an exchange ended.
#[derive(Clone, Copy, Debug, PartialEq, Eq)]
pub enum Ended {
    /// All is written, and another request may follow.
    Open,
    /// All is written, and nothing more is read.
    Closed,
    /// The sink failed.
    SinkFailed,
    /// The body broke.
    Broke,
}

/// How a request is answered, by its head.
#[derive(Clone, Copy, Debug, PartialEq, Eq)]
pub struct Manner {
    /// Whether the connection closes behind the answer.
    pub closing: bool,
    /// Whether a body without a length is written in chunks.
    pub chunks: bool,
}

/// How a request is answered, by its head. Where its fields are known to be plain, the map isn't asked.
pub fn manner_of(plain: bool, request: &Request<Octets>) -> Manner
    requires { plain ≡ true → ArePlain (head_of request.now).headers }
    ensures closing { ClosesAfter (head_of request.now) result.closing }
    ensures chunks { result.chunks ≡ the_takes_chunks (head_of request.now) }
{
    Manner {
        closing: closes_after(plain, request),
        chunks: takes_chunks(request),
    }
}

// Whether the connection closes behind the answer, whatever that is.
fn closes_after(plain: bool, request: &Request<Octets>) -> bool
    requires { plain ≡ true → ArePlain (head_of request.now).headers }
    ensures { ClosesAfter (head_of request.now) result }
{
    if is_old(request.version()) {
        return true;
    }
    if plain {
        return false;
    }
    asks_close(request.headers())
}

/// Memory that is used for one answer after the other.
#[derive(Drop)]
pub struct Spare {
    /// For heads.
    pub head: Vec<u8>,
    /// For pieces of bodies.
    pub piece: Vec<u8>,
}

impl Spare {
    /// No memory yet.
    pub fn new(alloc: Global) -> Spare {
        Spare {
            head: Vec::new(alloc),
            piece: Vec::new(alloc),
        }
    }
}

/// Answers one request, and gives the answer to the output as it comes. What the output holds then is for the caller to
/// flush. What is spare is used for its head and its pieces.
pub fn exchange<K: Sink, D: Disk, R: Remember>(
    spare: &mut Spare,
    player: &mut Player<D, R>,
    output: &mut Output,
    sink: &mut K,
    now: Moment,
    manner: Manner,
    request: &Request<Octets>,
) -> Result<Ended, NoMemory>
    requires replies { player.old.replies + 4 < 2 ^ 32 }
    requires chunks { manner.chunks ≡ the_takes_chunks (head_of request.now) }
    ensures loan { D.loan player.new.store.disk ≡ D.loan player.old.store.disk }
    ensures ends { IfOk result (λ ended. Exchanges (IsAt request.now now manner.closing)
        (work_of (K.stream sink.old) output.old (stage_of player.old)) ended
        (work_of (K.stream sink.new) output.new (stage_of player.new))) }
    ensures memory { OnErr result (MemoryStopped (IsAt request.now now manner.closing)
        (work_of (K.stream sink.old) output.old (stage_of player.old))
        (outlet_of (K.stream sink.new) output.new) (stage_of player.new).at) }
{
    let reply = match request_turn(player, now, request) {
        Ok(reply) => reply,
        Err(error) => return Err(error),
    };
    let way = framing(manner.chunks, reply.status, reply.headers.as_slice());
    match write_head(
        &mut spare.head,
        reply.status,
        reply.headers.as_slice(),
        manner.closing,
        way,
    ) {
        Ok(()) => {}
        Err(error) => return Err(error),
    }
    match output.push(sink, spare.head.as_slice()) {
        Ok(()) => {}
        Err(_) => return Ok(Ended::SinkFailed),
    }
    'pieces: loop {
        let answer = match poll_turn(player, reply.body, &mut spare.piece) {
            Ok(answer) => answer,
            Err(error) => return Err(error),
        };
        match answer {
            Answer::Piece(piece) => {
                match output.push_piece(sink, way, piece.as_slice()) {
                    Ok(()) => {}
                    Err(_) => return Ok(Ended::SinkFailed),
                }
                spare.piece = piece.into_vec();
            }
            Answer::End => {
                return Ok(ends_body(output, sink, way, manner.closing, reply.headers.as_slice()));
            }
            _ => return Ok(Ended::Broke),
        }
    }
}

// Writes the head of an answer in place of what the memory had.
fn write_head(
    text: &mut Vec<u8>,
    status: u16,
    fields: &[Field],
    closing: bool,
    framing: Framing,
) -> Result<(), NoMemory>
    ensures { OnOk result (text.new.items ≡ head_text status fields.now closing framing) }
{
    text.clear();
    push_head(text, status, fields, closing, framing)
}

// Writes what ends a body, and tells whether another request may follow.
fn ends_body<K: Sink>(
    output: &mut Output,
    sink: &mut K,
    way: Framing,
    closing: bool,
    fields: &[Field],
) -> Ended
    ensures { EndsBody way closing fields.now (outlet_of (K.stream sink.old) output.old) result
        (outlet_of (K.stream sink.new) output.new) }
{
    match output.push_end(sink, way) {
        Ok(()) => what_follows(closing, fields),
        Err(_) => Ended::SinkFailed,
    }
}

// Whether another request may follow an answer.
fn what_follows(closing: bool, fields: &[Field]) -> Ended
    ensures { result ≡ ended_by closing fields.now }
{
    if closing {
        return Ended::Closed;
    }
    if says_close(fields) {
        return Ended::Closed;
    }
    Ended::Open
}
