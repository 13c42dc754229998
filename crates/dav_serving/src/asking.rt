// Looking for the next request of an input, with its body.
ghost use Rattle.std.specs.Prelude.{◌≡◌, ◌≤◌, ◌^◌, ◌++◌, ℕ, List, [], true, Ok};
ghost use Rattle.dav_io.specs.Outside.{Stream};
ghost use Rattle.dav_wire.specs.Announced.{announced_by as the_announced_by};
ghost use Rattle.dav_wire.specs.BodyReading.{ReadsOn};
ghost use Rattle.dav_wire.specs.Fields.{ArePlain};
ghost use Rattle.dav_wire.specs.Reading.{sending, Pending};
ghost use Rattle.dav_wire.specs.Writing.{Pushes};
ghost use Rattle.http.specs.Request.{body_of, head_of};
ghost use Rattle.dav_serving.specs.Next.{HasBodyOf, IsEmptiedBy, ReadsNext, next_by as the_next_by, over_with};
ghost use Rattle.dav_serving.specs.Serving.{IsWanting};
ghost use Rattle.dav_serving.specs.declared.asking.Next.TheVariants.{Whole};

use dav_io::{Client, Octets, Sink};
use dav_wire::{
    Announced, BodyRead, Flaw, Found, Input, Output, ReadError, announced_by, fill_flushing,
    read_body,
};
use http::Request;
use std::alloc::Global;

/// What comes next in an input.
#[derive(Clone, Copy, Debug, PartialEq, Eq)]
pub enum Next {
    /// A whole request, which was passed. Where this is true, its head has none of the fields `content-length`,
    /// `transfer-encoding` and `connection`; where it is false, it may have some.
    Whole(bool),
    /// No request can stand there: this is owed.
    Refused(Flaw),
    /// The input is over.
    Over,
    /// The input ends inside a head or a body.
    Unfinished,
}

// The body that the head of a request announces. Where its fields are known to be plain, the map isn't asked.
fn announced_where(plain: bool, request: &Request<Octets>) -> Announced
    requires { plain ≡ true → ArePlain (head_of request.now).headers }
    ensures { result ≡ the_announced_by (head_of request.now) }
{
    if plain {
        return Announced::Nothing;
    }
    announced_by(request)
}

// What comes next behind the head of a request, by what came of reading its body, which the request gets; and by whether
// the fields of the head are known to be plain.
fn next_by(request: &mut Request<Octets>, plain: bool, read: BodyRead) -> Next
    ensures next { result ≡ the_next_by plain read }
    ensures head { head_of request.new ≡ head_of request.old }
    ensures body { HasBodyOf read (body_of request.new) }
{
    match read {
        BodyRead::Whole(body) => {
            *request.body_mut() = body;
            Next::Whole(plain)
        }
        BodyRead::Refused(flaw) => Next::Refused(flaw),
        BodyRead::Ended => Next::Unfinished,
    }
}

// What an input is at its end, where no whole head is held: over, or inside a head.
fn at_end(input: &Input) -> Next
    ensures { result ≡ over_with input.now.bytes }
{
    if input.pending().is_empty() {
        return Next::Over;
    }
    Next::Unfinished
}

/// Reads the next request with its body: from what is held, and then from what the client gives, a call at a time. It
/// takes the place of what `request` had, which may have anything where none came whole. Before the client is asked,
/// all that waits for the sink is given to it (RFC 9112, sections 2, 6 and 7.1). What was passed of a request that
/// isn't whole is gone, so nothing is read behind an error. What is said of a whole request's fields is so.
pub fn next_message<S: Client<K>, K: Sink>(
    alloc: Global,
    input: &mut Input,
    source: &mut S,
    output: &mut Output,
    sink: &mut K,
    request: &mut Request<Octets>,
) -> Result<Next, ReadError>
    requires ready { (passed : List ℕ) (kept : Pending) (left written : Stream) (later : List ℕ)
        → ReadsOn (S.stream source.old) input.old passed kept left → IsWanting (passed ++ kept.bytes)
        → later ≡ [] → Pushes (K.stream sink.old) output.old [] (Ok tt) later written
        → S.may source.old left written }
    ensures stays { (left written : Stream) → S.may source.old left written → S.may source.new left written }
    ensures within { input.old.taken ≤ 2 ^ 60 }
    ensures reads { ReadsNext (S.stream source.old) input.old result request.new input.new
        (S.stream source.new) }
    ensures sends { Pushes (K.stream sink.old) output.old [] (sending result) output.new (K.stream sink.new) }
    ensures plain { result ≡ Ok (Whole true) → ArePlain (head_of request.new).headers }
    ensures emptied { IsEmptiedBy result output.new }
{
    'heads: loop {
        match input.next_head(alloc, request) {
            Ok(Found::Whole(plain)) => {
                let announced = announced_where(plain, request);
                return match read_body(alloc, announced, input, source, output, sink) {
                    Ok(read) => Ok(next_by(request, plain, read)),
                    Err(error) => Err(error),
                };
            }
            Ok(Found::Refused) => return Ok(Next::Refused(Flaw::Malformed)),
            Ok(Found::More) => match fill_flushing(input, source, output, sink) {
                Ok(count) => {
                    if count == 0 {
                        return Ok(at_end(input));
                    }
                }
                Err(error) => return Err(error),
            },
            Err(_) => return Err(ReadError::NoMemory),
        }
    }
}
