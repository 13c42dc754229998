//! Reading the body of a request.
ghost use Rattle.std.specs.Prelude.{◌≡◌, ℕ, List, [], ◌++◌, Ok};
ghost use Rattle.dav_io.specs.Outside.{Stream};
ghost use Rattle.dav_wire.specs.Bodies.{IsBodyUnfinished};
ghost use Rattle.dav_wire.specs.BodyReading.{ReadsOn, ReadsBody, IsEmptiedBy};
ghost use Rattle.dav_wire.specs.BodyStarts.{StartsAt, read_as};
ghost use Rattle.dav_wire.specs.Reading.{sending, Pending};
ghost use Rattle.dav_wire.specs.Writing.{Pushes};

use crate::announcing::Announced;
use crate::body_steps::{Halt, MOST_BODY, Place, advance};
use crate::input::Input;
use crate::next::{BodyRead, Flaw, ReadError};
use crate::output::Output;
use crate::reading::fill_flushing;
use dav_io::{Client, Octets, Sink};
use std::alloc::Global;

/// Reads the body behind a head, by what the head announces, and passes it (RFC 9112, sections 6 and 7.1): first what
/// is held, and then what the client gives, a call at a time. Before the client is asked, all that is held for the sink
/// is given to it. The memory grows with what came, never with what was announced.
pub fn read_body<S: Client<K>, K: Sink>(
    alloc: Global,
    announced: Announced,
    input: &mut Input,
    source: &mut S,
    output: &mut Output,
    sink: &mut K,
) -> Result<BodyRead, ReadError>
    requires ready { (passed : List ℕ) (kept : Pending) (left written : Stream) (later : List ℕ)
        → ReadsOn (S.stream source.old) input.old passed kept left
        → IsBodyUnfinished announced (passed ++ kept.bytes)
        → later ≡ [] → Pushes (K.stream sink.old) output.old [] (Ok tt) later written
        → S.may source.old left written }
    ensures stays { (left written : Stream) → S.may source.old left written → S.may source.new left written }
    ensures reads { ReadsBody announced (S.stream source.old) input.old result input.new (S.stream source.new) }
    ensures sends { Pushes (K.stream sink.old) output.old [] (sending result) output.new (K.stream sink.new) }
    ensures emptied { IsEmptiedBy result output.new }
{
    let mut body = Vec::new(alloc);
    match read_on(announced, input, source, output, sink, &mut body) {
        Ok(End::Whole) => Ok(BodyRead::Whole(Octets::new(body))),
        Ok(End::Refused(flaw)) => Ok(BodyRead::Refused(flaw)),
        Ok(End::Over) => Ok(BodyRead::Ended),
        Err(error) => Err(error),
    }
}

// Where a reader begins.
#[derive(Clone, Copy)]
enum Start {
    At(Place),
    // There is no body.
    Nothing,
    Refused(Flaw),
}

// Where a reader of what is announced begins.
fn start_of(announced: Announced) -> Start
    ensures { StartsAt announced result }
{
    match announced {
        Announced::Nothing => Start::Nothing,
        Announced::Sized(size) => {
            if size > MOST_BODY {
                return Start::Refused(Flaw::TooLarge);
            }
            Start::At(Place::Rest(size))
        }
        Announced::InChunks => Start::At(Place::Between),
        Announced::Unclear => Start::Refused(Flaw::Malformed),
    }
}

// Why a reader stops.
#[derive(Clone, Copy)]
enum End {
    Whole,
    Refused(Flaw),
    // The input is over.
    Over,
}

// Reads what is announced behind the bytes of a body: from what is held, and then from what the client gives, a call at
// a time.
fn read_on<S: Client<K>, K: Sink>(
    announced: Announced,
    input: &mut Input,
    source: &mut S,
    output: &mut Output,
    sink: &mut K,
    body: &mut Vec<u8>,
) -> Result<End, ReadError>
    requires empty { body.old.items ≡ [] }
    requires ready { (passed : List ℕ) (kept : Pending) (left written : Stream) (later : List ℕ)
        → ReadsOn (S.stream source.old) input.old passed kept left
        → IsBodyUnfinished announced (passed ++ kept.bytes)
        → later ≡ [] → Pushes (K.stream sink.old) output.old [] (Ok tt) later written
        → S.may source.old left written }
    ensures stays { (left written : Stream) → S.may source.old left written → S.may source.new left written }
    ensures reads { ReadsBody announced (S.stream source.old) input.old (read_as result body.new.items) input.new
        (S.stream source.new) }
    ensures sends { Pushes (K.stream sink.old) output.old [] (sending (read_as result body.new.items)) output.new
        (K.stream sink.new) }
    ensures emptied { IsEmptiedBy (read_as result body.new.items) output.new }
{
    let mut place = match start_of(announced) {
        Start::At(place) => place,
        Start::Nothing => return Ok(End::Whole),
        Start::Refused(flaw) => return Ok(End::Refused(flaw)),
    };
    'bytes: loop {
        let stepped = match advance(place, input.pending(), body) {
            Ok(stepped) => stepped,
            Err(_) => return Err(ReadError::NoMemory),
        };
        input.pass(stepped.used);
        place = match stepped.halt {
            Halt::Over => return Ok(End::Whole),
            Halt::Refused(flaw) => return Ok(End::Refused(flaw)),
            Halt::Wanting(to) => to,
        };
        match fill_flushing(input, source, output, sink) {
            Ok(count) => {
                if count == 0 {
                    return Ok(End::Over);
                }
            }
            Err(error) => return Err(error),
        }
    }
}
