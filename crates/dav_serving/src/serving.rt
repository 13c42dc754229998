// Serving the requests of a source, one after the other.
ghost use Rattle.std.specs.Prelude.{◌≡◌, ◌++◌, IfOk, OnErr, [], true};
ghost use Rattle.http.specs.Request.{body_of, head_of};
ghost use Rattle.dav_handler.specs.Player.{stage_of};
ghost use Rattle.dav_wire.specs.Answers.{refusal_text as the_refusal_text};
ghost use Rattle.dav_wire.specs.Fields.{ArePlain};
ghost use Rattle.dav_serving.specs.declared.ending.Ending.TheVariants.{Refused};
ghost use Rattle.dav_serving.specs.Ends.{Exchanges, IsAnswerTo, MemoryStopped};
ghost use Rattle.dav_serving.specs.Serving.{HoldsSoFar, EndsBy, ServedPartly, Starved, Finishes, renewed, setup_by};
ghost use Rattle.dav_serving.specs.Stages.{outlet_of, outside_of, work_of};

use crate::asking::{Next, next_message};
use crate::ending::Ending;
use crate::exchange::{Ended, Spare, exchange, manner_of};
use dav_core::Disk;
use dav_handler::{Player, Remember};
use dav_io::{Client, Clock, Moment, NoMemory, Octets, Sink};
use dav_wire::{Flaw, Input, Output, ReadError, refusal_text};
use http::Request;
use std::alloc::Global;

// What was taken from the source and not yet read, the request that was read last, what waits for the sink, and memory
// for the next answer; and what memory is taken from. Each request is read in place of the one before.
#[derive(Drop)]
struct Held {
    alloc: Global,
    input: Input,
    request: Request<Octets>,
    output: Output,
    spare: Spare,
}

// Nothing is taken from a source yet, and nothing waits for a sink.
fn none_held(alloc: Global) -> Result<Held, NoMemory>
    ensures unread { IfOk result (λ held. held.input ≡ record { bytes = []; taken = 0 }) }
    ensures empty { IfOk result (λ held. held.output ≡ []) }
{
    let input = match Input::new(alloc) {
        Ok(input) => input,
        Err(error) => return Err(error),
    };
    let output = match Output::new(alloc) {
        Ok(output) => output,
        Err(error) => return Err(error),
    };
    Ok(Held {
        alloc,
        input,
        request: Request::new(alloc, Octets::empty(alloc)),
        output,
        spare: Spare::new(alloc),
    })
}

// Answers the request that was read, by a player that starts over for it, so that no count of replies ever runs out.
// The memory of the request's body is let go. What is said of the request's fields is so.
fn answer<K: Sink, D: Disk, R: Remember>(
    player: &mut Player<D, R>,
    held: &mut Held,
    sink: &mut K,
    now: Moment,
    plain: bool,
) -> Result<Ended, NoMemory>
    requires { plain ≡ true → ArePlain (head_of held.old.request).headers }
    ensures input { held.new.input ≡ held.old.input }
    ensures loan { D.loan player.new.store.disk ≡ D.loan player.old.store.disk }
    ensures ends { IfOk result (λ ended. Exchanges (IsAnswerTo (head_of held.old.request) (body_of held.old.request) now)
        (work_of (K.stream sink.old) held.old.output (renewed (stage_of player.old))) ended
        (work_of (K.stream sink.new) held.new.output (stage_of player.new))) }
    ensures memory { OnErr result (MemoryStopped (IsAnswerTo (head_of held.old.request) (body_of held.old.request) now)
        (work_of (K.stream sink.old) held.old.output (renewed (stage_of player.old)))
        (outlet_of (K.stream sink.new) held.new.output) (stage_of player.new).at) }
{
    let manner = manner_of(plain, &held.request);
    player.renew();
    let ended = exchange(
        &mut held.spare,
        player,
        &mut held.output,
        sink,
        now,
        manner,
        &held.request,
    );
    *held.request.body_mut() = Octets::empty(held.alloc);
    ended
}

// Gives all that waits to the sink, at the end of a run: the end stands, or the sink failed.
fn finish<K: Sink>(output: &mut Output, sink: &mut K, ending: Ending) -> Ending
    ensures { Finishes ending (outlet_of (K.stream sink.old) output.old) (K.stream sink.new) result }
{
    match output.flush(sink) {
        Ok(()) => ending,
        Err(_) => Ending::SinkFailed,
    }
}

// Refuses what no request can be.
fn refuse<K: Sink>(output: &mut Output, sink: &mut K, flaw: Flaw) -> Ending
    ensures { Finishes Refused (outlet_of (K.stream sink.old) (output.old ++ the_refusal_text flaw)) (K.stream sink.new)
        result }
{
    match output.push(sink, refusal_text(flaw)) {
        Ok(()) => finish(output, sink, Ending::Refused),
        Err(_) => Ending::SinkFailed,
    }
}

// Answers requests by a player until the input ends, an answer closes, or something fails. Answers to requests that came
// together leave together: what waits for the sink is given to it before the client is asked again, and at the end.
// Where memory is refused, it waits still.
fn answer_all<S: Client<K>, K: Sink, D: Disk, R: Remember, C: Clock>(
    player: &mut Player<D, R>,
    held: &mut Held,
    source: &mut S,
    sink: &mut K,
    clock: &mut C,
) -> Result<Ending, NoMemory>
    requires unread { held.old.input ≡ record { bytes = []; taken = 0 } }
    requires empty { held.old.output ≡ [] }
    requires waits { HoldsSoFar (setup_by (C.shows clock.old) (stage_of player.old))
        (outside_of (S.stream source.old) (K.stream sink.old) (stage_of player.old).at)
        (S.may source.old) }
    ensures clock { C.shows clock.new ≡ C.shows clock.old }
    ensures loan { D.loan player.new.store.disk ≡ D.loan player.old.store.disk }
    ensures ends { IfOk result (EndsBy (setup_by (C.shows clock.old) (stage_of player.old))
        (outside_of (S.stream source.old) (K.stream sink.old) (stage_of player.old).at)
        (outside_of (S.stream source.new) (K.stream sink.new) (stage_of player.new).at)) }
    ensures memory { OnErr result (Starved (setup_by (C.shows clock.old) (stage_of player.old))
        (outside_of (S.stream source.old) (K.stream sink.old) (stage_of player.old).at)
        held.new.output
        (outside_of (S.stream source.new) (K.stream sink.new) (stage_of player.new).at)) }
{
    'requests: loop {
        match next_message(
            held.alloc,
            &mut held.input,
            source,
            &mut held.output,
            sink,
            &mut held.request,
        ) {
            Ok(Next::Whole(plain)) => {
                let now = clock.now();
                match answer(player, held, sink, now, plain) {
                    Ok(Ended::Open) => {}
                    Ok(Ended::Closed) => return Ok(finish(&mut held.output, sink, Ending::Closed)),
                    Ok(Ended::SinkFailed) => return Ok(Ending::SinkFailed),
                    Ok(Ended::Broke) => return Ok(finish(
                        &mut held.output,
                        sink,
                        Ending::DiskFailed,
                    )),
                    Err(error) => return Err(error),
                }
            }
            Ok(Next::Refused(flaw)) => return Ok(refuse(&mut held.output, sink, flaw)),
            Ok(Next::Over) => return Ok(Ending::Over),
            Ok(Next::Unfinished) => return Ok(Ending::Unfinished),
            Err(ReadError::Failed) => return Ok(Ending::SourceFailed),
            Err(ReadError::TooMuch) => return Ok(Ending::TooMuch),
            Err(ReadError::NoMemory) => return Err(NoMemory),
            Err(ReadError::Unsent) => return Ok(Ending::SinkFailed),
        }
    }
}

/// Reads requests from a client and writes their answers to a sink, until the input ends, an answer closes, or
/// something fails. It answers how it ended. The client is asked only where all requests that came whole are answered
/// and written. One player answers them all, so what was remembered at one request is known at the next; it starts over
/// for each, whatever it gave before.
pub fn serve_requests<S: Client<K>, K: Sink, D: Disk, R: Remember, C: Clock>(
    alloc: Global,
    player: &mut Player<D, R>,
    source: &mut S,
    sink: &mut K,
    clock: &mut C,
) -> Result<Ending, NoMemory>
    requires waits { HoldsSoFar (setup_by (C.shows clock.old) (stage_of player.old))
        (outside_of (S.stream source.old) (K.stream sink.old) (stage_of player.old).at)
        (S.may source.old) }
    ensures clock { C.shows clock.new ≡ C.shows clock.old }
    ensures loan { D.loan player.new.store.disk ≡ D.loan player.old.store.disk }
    ensures ends { IfOk result (EndsBy (setup_by (C.shows clock.old) (stage_of player.old))
        (outside_of (S.stream source.old) (K.stream sink.old) (stage_of player.old).at)
        (outside_of (S.stream source.new) (K.stream sink.new) (stage_of player.new).at)) }
    ensures memory { OnErr result (ServedPartly (setup_by (C.shows clock.old) (stage_of player.old))
        (outside_of (S.stream source.old) (K.stream sink.old) (stage_of player.old).at)
        (outside_of (S.stream source.new) (K.stream sink.new) (stage_of player.new).at)) }
{
    let mut held = match none_held(alloc) {
        Ok(held) => held,
        Err(error) => return Err(error),
    };
    match answer_all(player, &mut held, source, sink, clock) {
        Ok(ending) => Ok(ending),
        Err(error) => {
            // What was answered before is written also where memory is refused.
            let _ = held.output.flush(sink);
            Err(error)
        }
    }
}
