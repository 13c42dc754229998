//! Requests of an input with their bodies, one after the other. Nothing is given to the sink.
use crate::cells::show_ends;
use crate::requests::{Seen, error_word, next, show_target, source_of};
use crate::server::Server;
use dav_io::{MemSink, MemSource, Octets};
use dav_rows::Line;
use dav_wire::{Announced, BodyRead, Flaw, ReadError, announced_by, read_body};
use http::Request;
use std::alloc::Global;

// What stands behind a head.
#[derive(Drop)]
enum Behind {
    Body(Octets),
    Over(&'static str),
}

fn flaw_word(flaw: Flaw) -> &'static str {
    match flaw {
        Flaw::Malformed => "400",
        Flaw::TooLarge => "413",
    }
}

// Adds the method and path of a request, and tells which body it announces; or a word where there is no request.
fn announced(
    line: &mut Line,
    seen: Seen,
    request: &Request<Octets>,
) -> Result<Announced, &'static str> {
    match seen {
        Seen::Request => {
            show_target(line, request);
            line.add(" ");
            Ok(announced_by(request))
        }
        Seen::Over(word) => Err(word),
    }
}

fn found_behind(read: Result<BodyRead, ReadError>) -> Behind {
    match read {
        Ok(BodyRead::Whole(body)) => Behind::Body(body),
        Ok(BodyRead::Refused(flaw)) => Behind::Over(flaw_word(flaw)),
        Ok(BodyRead::Ended) => Behind::Over("cut"),
        Err(error) => Behind::Over(error_word(error)),
    }
}

// Adds the method and path of the next request, and reads its body.
fn next_body(
    alloc: Global,
    line: &mut Line,
    server: &mut Server,
    source: &mut MemSource,
    sink: &mut MemSink,
) -> Behind {
    let Server {
        input,
        output,
        request,
    } = server;
    let seen = next(alloc, input, source, request);
    match announced(line, seen, request) {
        Ok(announced) => found_behind(read_body(alloc, announced, input, source, output, sink)),
        Err(word) => Behind::Over(word),
    }
}

// Shows the next message, and tells whether more may follow.
fn show_next(
    alloc: Global,
    line: &mut Line,
    server: &mut Server,
    source: &mut MemSource,
    sink: &mut MemSink,
) -> bool {
    match next_body(alloc, line, server, source, sink) {
        Behind::Body(body) => {
            show_ends(line, body.as_slice());
            line.add("; ");
            true
        }
        Behind::Over(word) => {
            line.add(word);
            false
        }
    }
}

// The messages of a source, and how they end.
fn show_all(
    alloc: Global,
    line: &mut Line,
    server: &mut Server,
    source: &mut MemSource,
    sink: &mut MemSink,
) {
    for _ in 0..99 {
        if !show_next(alloc, line, server, source, sink) {
            return;
        }
    }
}

fn messages_to(alloc: Global, line: &mut Line, source: &mut MemSource, sink: &mut MemSink) {
    match Server::new(alloc) {
        Some(mut server) => show_all(alloc, line, &mut server, source, sink),
        None => line.refuse(),
    }
}

fn messages_of(alloc: Global, line: &mut Line, source: &mut MemSource) {
    match MemSink::new(alloc, 0, 1, Vec::new(alloc)) {
        Ok(mut sink) => messages_to(alloc, line, source, &mut sink),
        Err(_) => line.refuse(),
    }
}

/// The messages of the bytes of a row, and how they end.
pub fn messages(alloc: Global, line: &mut Line, row: &str) {
    match source_of(alloc, row) {
        Ok(mut source) => messages_of(alloc, line, &mut source),
        Err(_) => line.refuse(),
    }
}
