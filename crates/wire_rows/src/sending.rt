//! What reaches a sink, and when.
use crate::cells::{bytes_of, show_ends};
use crate::framing_of;
use crate::server::Server;
use dav_io::{MemSink, MemSource, NoMemory, Octets};
use dav_rows::{Line, word};
use dav_wire::{Found, Framing, Output, fill_flushing};
use std::alloc::Global;

// Room for a body.
const ROOM: usize = 100_000;

// The room of a sink, and the most bytes that it takes a call, by a row's second and third cells.
fn sink_of(alloc: Global, row: &str) -> Result<MemSink, NoMemory> {
    let room = word(row, 1).parse::<usize>().unwrap_or(0);
    let most = word(row, 2).parse::<usize>().unwrap_or(1);
    MemSink::new(alloc, room, most.max(1), Vec::new(alloc))
}

// Gives a piece to a sink, and answers whether it went.
fn give_piece(
    alloc: Global,
    line: &mut Line,
    output: &mut Output,
    sink: &mut MemSink,
    way: Framing,
    cell: &str,
) -> bool {
    match bytes_of(alloc, cell) {
        Ok(piece) => output.push_piece(sink, way, piece.as_slice()).is_ok(),
        Err(_) => {
            line.refuse();
            false
        }
    }
}

// Gives a body to a sink by the framing of the cell of a row at this number and of the pieces behind it, and answers
// whether all of it went.
fn give_by(
    alloc: Global,
    line: &mut Line,
    output: &mut Output,
    sink: &mut MemSink,
    row: &str,
    at: u8,
) -> bool {
    let way = framing_of(word(row, usize::from(at)));
    let mut all = true;
    for cell in row.split(' ').skip(usize::from(at) + 1) {
        if !give_piece(alloc, line, output, sink, way, cell) {
            all = false;
        }
    }
    let ended = output.push_end(sink, way).is_ok();
    let flushed = output.flush(sink).is_ok();
    all && ended && flushed
}

fn give(alloc: Global, line: &mut Line, sink: &mut MemSink, row: &str, at: u8) -> bool {
    match Output::new(alloc) {
        Ok(mut output) => give_by(alloc, line, &mut output, sink, row, at),
        Err(_) => {
            line.refuse();
            false
        }
    }
}

/// A body in a sink that has room for it.
pub fn body(alloc: Global, line: &mut Line, row: &str) {
    match MemSink::new(alloc, ROOM, 7, Vec::new(alloc)) {
        Ok(mut sink) => {
            if !give(alloc, line, &mut sink, row, 1) {
                line.refuse();
            }
            show_ends(line, sink.written());
        }
        Err(_) => line.refuse(),
    }
}

/// A body in a sink that may have no room for it.
pub fn room(alloc: Global, line: &mut Line, row: &str) {
    match sink_of(alloc, row) {
        Ok(mut sink) => {
            let all = give(alloc, line, &mut sink, row, 3);
            line.add(if all { "whole " } else { "part " });
            show_ends(line, sink.written());
        }
        Err(_) => line.refuse(),
    }
}

fn push_piece(alloc: Global, line: &mut Line, output: &mut Output, sink: &mut MemSink, cell: &str) {
    match bytes_of(alloc, cell) {
        Ok(piece) => {
            let _ = output.push(sink, piece.as_slice());
        }
        Err(_) => line.refuse(),
    }
}

fn push_each(alloc: Global, line: &mut Line, output: &mut Output, sink: &mut MemSink, row: &str) {
    for cell in row.split(' ').skip(3) {
        push_piece(alloc, line, output, sink, cell);
    }
    let _ = output.flush(sink);
}

fn push_to(alloc: Global, line: &mut Line, sink: &mut MemSink, row: &str) {
    match Output::new(alloc) {
        Ok(mut output) => push_each(alloc, line, &mut output, sink, row),
        Err(_) => line.refuse(),
    }
}

/// Pieces that are pushed one after the other, and flushed.
pub fn push(alloc: Global, line: &mut Line, row: &str) {
    match sink_of(alloc, row) {
        Ok(mut sink) => {
            push_to(alloc, line, &mut sink, row);
            show_ends(line, sink.written());
        }
        Err(_) => line.refuse(),
    }
}

// Pushes, and asks the source where the input has no whole head.
fn ask(
    alloc: Global,
    line: &mut Line,
    server: &mut Server,
    source: &mut MemSource,
    sink: &mut MemSink,
) {
    let _ = server.output.push(sink, b"wait");
    match server.input.next_head(alloc, &mut server.request) {
        Ok(Found::More) => {
            let _ = fill_flushing(&mut server.input, source, &mut server.output, sink);
        }
        Ok(_) => {}
        Err(_) => line.refuse(),
    }
}

fn ask_each(
    alloc: Global,
    line: &mut Line,
    server: &mut Server,
    source: &mut MemSource,
    sink: &mut MemSink,
) {
    for _ in 0..3u8 {
        ask(alloc, line, server, source, sink);
    }
}

fn ask_thrice(alloc: Global, line: &mut Line, source: &mut MemSource, sink: &mut MemSink) {
    match Server::new(alloc) {
        Some(mut server) => ask_each(alloc, line, &mut server, source, sink),
        None => line.refuse(),
    }
}

fn ask_of(alloc: Global, line: &mut Line, row: &str, sink: &mut MemSink) {
    let most = word(row, 1).parse::<usize>().unwrap_or(1);
    match bytes_of(alloc, word(row, 2)) {
        Ok(bytes) => {
            let bytes = Octets::new(bytes);
            let mut source = MemSource::new(bytes, most.max(1), Vec::new(alloc));
            ask_thrice(alloc, line, &mut source, sink);
        }
        Err(_) => line.refuse(),
    }
}

/// What reached a sink before the source was asked, at three heads.
pub fn asked(alloc: Global, line: &mut Line, row: &str) {
    match MemSink::new(alloc, 100, 3, Vec::new(alloc)) {
        Ok(mut sink) => {
            ask_of(alloc, line, row, &mut sink);
            show_ends(line, sink.written());
        }
        Err(_) => line.refuse(),
    }
}
