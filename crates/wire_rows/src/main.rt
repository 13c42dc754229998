//! Reads heads of requests, and writes heads and bodies of answers: a row a line on standard input, and an answer a
//! line on standard output.
//!
//! A row is a word and cells, with a blank between them. In a cell each `%XX` is a byte, and `N*TEXT` is so many copies
//! of a text.
//!
//!     input MOST,CALL.. CELL..                  the requests of the bytes, which come so many a call, and how they
//!                                               end; the calls of the numbers fail
//!     messages MOST,CALL.. CELL..               as `input`: method and path of each request, and the bytes of its
//!                                               body; and how they end, with 400 or 413 where a body is refused
//!     head STATUS ENDS FRAMING NAME:VALUE..     the head of an answer; ENDS is `closes` or `stays`
//!     framing TAKES STATUS NAME:VALUE..         how the body of an answer is written; TAKES is `chunks` or `plain`
//!     body FRAMING CELL..                       the bytes of a body of these pieces; FRAMING is `chunked` or `raw`
//!     refusal                                   what answers a request that can't be read
//!     large                                     what answers a request whose body is too long
//!     says NAME:VALUE..                         whether an answer says itself that it closes
//!     room ROOM MOST FRAMING CELL..             as `body`, into so much room by so many bytes a call, and whether all
//!                                               went
//!     push ROOM MOST CELL..                     what reaches such a sink of these bytes
//!     asked MOST CELL..                         what reaches a sink before the source is asked; four bytes wait each
//!                                               time
//!     source MOST,CALL.. BYTES                  what a source gives (`outside.rt`, also for the rows below)
//!     sink MOST,CALL.. ROOM
//!     clock MOMENT MOMENT
//!     texts TEXT TEXT
//!     octets BYTES BYTES
//!     fields NAME:VALUE..
//!     errors
//!     #                                         is written as it stands
#![tactic(auto)]

mod cells;
mod messages;
mod outside;
mod requests;
mod sending;
mod server;

use cells::{fields_of, show_ends};
use dav_io::Field;
use dav_rows::{Line, word};
use dav_wire::{Flaw, Framing, answer_head, bad_request_text, framing, refusal_text, says_close};
use std::alloc::Global;
use std::io;

fn framing_of(cell: &str) -> Framing {
    if cell == "chunked" {
        Framing::Chunked
    } else {
        Framing::Raw
    }
}

fn status_of(cell: &str) -> u16 {
    cell.parse::<u16>().unwrap_or(0)
}

fn tell_head(alloc: Global, line: &mut Line, row: &str, fields: &[Field]) {
    let closing = word(row, 2) == "closes";
    let way = framing_of(word(row, 3));
    match answer_head(alloc, status_of(word(row, 1)), fields, closing, way) {
        Ok(text) => show_ends(line, text.as_slice()),
        Err(_) => line.refuse(),
    }
}

fn head(alloc: Global, line: &mut Line, row: &str) {
    match fields_of(alloc, row, 4) {
        Ok(fields) => tell_head(alloc, line, row, &fields),
        Err(_) => line.refuse(),
    }
}

fn way_word(way: Framing) -> &'static str {
    match way {
        Framing::Chunked => "chunked",
        Framing::Raw => "raw",
    }
}

fn way(alloc: Global, line: &mut Line, row: &str) {
    let chunks = word(row, 1) == "chunks";
    match fields_of(alloc, row, 3) {
        Ok(fields) => line.add(way_word(framing(chunks, status_of(word(row, 2)), &fields))),
        Err(_) => line.refuse(),
    }
}

fn says(alloc: Global, line: &mut Line, row: &str) {
    match fields_of(alloc, row, 1) {
        Ok(fields) => line.add(if says_close(&fields) {
            "closes"
        } else {
            "stays"
        }),
        Err(_) => line.refuse(),
    }
}

fn answer(alloc: Global, line: &mut Line, row: &str) {
    match word(row, 0) {
        "input" => requests::requests(alloc, line, row),
        "messages" => messages::messages(alloc, line, row),
        "head" => head(alloc, line, row),
        "framing" => way(alloc, line, row),
        "refusal" => show_ends(line, bad_request_text()),
        "large" => show_ends(line, refusal_text(Flaw::TooLarge)),
        "says" => says(alloc, line, row),
        "body" => sending::body(alloc, line, row),
        "room" => sending::room(alloc, line, row),
        "push" => sending::push(alloc, line, row),
        "asked" => sending::asked(alloc, line, row),
        _ => outside::answer(alloc, line, row),
    }
}

fn main(rt: HostRuntime) -> io::Result<()> {
    for row in rt.lines(rt.alloc()) {
        let mut line = Line::new(rt.alloc());
        answer(rt.alloc(), &mut line, row?.as_str());
        println!(rt; "{}", line.as_str())?;
    }
    Ok(())
}
