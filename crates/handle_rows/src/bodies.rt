//! Bodies that are polled.
//!
//!     steps COUNT END POLLS   what polls give of a body over steps: COUNT digits, the greatest first, and then the end
//!                             or, where END is `breaks`, a break
//!     collect COUNT END       all pieces of such a body joined, and how many steps were made
//!     frames COUNT END POLLS  the frames of such a body, one after the other
//!     bytes TEXT              what four polls give of a body of bytes; also `str`, `string` and `empty`
//!     slot FIRST SECOND       what is left of two numbers that are sent into a slot
//!     reader CALLS            the first frame of a reader that was called so often; its second call fails, and those
//!                             behind its fourth are at its end
//!     lent CALLS              two pieces of such a reader that is lent, and the next one of the reader itself
use crate::seen::{show, show_frame, show_next, show_poll};
use crate::steps::{Digits, Failing};
use bytes::Bytes;
use dav_body::{AsyncStream, Attached, Body, BodyFault, Sender, StreamBody, collect};
use dav_io::{NoMemory, Octets};
use dav_rows::{Line, word};
use futures::executor::block_on;
use futures::future::poll_fn;
use futures::task::Poll;
use http_body::Body as _;
use std::alloc::{AllocGlobal, Global};
use std::random::RandomSource;
use std::sync::Wait;

// More polls than any row makes.
const POLLS: u32 = 100;

// The body of a row's second and third words.
fn body_of(row: &str) -> Body<Digits> {
    let count = word(row, 1).parse::<u8>().unwrap_or(0);
    let breaks = word(row, 2) == "breaks";
    Body::from_stream(AsyncStream::new(Digits {
        left: count.min(10),
        breaks,
    }))
}

fn polls_of(row: &str) -> u32 {
    word(row, 3).parse::<u32>().unwrap_or(4).min(POLLS)
}

fn poll(alloc: Global, line: &mut Line, body: &mut Body<Digits>, steps: &mut u32) {
    show_poll(line, body.poll_next(alloc, steps));
}

// What polls of a body give.
fn polls(alloc: Global, line: &mut Line, body: &mut Body<Digits>, count: u32) {
    line.add("polls");
    let mut steps = 0;
    for _ in 0..count {
        poll(alloc, line, body, &mut steps);
    }
}

fn polls_of_steps(alloc: Global, line: &mut Line, row: &str) {
    let mut body = body_of(row);
    polls(alloc, line, &mut body, polls_of(row));
}

fn show_all(line: &mut Line, all: Result<Octets, BodyFault>) {
    match all {
        Ok(bytes) => show(line, bytes.as_slice()),
        Err(BodyFault::Broken) => line.add("broken"),
        Err(BodyFault::NoMemory) => line.add("out of memory"),
    }
}

fn collected(alloc: Global, line: &mut Line, row: &str) {
    let mut body = body_of(row);
    let mut steps = 0;
    let all = collect(alloc, &mut body, &mut steps);
    show_all(line, all);
    line.add_number(" by ", u64::from(steps));
}

fn bytes_body(alloc: Global, text: &str) -> Result<Body<Digits>, NoMemory> {
    Ok(Body::from_bytes(Bytes::copy_from_slice(alloc, text.as_bytes())?))
}

fn string_body(alloc: Global, text: &str) -> Result<Body<Digits>, NoMemory> {
    Body::from_string(String::from_str(alloc, text)?)
}

// A body of a row's text.
fn body_with(alloc: Global, kind: &str, text: &str) -> Result<Body<Digits>, NoMemory> {
    match kind {
        "str" => Body::from_str(alloc, text),
        "string" => string_body(alloc, text),
        "bytes" => bytes_body(alloc, text),
        _ => Ok(Body::empty()),
    }
}

fn polls_of_text(alloc: Global, line: &mut Line, row: &str) {
    let (kind, text) = row.split_once(' ').unwrap_or((row, ""));
    match body_with(alloc, kind, text) {
        Ok(mut body) => polls(alloc, line, &mut body, 4),
        Err(_) => line.refuse(),
    }
}

fn slot(line: &mut Line, row: &str) {
    let first = word(row, 1).parse::<u8>().unwrap_or(0);
    let second = word(row, 2).parse::<u8>().unwrap_or(0);
    let mut slot: Sender<u16, BodyFault> = Sender::new();
    let _ = slot.send(first);
    let mut sent = slot.send(second);
    line.add_whether("", sent.poll() == Poll::Pending);
    line.add_whether(" ", sent.poll() == Poll::Ready(()));
    line.add_number(" ", u64::from(slot.take().unwrap_or(0)));
    line.add_whether(" ", slot.take().is_none());
}

// A reader that was called so often.
fn reader_of(row: &str) -> Failing {
    Failing {
        calls: word(row, 1).parse::<u64>().unwrap_or(0),
        ended: false,
    }
}

// Pieces of a reader that is lent, and of the reader itself.
fn lent(line: &mut Line, mut reader: Failing) {
    line.add("pieces");
    show_next(line, &mut reader);
    show_next(line, &mut reader);
    show_next(line, reader);
}

// The first frame of a reader.
fn first_frame<R: Wait + RandomSource + AllocGlobal>(rt: &R, line: &mut Line, reader: Failing) {
    line.add("frames");
    let mut body = StreamBody::new(reader);
    match block_on(rt, poll_fn(move |cx| body.poll_frame(cx))) {
        Ok(got) => show_frame(line, got),
        Err(_) => line.refuse(),
    }
}

// The next frame of a body.
fn frame<R: Wait + RandomSource + AllocGlobal>(
    rt: &R,
    alloc: Global,
    line: &mut Line,
    body: &mut Body<Digits>,
    steps: &mut u32,
) {
    let mut attached = Attached::new(alloc, body, steps);
    match block_on(rt, poll_fn(move |cx| attached.poll_frame(cx))) {
        Ok(got) => show_frame(line, got),
        Err(_) => line.refuse(),
    }
}

fn frames<R: Wait + RandomSource + AllocGlobal>(
    rt: &R,
    alloc: Global,
    line: &mut Line,
    body: &mut Body<Digits>,
    count: u32,
) {
    line.add("frames");
    let mut steps = 0;
    for _ in 0..count {
        frame(rt, alloc, line, body, &mut steps);
    }
}

fn frames_of_steps<R: Wait + RandomSource + AllocGlobal>(
    rt: &R,
    alloc: Global,
    line: &mut Line,
    row: &str,
) {
    let mut body = body_of(row);
    frames(rt, alloc, line, &mut body, polls_of(row));
}

/// Adds the answer to a row that polls a body, and tells whether it is one.
pub fn answer<R: Wait + RandomSource + AllocGlobal>(
    rt: &R,
    alloc: Global,
    line: &mut Line,
    row: &str,
) -> bool {
    match word(row, 0) {
        "steps" => polls_of_steps(alloc, line, row),
        "collect" => collected(alloc, line, row),
        "frames" => frames_of_steps(rt, alloc, line, row),
        "bytes" | "str" | "string" | "empty" => polls_of_text(alloc, line, row),
        "slot" => slot(line, row),
        "reader" => first_frame(rt, line, reader_of(row)),
        "lent" => lent(line, reader_of(row)),
        _ => return false,
    }
    true
}
