//! Requests that are put to a handler by each form of `handle`.
ghost use Rattle.std.specs.Prelude.{IfOk, IfSome};
ghost use Rattle.dav_body.specs.Bodies.{MayPoll};
ghost use Rattle.dav_config.specs.Responses.{inner_of};
ghost use Rattle.dav_disk.specs.Failing.{mem_state};
ghost use Rattle.dav_get.specs.Bodies.{IsHeld};
ghost use Rattle.dav_local.specs.LocalFiles.{local_file};

use crate::readers::Pieces;
use crate::requests::request_of;
use crate::settings::Store;
use crate::stores::given_config;
use crate::told;
use dav_body::{Body, StreamBody};
use dav_config::{Answered, DavHandler};
use dav_disk::MemDisk;
use dav_get::GetBody;
use dav_io::Moment;
use dav_local::LocalFsFile;
use dav_rows::Line;
use dav_store::DavFileSystem;
use http::{Request, Response};
use std::alloc::Global;

type Handler = DavHandler<Store, ()>;

/// A form of `handle`, and the words of the configuration that is given with each request.
#[derive(Clone, Copy)]
pub struct Form<'a> {
    pub name: &'a str,
    pub given: &'a str,
}

// The request with its reader as a stream.
fn streamed(request: Request<Pieces>) -> Request<StreamBody<Pieces>> {
    let (head, body) = request.into_parts();
    Request::from_parts(head, StreamBody::new(body))
}

// Adds what a body gives that is polled with its disk. One that is given up is ended.
fn tell_polled(
    alloc: Global,
    line: &mut Line,
    disk: &mut MemDisk,
    body: Body<GetBody<LocalFsFile>>,
    part: &str,
)
    requires { MayPoll (λ b d. IsHeld local_file (mem_state d) b) body.inner disk.old }
{
    if part.ends_with(" left") {
        told::end(disk, body);
    } else {
        told::tell_body(line, &told::gathered(alloc, disk, body));
    }
}

fn tell_response(
    alloc: Global,
    line: &mut Line,
    handler: &mut Handler,
    response: Response<Body<GetBody<LocalFsFile>>>,
    part: &str,
)
    requires { IfSome handler.old.store (λ s. MayPoll
        (λ b d. IsHeld local_file (mem_state d) b) (inner_of response) s.disk) }
{
    told::tell_head(line, &response);
    let body = response.into_body();
    match handler.store() {
        Some(fs) => tell_polled(alloc, line, DavFileSystem::disk(fs), body, part),
        None => told::tell_kind(line, &body),
    }
}

fn tell_answer(
    alloc: Global,
    line: &mut Line,
    handler: &mut Handler,
    answer: Answered<LocalFsFile>,
    part: &str,
)
    requires { IfOk answer (λ r. IfSome handler.old.store (λ s. MayPoll
        (λ b d. IsHeld local_file (mem_state d) b) (inner_of r) s.disk)) }
{
    match answer {
        Ok(response) => tell_response(alloc, line, handler, response, part),
        Err(_) => line.refuse(),
    }
}

fn ask_plainly(alloc: Global, line: &mut Line, handler: &mut Handler, part: &str) {
    let request = request_of(alloc, line, part);
    let answer = handler.handle(request, Moment(0));
    tell_answer(alloc, line, handler, answer, part);
}

fn ask_guarded(alloc: Global, line: &mut Line, handler: &mut Handler, part: &str) {
    let request = request_of(alloc, line, part);
    let answer = handler.handle_guarded(request, "somebody", (), Moment(0));
    tell_answer(alloc, line, handler, answer, part);
}

fn ask_by_stream(alloc: Global, line: &mut Line, handler: &mut Handler, part: &str) {
    let request = request_of(alloc, line, part);
    let answer = handler.handle_stream(streamed(request), Moment(0));
    tell_answer(alloc, line, handler, answer, part);
}

// Adds the answer to a request by a form that takes no configuration.
fn ask(alloc: Global, line: &mut Line, handler: &mut Handler, form: Form<'_>, part: &str) {
    match form.name {
        "guarded" | "none_guarded" => ask_guarded(alloc, line, handler, part),
        "stream" | "none_stream" => ask_by_stream(alloc, line, handler, part),
        _ => ask_plainly(alloc, line, handler, part),
    }
}

fn ask_plainly_with(
    alloc: Global,
    line: &mut Line,
    handler: &mut Handler,
    form: Form<'_>,
    part: &str,
) {
    let config = given_config(alloc, line, form.given);
    let request = request_of(alloc, line, part);
    let answer = handler.handle_with(config, request, Moment(0));
    tell_answer(alloc, line, handler, answer, part);
}

fn ask_by_stream_with(
    alloc: Global,
    line: &mut Line,
    handler: &mut Handler,
    form: Form<'_>,
    part: &str,
) {
    let config = given_config(alloc, line, form.given);
    let request = request_of(alloc, line, part);
    let answer = handler.handle_stream_with(config, streamed(request), Moment(0));
    tell_answer(alloc, line, handler, answer, part);
}

// Adds the answer to a request by a form that takes a configuration.
fn ask_with(alloc: Global, line: &mut Line, handler: &mut Handler, form: Form<'_>, part: &str) {
    match form.name {
        "with" | "none_with" => ask_plainly_with(alloc, line, handler, form, part),
        _ => ask_by_stream_with(alloc, line, handler, form, part),
    }
}

fn answer(alloc: Global, line: &mut Line, handler: &mut Handler, form: Form<'_>, part: &str) {
    if form.name.ends_with("with") {
        ask_with(alloc, line, handler, form, part);
    } else {
        ask(alloc, line, handler, form, part);
    }
}

/// Answers the requests of a row, one after the other.
pub fn answers(alloc: Global, line: &mut Line, handler: &mut Handler, form: Form<'_>, parts: &str) {
    for (at, part) in parts.split('|').enumerate() {
        if at > 0 {
            line.add(" | ");
        }
        answer(alloc, line, handler, form, part.trim());
    }
}
