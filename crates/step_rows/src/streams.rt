//! A body as a stream: a row `collect` sets a disk, and its last part is the GET whose body is collected. The answer is
//! the status, and all bytes of the body or why there are none; `over` says that nothing comes behind the end.
ghost use Rattle.std.specs.Prelude.{IfSome};
ghost use Rattle.dav_disk.specs.Failing.{mem_state};
ghost use Rattle.dav_get.specs.Bodies.{IsHeld};
ghost use Rattle.dav_local.specs.LocalFiles.{local_file};

use dav_body::{AsyncStream, Body, BodyFault, collect};
use dav_core::{DavMethod, DavPath};
use dav_disk::MemDisk;
use dav_get::{GetBody, handle_get};
use dav_handler::{Forget, LocalFs, Settings, Step};
use dav_io::Octets;
use dav_local::LocalFsFile;
use dav_rows::Line;
use dav_scenes::{Scene, scene_of, tell_bytes};
use futures::task::Poll;
use http::Request;
use std::alloc::Global;

// The disk and the body of a GET of a path, and its status.
fn body_of(
    alloc: Global,
    disk: MemDisk,
    settings: &Settings,
    path: &DavPath,
    request: &Request<Octets>,
) -> Option<(MemDisk, GetBody<LocalFsFile>, u16)>
    ensures { IfSome result (λ r. IsHeld local_file (mem_state r.0) r.1) }
{
    let mut store = LocalFs::new(disk, Forget, false, false, false);
    match handle_get(
        alloc,
        settings,
        &mut store,
        &(),
        DavMethod::Get,
        path,
        request.headers(),
    ) {
        Ok(given) => {
            let (outcome, body) = given;
            let (disk, _) = store.into_parts();
            Some((disk, body, outcome.status))
        }
        Err(_) => None,
    }
}

// All that a body gives as a stream, joined, and whether nothing comes behind its end.
fn joined(
    alloc: Global,
    mut disk: MemDisk,
    body: GetBody<LocalFsFile>,
) -> (Result<Octets, BodyFault>, bool)
    requires { IsHeld local_file (mem_state disk) body }
{
    let mut body = Body::from_stream(AsyncStream::new(body));
    let all = collect(alloc, &mut body, &mut disk);
    let first = matches!(body.poll_next(alloc, &mut disk), Poll::Ready(None));
    let second = matches!(body.poll_next(alloc, &mut disk), Poll::Ready(None));
    (all, first && second)
}

fn fault_word(fault: BodyFault) -> &'static str {
    match fault {
        BodyFault::Broken => "broken",
        _ => "out of memory",
    }
}

fn tell_all(line: &mut Line, all: &Result<Octets, BodyFault>) {
    match all {
        Ok(bytes) => tell_bytes(line, bytes.as_slice()),
        Err(fault) => line.add(fault_word(*fault)),
    }
}

// Tells the status of an answer, and all that its body gives.
fn tell_body(alloc: Global, line: &mut Line, disk: MemDisk, body: GetBody<LocalFsFile>, status: u16)
    requires { IsHeld local_file (mem_state disk) body }
{
    let (all, over) = joined(alloc, disk, body);
    line.add_number("", u64::from(status));
    line.add(" | ");
    tell_all(line, &all);
    line.add(if over { " | over" } else { " | goes on" });
}

fn tell_at(
    alloc: Global,
    line: &mut Line,
    scene: Scene,
    path: &DavPath,
    request: &Request<Octets>,
) {
    match body_of(alloc, scene.disk, &scene.settings, path, request) {
        Some(given) => {
            let (disk, body, status) = given;
            tell_body(alloc, line, disk, body, status);
        }
        None => line.refuse(),
    }
}

fn tell(alloc: Global, line: &mut Line, scene: Scene, request: &Request<Octets>) {
    match DavPath::from_uri_and_prefix(alloc, request.uri(), "") {
        Ok(path) => tell_at(alloc, line, scene, &path, request),
        Err(_) => line.refuse(),
    }
}

/// Adds what the body of a row's request gives.
pub fn collected(alloc: Global, line: &mut Line, row: &str) {
    let (_, parts) = row.split_once('|').unwrap_or(("", ""));
    match scene_of(alloc, line, parts) {
        Some(scene) => tell_last(alloc, line, scene),
        None => line.refuse(),
    }
}

fn tell_last(alloc: Global, line: &mut Line, mut scene: Scene) {
    match scene.steps.pop() {
        Some(Step::Request { request, .. }) => tell(alloc, line, scene, &request),
        _ => line.refuse(),
    }
}
