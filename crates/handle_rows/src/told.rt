//! Answers as words.
ghost use Rattle.dav_body.specs.Bodies.{MayPoll};
ghost use Rattle.dav_disk.specs.Failing.{mem_state};
ghost use Rattle.dav_get.specs.Bodies.{IsHeld};
ghost use Rattle.dav_local.specs.LocalFiles.{local_file};

use dav_body::{Body, BodyFault, BodyType, collect};
use dav_disk::MemDisk;
use dav_get::GetBody;
use dav_io::Octets;
use dav_local::LocalFsFile;
use dav_rows::Line;
use http::{HeaderMap, Response};
use percent_encoding::CONTROLS;
use std::alloc::Global;

fn tell_bytes(line: &mut Line, bytes: &[u8]) {
    line.add_bytes(bytes, CONTROLS.add(b'%').add(b'|'));
}

fn tell_fields(line: &mut Line, fields: &HeaderMap) {
    for (name, value) in fields.iter() {
        line.tell(" ", name.as_str());
        line.add("=");
        tell_bytes(line, value.as_bytes());
    }
}

/// Adds the head of a response.
pub fn tell_head<B>(line: &mut Line, response: &Response<B>) {
    line.add_number("", u64::from(response.status().as_u16()));
    tell_fields(line, response.headers());
}

/// Adds what a body is that no disk is there for: nothing.
pub fn tell_kind(line: &mut Line, body: &Body<GetBody<LocalFsFile>>) {
    match &body.inner {
        BodyType::Empty => line.add(" ="),
        BodyType::Bytes(_) => line.add(" bytes"),
        BodyType::AsyncStream(_) => line.add(" a stream"),
    }
}

/// Adds all that a body gave.
pub fn tell_body(line: &mut Line, all: &Result<Octets, BodyFault>) {
    line.add(" =");
    match all {
        Ok(bytes) => tell_bytes(line, bytes.as_slice()),
        Err(BodyFault::Broken) => line.add(" broken"),
        Err(BodyFault::NoMemory) => line.add(" out of memory"),
    }
}

/// All that a body gives with the disk of its store. Its file is closed.
pub fn gathered(
    alloc: Global,
    disk: &mut MemDisk,
    body: Body<GetBody<LocalFsFile>>,
) -> Result<Octets, BodyFault>
    requires { MayPoll (λ b d. IsHeld local_file (mem_state d) b) body.inner disk.old }
{
    let mut body = body;
    let all = collect(alloc, &mut body, disk);
    end(disk, body);
    all
}

/// Ends a body, and its file where it is still open.
pub fn end(disk: &mut MemDisk, body: Body<GetBody<LocalFsFile>>)
    requires { MayPoll (λ b d. IsHeld local_file (mem_state d) b) body.inner disk.old }
{
    let Body { inner } = body;
    match inner {
        BodyType::AsyncStream(stream) => stream.into_steps().close(disk),
        BodyType::Bytes(_) | BodyType::Empty => {}
    }
}
