//! A server of one's own: a folder in memory behind a handler, and five requests to it. For each stands a line on
//! standard output: its status, and the bytes of its body.
#![tactic(auto)]

ghost use Rattle.std.specs.Prelude.{◌≡◌, IfOk, IfSome};
ghost use Rattle.dav_body.specs.Bodies.{MayPoll};
ghost use Rattle.dav_config.specs.Responses.{inner_of};
ghost use Rattle.dav_disk.specs.Failing.{mem_state};
ghost use Rattle.dav_get.specs.Bodies.{IsHeld};
ghost use Rattle.dav_local.specs.LocalFiles.{local_file};

use anyhow::{Result, bail};
use dav_body::{Body, BodyFault, BodyType, collect};
use dav_config::{Answered, DavConfig, DavHandler};
use dav_disk::MemDisk;
use dav_get::GetBody;
use dav_io::{Moment, Octets};
use dav_local::{LocalFs, LocalFsFile};
use dav_memory::Forget;
use dav_store::{DavFileSystem, OneBody};
use http::{Method, Request, Uri};
use std::alloc::Global;

type Handler = DavHandler<LocalFs<MemDisk, Forget>, ()>;

// A handler over a disk. Each path is meant as it is written, nothing is remembered, and directories have pages.
fn handler_over(alloc: Global, disk: MemDisk) -> Handler {
    let store = LocalFs::new(disk, Forget, false, false, false);
    let config = DavConfig::new(alloc).filesystem(store).autoindex(true);
    config.build_handler()
}

// A request with a body in memory.
fn request_of(alloc: Global, method: &str, target: &str, bytes: &[u8]) -> Result<Request<OneBody>> {
    let mut body = Octets::empty(alloc);
    body.extend(bytes)?;
    let mut request = Request::new(alloc, OneBody::new(body)?);
    *request.method_mut() = Method::from_bytes(alloc, method.as_bytes())?;
    *request.uri_mut() = Uri::from_str(alloc, target)?;
    Ok(request)
}

// The answer to a request. `may` is what a poll of its body requires, and holds at once.
fn answered(handler: &mut Handler, request: Request<OneBody>) -> Answered<LocalFsFile>
    ensures may { IfOk result (λ r. IfSome handler.new.store (λ s. MayPoll
        (λ b d. IsHeld local_file (mem_state d) b) (inner_of r) s.disk)) }
{
    handler.handle(request, Moment(0))
}

// Ends a body. Where it wasn't read to its end, its file is open still, and closed here.
fn end(disk: &mut MemDisk, body: Body<GetBody<LocalFsFile>>)
    requires { MayPoll (λ b d. IsHeld local_file (mem_state d) b) body.inner disk.old }
{
    let Body { inner } = body;
    match inner {
        BodyType::AsyncStream(stream) => stream.into_steps().close(disk),
        BodyType::Bytes(_) | BodyType::Empty => {}
    }
}

// All bytes of a body, which is polled with the disk of its store until it ends.
fn gathered(
    alloc: Global,
    disk: &mut MemDisk,
    body: Body<GetBody<LocalFsFile>>,
) -> Result<Octets, BodyFault>
    requires { MayPoll (λ b d. IsHeld local_file (mem_state d) b) body.inner disk.old }
{
    let mut body = body;
    let all = collect(alloc, &mut body, disk);
    end(disk, body);
    all
}

// The status of an answer and the bytes of its body, as a line.
fn told(alloc: Global, handler: &mut Handler, request: Request<OneBody>) -> Result<String> {
    let Ok(response) = answered(handler, request) else {
        bail!("out of memory");
    };
    let status = response.status().as_u16();
    let (_, body) = response.into_parts();
    let Some(store) = handler.store() else {
        bail!("the handler has no store");
    };
    match gathered(alloc, DavFileSystem::disk(store), body) {
        Ok(bytes) => {
            let text = String::from_utf8_lossy(alloc, bytes.as_slice())?;
            Ok(format!(in alloc; "{status} with {text:?}")?)
        }
        Err(BodyFault::Broken) => Ok(format!(in alloc; "{status}, and its body broke")?),
        Err(BodyFault::NoMemory) => bail!("out of memory"),
    }
}

fn main(rt: HostRuntime) -> Result<()> {
    let alloc = rt.alloc();
    let mut handler = handler_over(alloc, MemDisk::new(alloc)?);
    let requests: [(&str, &str, &[u8]); 5] = [
        ("MKCOL", "/letters", b""),
        ("PUT", "/letters/first.txt", b"Dear reader"),
        ("GET", "/letters/first.txt", b""),
        ("DELETE", "/letters/first.txt", b""),
        ("GET", "/letters/first.txt", b""),
    ];
    for (method, target, bytes) in requests {
        let request = request_of(alloc, method, target, bytes)?;
        let line = told(alloc, &mut handler, request)?;
        println!(rt; "{method} {target}: {line}")?;
    }
    Ok(())
}
