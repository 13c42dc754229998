//! A folder whose small files are held by their entity tags, as docs/CACHES.md shows it.
ghost use Rattle.std.specs.Prelude.{◌≡◌, IfOk, IfSome};
ghost use Rattle.dav_body.specs.Bodies.{MayPoll};
ghost use Rattle.dav_config.specs.Responses.{inner_of};
ghost use Rattle.dav_disk.specs.Failing.{mem_state};
ghost use Rattle.dav_get.specs.Bodies.{IsHeld};
ghost use Rattle.dav_local.specs.LocalFiles.{local_file};
ghost use Rattle.dav_readcache.specs.Cached.{cached_file};

use anyhow::{Result, bail};
use dav_body::{Body, BodyFault, BodyType, collect};
use dav_config::{Answered, DavConfig, DavHandler};
use dav_disk::MemDisk;
use dav_get::GetBody;
use dav_io::{Moment, Octets};
use dav_local::{LocalFs, LocalFsFile};
use dav_memory::Forget;
use dav_readcache::{CachedFile, ReadCache};
use dav_store::{DavFile, GuardedFileSystem, OneBody};
use http::{Method, Request, Uri};
use std::alloc::Global;

type Handler = DavHandler<ReadCache<LocalFs<MemDisk, Forget>, ()>, ()>;

// A handler over a disk, which holds the contents of at most 100 files: a million bytes in all, and 100,000 in one.
fn handler_over(alloc: Global, disk: MemDisk) -> Result<Handler> {
    let store = LocalFs::new(disk, Forget, false, false, false);
    let Ok(cache) = ReadCache::new(alloc, store, 100, 1_000_000, 100_000) else {
        bail!("out of memory");
    };
    Ok(DavConfig::new(alloc).filesystem(cache).build_handler())
}

/// A disk that is slow: each of its next reads gives one byte.
pub fn slow(alloc: Global, disk: MemDisk) -> Result<MemDisk> {
    let mut disk = disk;
    disk.short(vec![in alloc; 1; 100]?);
    Ok(disk)
}

/// A request with a body in memory.
pub fn request_of(
    alloc: Global,
    method: &str,
    target: &str,
    bytes: &[u8],
) -> Result<Request<OneBody>> {
    let mut body = Octets::empty(alloc);
    body.extend(bytes)?;
    let mut request = Request::new(alloc, OneBody::new(body)?);
    *request.method_mut() = Method::from_bytes(alloc, method.as_bytes())?;
    *request.uri_mut() = Uri::from_str(alloc, target)?;
    Ok(request)
}

// The answer to a request. `may` is what a poll of its body requires, and holds at once.
fn answered(handler: &mut Handler, request: Request<OneBody>) -> Answered<CachedFile<LocalFsFile>>
    ensures may { IfOk result (λ r. IfSome handler.new.store (λ s. MayPoll
        (λ b d. IsHeld (cached_file local_file) (mem_state d) b) (inner_of r) s.store.disk)) }
{
    handler.handle(request, Moment(0))
}

// Ends a body. Where it wasn't read to its end, its file is open still, and closed here.
fn end<F: DavFile<MemDisk>>(disk: &mut MemDisk, body: Body<GetBody<F>>)
    requires { MayPoll (λ b d. IsHeld F.view (mem_state d) b) body.inner disk.old }
{
    let Body { inner } = body;
    match inner {
        BodyType::AsyncStream(stream) => stream.into_steps().close(disk),
        BodyType::Bytes(_) | BodyType::Empty => {}
    }
}

/// All bytes of a body, which is polled with the disk of its store until it ends.
pub fn gathered<F: DavFile<MemDisk>>(
    alloc: Global,
    disk: &mut MemDisk,
    body: Body<GetBody<F>>,
) -> Result<Octets, BodyFault>
    requires { MayPoll (λ b d. IsHeld F.view (mem_state d) b) body.inner disk.old }
{
    let mut body = body;
    let all = collect(alloc, &mut body, disk);
    end(disk, body);
    all
}

// The bytes of a file by a GET, and how many calls the disk was asked then.
fn got(alloc: Global, handler: &mut Handler, target: &str) -> Result<String> {
    let request = request_of(alloc, "GET", target, b"")?;
    let Ok(response) = answered(handler, request) else {
        bail!("out of memory");
    };
    let (_, body) = response.into_parts();
    let Some(cache) = handler.store() else {
        bail!("the handler has no store");
    };
    let Ok(bytes) = gathered(alloc, cache.disk(), body) else {
        bail!("no whole body");
    };
    let text = String::from_utf8_lossy(alloc, bytes.as_slice())?;
    let asked = cache.disk().asked();
    let held = cache.held();
    Ok(format!(in alloc; "{text:?}, {asked} calls of the disk, {held} bytes held")?)
}

/// What a file is answered with over this disk, three times.
pub fn answers(alloc: Global, disk: MemDisk, target: &str) -> Result<Vec<String>> {
    let mut handler = handler_over(alloc, disk)?;
    let mut answers = Vec::new(alloc);
    for _ in 0..3 {
        answers.push(got(alloc, &mut handler, target)?)?;
    }
    Ok(answers)
}
