//! The same file over the store inside, which holds no contents.
ghost use Rattle.std.specs.Prelude.{◌≡◌, IfOk, IfSome};
ghost use Rattle.dav_body.specs.Bodies.{MayPoll};
ghost use Rattle.dav_config.specs.Responses.{inner_of};
ghost use Rattle.dav_disk.specs.Failing.{mem_state};
ghost use Rattle.dav_get.specs.Bodies.{IsHeld};
ghost use Rattle.dav_local.specs.LocalFiles.{local_file};

use crate::read_cache::{gathered, request_of};
use anyhow::{Result, bail};
use dav_config::{Answered, DavConfig, DavHandler};
use dav_disk::MemDisk;
use dav_io::Moment;
use dav_local::{LocalFs, LocalFsFile};
use dav_memory::Forget;
use dav_store::{DavFileSystem, OneBody};
use http::Request;
use std::alloc::Global;

type Handler = DavHandler<LocalFs<MemDisk, Forget>, ()>;

// The answer to a request. `may` is what a poll of its body requires, and holds at once.
fn answered(handler: &mut Handler, request: Request<OneBody>) -> Answered<LocalFsFile>
    ensures may { IfOk result (λ r. IfSome handler.new.store (λ s. MayPoll
        (λ b d. IsHeld local_file (mem_state d) b) (inner_of r) s.disk)) }
{
    handler.handle(request, Moment(0))
}

/// How many calls the disk was asked for a GET of a file.
pub fn calls(alloc: Global, disk: MemDisk, target: &str) -> Result<u64> {
    let store = LocalFs::new(disk, Forget, false, false, false);
    let mut handler: Handler = DavConfig::new(alloc).filesystem(store).build_handler();
    let request = request_of(alloc, "GET", target, b"")?;
    let Ok(response) = answered(&mut handler, request) else {
        bail!("out of memory");
    };
    let (_, body) = response.into_parts();
    let Some(store) = handler.store() else {
        bail!("the handler has no store");
    };
    let Ok(_bytes) = gathered(alloc, DavFileSystem::disk(store), body) else {
        bail!("no whole body");
    };
    Ok(DavFileSystem::disk(store).asked())
}
