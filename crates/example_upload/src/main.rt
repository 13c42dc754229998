//! Uploads from a connection: PUT requests stand on standard input, one behind the other, and the body of each goes to a
//! hidden file piece by piece, as it comes. The file takes its target's place when all is there. For each request stands
//! a line on standard output, and then one for each file.
#![tactic(auto)]

mod connection;
mod uploading;

use anyhow::{Result, bail};
use connection::Connection;
use dav_core::{DavPath, Member};
use dav_disk::MemDisk;
use dav_host::StdSource;
use dav_io::{Octets, Source};
use dav_local::LocalFs;
use dav_memory::Forget;
use dav_store::{GuardedFileSystem, read_members};
use dav_wire::{Announced, announced_by};
use http::Request;
use std::alloc::Global;
use uploading::{Ended, upload};

// Stores the body of a request. Its length has to be announced. The token makes the name of the hidden file.
fn stored<S: GuardedFileSystem<()>, R: Source + Drop>(
    alloc: Global,
    store: &mut S,
    connection: &mut Connection<R>,
    request: &Request<Octets>,
    token: u64,
) -> Result<Ended> {
    let Announced::Sized(length) = announced_by(request) else {
        bail!("the length of a body isn't announced");
    };
    let Ok(path) = DavPath::from_uri_and_prefix(alloc, request.uri(), "") else {
        bail!("no path");
    };
    Ok(upload(
        alloc,
        store,
        connection,
        &path,
        request.headers(),
        length,
        token,
    ))
}

// What a request came to, in words.
fn told(alloc: Global, ended: &Ended) -> Result<String> {
    match *ended {
        Ended::Answered(status) => Ok(format!(in alloc; "{status}")?),
        Ended::BrokeOff => Ok(format!(in alloc; "its body broke off, and what stood stands")?),
        Ended::NoMemory => bail!("out of memory"),
    }
}

// What stands in the folder.
fn members_of<S: GuardedFileSystem<()>>(alloc: Global, store: &mut S) -> Result<Vec<Member>> {
    let Ok(root) = DavPath::new(alloc, "/") else {
        bail!("no path");
    };
    let Ok(members) = read_members(alloc, store, &root, &()) else {
        bail!("the folder can't be listed");
    };
    Ok(members)
}

fn main(rt: HostRuntime) -> Result<()> {
    let alloc = rt.alloc();
    let mut store = LocalFs::new(MemDisk::new(alloc)?, Forget, false, false, false);
    let mut connection = Connection::new(alloc, StdSource::new(rt.reader()))?;
    let mut request = Request::new(alloc, Octets::empty(alloc));
    'requests: for token in 0..u64::MAX {
        if !connection.next_request(alloc, &mut request)? {
            break 'requests;
        }
        let ended = stored(alloc, &mut store, &mut connection, &request, token)?;
        let line = told(alloc, &ended)?;
        println!(rt; "PUT {}: {line}", request.uri().path())?;
    }
    for member in &members_of(alloc, &mut store)? {
        println!(rt; "{}, {} bytes", member.name.as_str(), member.len)?;
    }
    Ok(())
}
