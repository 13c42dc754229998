//! A fetch over two streams: requests are written to standard output, and their answers are read from standard input. The
//! tree is fetched twice; the second time each file is asked for by its tag alone. What was fetched is told on standard
//! error.
#![tactic(auto)]

mod heads;
mod requests;
mod stream_peer;

use anyhow::{Result, bail};
use dav_fetch::{Copied, Kept, MirrorError, fetch};
use dav_host::{StdSink, StdSource};
use std::alloc::Global;
use std::io;
use stream_peer::StreamPeer;

// The most requests of a fetch.
const MOST_REQUESTS: u64 = 1000;

// Why a fetch ended, in words.
fn cause_of(error: &MirrorError) -> &'static str {
    match *error {
        MirrorError::Peer => "a stream failed, or gave no answer",
        MirrorError::NoMemory => "out of memory",
        MirrorError::Budget { made: _made } => "too many requests",
        _ => "an answer can't be gone on with",
    }
}

// The names of a file, each behind a slash, and its bytes.
fn line_of(alloc: Global, file: &Kept) -> Result<String> {
    let mut line = String::new(alloc);
    for name in file.path.as_slice() {
        line.push_str("/")?;
        line.push_str(name.as_str())?;
    }
    let text = String::from_utf8_lossy(alloc, file.bytes.as_slice())?;
    let told = format!(in alloc; ": {text:?}")?;
    line.push_str(told.as_str())?;
    Ok(line)
}

fn main(rt: HostRuntime) -> Result<()> {
    let alloc = rt.alloc();
    let (source, sink) = (StdSource::new(rt.reader()), StdSink::new(io::writer(&rt)));
    let mut peer = StreamPeer::new(alloc, source, sink)?;
    let mut copy = Copied::empty(alloc);
    let first = fetch(alloc, &mut peer, &mut copy, MOST_REQUESTS);
    let ended = match first {
        Ok(()) => fetch(alloc, &mut peer, &mut copy, MOST_REQUESTS),
        Err(error) => Err(error),
    };
    for file in copy.files.as_slice() {
        let line = line_of(alloc, file)?;
        eprintln!(rt; "{line}")?;
    }
    match ended {
        Ok(()) => Ok(()),
        Err(error) => bail!(cause_of(&error)),
    }
}
