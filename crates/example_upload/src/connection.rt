//! A connection as a server reads it: heads of requests, and the bytes that follow.
ghost use Rattle.std.specs.Prelude.{◌≡◌, ◌≤◌, ◌<◌, length, true};

use anyhow::{Result, bail};
use dav_io::{NoMemory, Octets, Source};
use dav_wire::{Found, Input};
use http::Request;
use std::alloc::Global;

// The most bytes of a head, and so the most calls for one.
const MOST: usize = 65_536;

/// A source with the bytes that were taken from it and not yet passed.
#[derive(Drop)]
pub struct Connection<R: Source + Drop> {
    source: R,
    input: Input,
}

impl<R: Source + Drop> Connection<R> {
    /// Nothing read yet.
    pub fn new(alloc: Global, source: R) -> Result<Self, NoMemory> {
        Ok(Connection {
            source,
            input: Input::new(alloc)?,
        })
    }

    // Takes more bytes, where some can be had.
    fn fill(&mut self) -> Result<bool> {
        if self.input.pending().len() > MOST {
            bail!("a head is too long");
        }
        Ok(self.input.fill(&mut self.source)? > 0)
    }

    /// Reads the head of the next request, where there is one.
    pub fn next_request(&mut self, alloc: Global, request: &mut Request<Octets>) -> Result<bool> {
        'bytes: for _calls in 0..MOST {
            match self.input.next_head(alloc, request)? {
                Found::Whole(_plain) => return Ok(true),
                Found::Refused => bail!("no request"),
                Found::More => {
                    if !self.fill()? {
                        return Ok(false);
                    }
                }
            }
        }
        bail!("a head comes in too many pieces")
    }

    /// Whether bytes are there, or come now: not where the connection is at its end, or fails.
    pub fn has_more(&mut self) -> bool
        ensures { result ≡ true → 0 < length self.new.input.bytes }
    {
        if !self.input.pending().is_empty() {
            return true;
        }
        match self.input.fill(&mut self.source) {
            Ok(count) => count > 0,
            Err(_) => false,
        }
    }

    /// The bytes that are there.
    pub fn held(&self) -> &[u8]
        ensures { result.now ≡ self.now.input.bytes }
    {
        self.input.pending()
    }

    /// Passes some of them.
    pub fn pass(&mut self, count: usize)
        requires { count ≤ length self.old.input.bytes }
    {
        self.input.pass(count);
    }
}
