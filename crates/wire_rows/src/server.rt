//! What reads requests and answers them, as a server has it.
use dav_io::Octets;
use dav_wire::{Input, Output};
use http::Request;
use std::alloc::Global;

/// The bytes that are held, what waits for the sink, and the request that is read into.
#[derive(Drop)]
pub struct Server {
    pub input: Input,
    pub output: Output,
    pub request: Request<Octets>,
}

impl Server {
    /// Nothing read yet. None for want of memory.
    pub fn new(alloc: Global) -> Option<Server> {
        let Ok(input) = Input::new(alloc) else {
            return None;
        };
        let Ok(output) = Output::new(alloc) else {
            return None;
        };
        let request = Request::new(alloc, Octets::empty(alloc));
        Some(Server {
            input,
            output,
            request,
        })
    }
}
