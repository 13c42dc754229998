use dav_io::{Moment, Octets};
use http::Request;

/// A step of a run: what is asked of the server, or what the outside does.
#[derive(Drop)]
pub enum Step {
    /// A request, at a moment.
    Request {
        request: Request<Octets>,
        now: Moment,
    },
    /// The next piece of the body of this number is asked for.
    Poll(u32),
    /// The body of this number is not wanted any more.
    Abandon(u32),
    /// What caches hold too long at this moment is dropped.
    Purge(Moment),
    /// The outside makes its next changes.
    Turn,
}
