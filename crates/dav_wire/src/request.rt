//! What the head of a request says of its answer.
ghost use Rattle.std.specs.Prelude.{◌≡◌, ◌↔◌, IsTrue};
ghost use Rattle.http.specs.Request.{head_of};
ghost use Rattle.dav_wire.specs.Framing.{takes_chunks as the_takes_chunks};
ghost use Rattle.http.specs.declared.version.TheConstants.Version.{HTTP_10};

use dav_io::Octets;
use http::{Request, Version};

/// Is the request of HTTP/1.0?
pub fn is_old(version: Version) -> bool
    ensures { IsTrue result ↔ (version ≡ HTTP_10) }
{
    version == Version::HTTP_10
}

/// Whether the answer to a request may be written in chunks: its version is 1.1 and its method isn't HEAD (RFC 9112,
/// sections 6.1 and 6.3).
pub fn takes_chunks(request: &Request<Octets>) -> bool
    ensures { result ≡ the_takes_chunks (head_of request.now) }
{
    request.version() == Version::HTTP_11 && request.method().as_str() != "HEAD"
}
