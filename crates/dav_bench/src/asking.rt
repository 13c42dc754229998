// Requests for the files of the large input.
ghost use Rattle.std.specs.Prelude.{◌≡◌, IfOk};
ghost use Rattle.dav_bench.specs.Asking.{IsAsking};

use crate::names::target;
use dav_io::{NoMemory, Octets};
use http::request::Parts;
use http::uri::{PathAndQuery, UriError};
use http::{Request, Uri};
use std::alloc::Global;

// A GET of file j of directory i.
pub fn request_for(alloc: Global, i: u64, j: u64) -> Result<Request<Octets>, NoMemory>
    ensures { IfOk result (λ request. IsAsking i j request) }
{
    let text = target(alloc, i, j)?;
    let path = match PathAndQuery::from_str(alloc, text.as_str()) {
        Ok(path) => path,
        Err(UriError::OutOfMemory) => return Err(NoMemory),
        Err(UriError::Invalid(_)) => unreachable!("the text is a path"),
    };
    let mut head = Parts::new(alloc);
    head.uri = Uri::from(path);
    Ok(Request::from_parts(head, Octets::new(Vec::new(alloc))))
}
