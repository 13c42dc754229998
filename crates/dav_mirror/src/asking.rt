// The request that a player is asked for a path.
ghost use Rattle.std.specs.Prelude.{◌≡◌, ◌↔◌, ◌≤◌, [], bytes_eq, codes, cond, false, is_some, not, IfOk, IfSome, Ok, length, true};
ghost use Rattle.http_header.specs.FieldName.{IsHeaderName};
ghost use Rattle.http_header.specs.FieldValue.{IsFieldValue, plain_value};
ghost use Rattle.http_header.specs.HeaderMap.{append};
ghost use Rattle.http_uri.specs.Uri.{uri_path};
ghost use Rattle.dav_core.specs.DavPath.{link_of, shown};
ghost use Rattle.dav_core.specs.Grammar.{parsed};
ghost use Rattle.dav_core.specs.Path.{same_names};
ghost use Rattle.dav_model.specs.Gates.{has_field};
ghost use Rattle.dav_fetch.specs.Peer.{Carries, IsAskable, links_most};
ghost use Rattle.dav_mirror.specs.Asking.{AreSaid, CanBeTarget, Hears, IsAskedFor, IsSaid, IsSmall, IsTarget};

use dav_core::{DavPath, FsPath, ParseError};
use dav_io::{Field, Fields, NoMemory, Octets};
use http::header::{HeaderMapError, HeaderName, HeaderNameError, HeaderValue, HeaderValueError};
use http::request::Parts;
use http::uri::{PathAndQuery, UriError};
use http::{HeaderMap, Request, Uri};
use std::alloc::Global;

// A request, and whether it is heard as a GET of its path.
#[derive(Drop)]
pub(crate) struct Asking {
    pub(crate) request: Request<Octets>,
    pub(crate) heard: bool,
}

// The target of a path. None where no request can have it.
fn target_of(alloc: Global, path: &DavPath) -> Result<Option<Uri>, NoMemory>
    ensures { CanBeTarget path.now → IfOk result (IsTarget path.now) }
{
    let link = path.as_url_string()?;
    match PathAndQuery::from_str(alloc, link.as_str()) {
        Ok(target) => Ok(Some(Uri::from(target))),
        Err(UriError::OutOfMemory) => Err(NoMemory),
        Err(UriError::Invalid(_)) => Ok(None),
    }
}

// Whether both are the same names.
fn is_equal(a: &FsPath, b: &FsPath) -> bool
    ensures { result ≡ same_names a.now b.now }
{
    a == b
}

// Whether a slash ends both, or none.
fn has_same_end(a: &DavPath, b: &DavPath) -> bool
    ensures { result ≡ cond a.now.slash b.now.slash (not b.now.slash) }
{
    if a.is_collection() {
        b.is_collection()
    } else {
        !b.is_collection()
    }
}

// Whether both are one path.
fn is_same(a: &DavPath, b: &DavPath) -> bool
    ensures { result ≡ true ↔ a.now ≡ b.now }
{
    let same_prefix = is_equal(a.prefix(), b.prefix());
    if !same_prefix {
        return false;
    }
    let same_names = is_equal(a.names(), b.names());
    if !same_names {
        return false;
    }
    has_same_end(a, b)
}

// Whether the target leads back to the path, at a server that stands under no prefix.
fn leads_back(alloc: Global, target: &Uri, path: &DavPath) -> Result<bool, NoMemory>
    ensures { IfOk result (λ b. b ≡ true ↔ parsed (uri_path target.now) [] ≡ Ok path.now) }
{
    match DavPath::from_uri_and_prefix(alloc, target, "") {
        Ok(back) => Ok(is_same(&back, path)),
        Err(ParseError::NoMemory) => Err(NoMemory),
        Err(_) => Ok(false),
    }
}

// Whether a server hears a request of this target with these fields as one of the path.
fn is_heard(
    alloc: Global,
    target: &Uri,
    path: &DavPath,
    headers: &HeaderMap,
) -> Result<bool, NoMemory>
    ensures { IfOk result (λ b. b ≡ true ↔ ((parsed (uri_path target.now) [] ≡ Ok path.now)
        × (has_field headers.now (codes "if") ≡ false))) }
{
    if headers.get("if").is_some() {
        return Ok(false);
    }
    leads_back(alloc, target, path)
}

// Whether both are the same text.
fn is_text(a: &str, b: &str) -> bool
    ensures { result ≡ bytes_eq a.now b.now }
{
    a == b
}

// The name of a field. None where it is no name of a field, or isn't in lower case.
fn name_of(alloc: Global, field: &Field) -> Result<Option<HeaderName>, NoMemory>
    ensures name { IfOk result (λ o. IfSome o (λ name. name ≡ field.now.name)) }
    ensures some { IsHeaderName field.now.name → IfOk result (λ o. is_some o ≡ true) }
{
    let name = match HeaderName::from_bytes(alloc, field.name.as_slice()) {
        Ok(name) => name,
        Err(HeaderNameError::OutOfMemory) => return Err(NoMemory),
        Err(HeaderNameError::Invalid) => return Ok(None),
    };
    if !is_text(name.as_str(), field.name.as_str()) {
        return Ok(None);
    }
    Ok(Some(name))
}

// The value of a field. None where no field can have it.
fn value_of(alloc: Global, field: &Field) -> Result<Option<HeaderValue>, NoMemory>
    ensures value { IfOk result (λ o. IfSome o (λ value. value ≡ plain_value field.now.value)) }
    ensures some { IsFieldValue field.now.value → IfOk result (λ o. is_some o ≡ true) }
{
    match HeaderValue::from_bytes(alloc, field.value.as_slice()) {
        Ok(value) => Ok(Some(value)),
        Err(HeaderValueError::OutOfMemory) => Err(NoMemory),
        Err(HeaderValueError::Invalid) => Ok(None),
    }
}

// Adds a field, and tells whether it can be one.
fn add_field(alloc: Global, headers: &mut HeaderMap, field: &Field) -> Result<bool, NoMemory>
    ensures adds { IfOk result (λ added. added ≡ true
        → headers.new ≡ append headers.old field.now.name (plain_value field.now.value)) }
    ensures added { IsSaid field.now → IsSmall 1000 headers.old → IfOk result (λ added. added ≡ true) }
{
    let Some(name) = name_of(alloc, field)? else {
        return Ok(false);
    };
    let Some(value) = value_of(alloc, field)? else {
        return Ok(false);
    };
    match headers.append(name, value) {
        Ok(_) => Ok(true),
        Err(HeaderMapError::OutOfMemory) => Err(NoMemory),
        Err(HeaderMapError::MaxSizeReached) => Ok(false),
    }
}

// The map of these fields. None where no request can have them.
fn headers_of(alloc: Global, fields: &[Field]) -> Result<Option<HeaderMap>, NoMemory>
    ensures carries { IfOk result (λ o. IfSome o (λ headers. Carries fields.now headers)) }
    ensures some { AreSaid fields.now → IfOk result (λ o. is_some o ≡ true) }
{
    let mut headers = HeaderMap::new(alloc);
    for field in fields {
        if !add_field(alloc, &mut headers, field)? {
            return Ok(None);
        }
    }
    Ok(Some(headers))
}

/// The request for a path with these fields. None where no request can have them.
pub(crate) fn request_for(
    alloc: Global,
    path: &DavPath,
    fields: &Fields,
) -> Result<Option<Asking>, NoMemory>
    requires { length (link_of (shown path.now)) ≤ links_most }
    ensures asks { IfOk result (λ o. IfSome o (λ asking. IsAskedFor path.now fields.now asking.request asking.heard)) }
    ensures hears { IsAskable path.now fields.now → IfOk result Hears }
{
    let Some(uri) = target_of(alloc, path)? else {
        return Ok(None);
    };
    let Some(headers) = headers_of(alloc, fields.as_slice())? else {
        return Ok(None);
    };
    let heard = is_heard(alloc, &uri, path, &headers)?;
    let mut head = Parts::new(alloc);
    head.uri = uri;
    head.headers = headers;
    let request = Request::from_parts(head, Octets::empty(alloc));
    Ok(Some(Asking { request, heard }))
}
