// Whether a request that is due may be made.
ghost use Rattle.std.specs.Prelude.{◌≡◌, ◌<◌, ◌≤◌, ◌↔◌, IfOk, IfErr, IsTrue, OnOk, false, length};
ghost use Rattle.dav_core.specs.DavPath.{IsPath};
ghost use Rattle.dav_fetch.specs.Asking.{dir_path, file_path};
ghost use Rattle.dav_fetch.specs.Fetching.{NotAsked, is_peer_error, link_is_short};
ghost use Rattle.dav_fetch.specs.Peer.{PeerState};

use crate::error::MirrorError;
use crate::peer::PeerFault;
use dav_core::{DavPath, FsPath};
use dav_io::NoMemory;
use std::alloc::Global;

const LINKS_MOST: usize = 65_000;

// The path of a directory, as a peer is asked for it.
pub(crate) fn dir_of(alloc: Global, names: &FsPath) -> Result<DavPath, NoMemory>
    ensures value { IfOk result (λ path. path ≡ dir_path names.now) }
    ensures is { IfOk result IsPath }
{
    let mut path = match DavPath::new(alloc, "/") {
        Ok(path) => path,
        Err(_) => return Err(NoMemory),
    };
    for name in names.as_slice() {
        path.push_segment(name.as_str())?;
    }
    path.add_slash();
    Ok(path)
}

// The path of a file, as a peer is asked for it. It has a name at least.
pub(crate) fn file_of(alloc: Global, names: &FsPath) -> Result<DavPath, NoMemory>
    requires { 0 < length names.now }
    ensures value { IfOk result (λ path. path ≡ file_path names.now) }
    ensures is { IfOk result IsPath }
{
    let mut path = match DavPath::new(alloc, "/") {
        Ok(path) => path,
        Err(_) => return Err(NoMemory),
    };
    for name in names.as_slice() {
        path.push_segment(name.as_str())?;
    }
    Ok(path)
}

// Whether the link of a path is short enough to be asked for.
fn link_fits(path: &DavPath) -> Result<bool, NoMemory>
    ensures { IfOk result (λ fits. IsTrue fits ↔ link_is_short path.now) }
{
    let link = path.as_url_string()?;
    let fits = link.as_slice().len() <= LINKS_MOST;
    Ok(fits)
}

// Refuses a request beyond those that are allowed, and one whose link is too long.
pub(crate) fn may_ask(path: &DavPath, made: u64, most: u64) -> Result<(), MirrorError>
    requires { made ≤ most }
    ensures ok { OnOk result ((made < most) × link_is_short path.now) }
    ensures err { IfErr result (λ e. (s : PeerState) → NotAsked path.now made most e s s) }
    ensures none { IfErr result (λ e. is_peer_error e ≡ false) }
{
    if made == most {
        return Err(MirrorError::Budget { made });
    }
    match link_fits(path) {
        Ok(true) => Ok(()),
        Ok(false) => match path.try_clone() {
            Ok(path) => Err(MirrorError::TooLong { path }),
            Err(_) => Err(MirrorError::NoMemory),
        },
        Err(_) => Err(MirrorError::NoMemory),
    }
}
