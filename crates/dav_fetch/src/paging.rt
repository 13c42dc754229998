ghost use Rattle.std.specs.Prelude.{◌≡◌, ◌+◌, ◌<◌, ◌≤◌, [], ◌∷◌, ℕ, List, IfOk, IfErr, IfSome, Ok, None, length};
ghost use Rattle.std.specs.List.{AllZip};
ghost use Rattle.dav_core.specs.Disk.{DiskState};
ghost use Rattle.dav_core.specs.DavPath.{IsPath};
ghost use Rattle.dav_fetch.specs.declared.found.Found.{Found as It};
ghost use Rattle.dav_fetch.specs.Asking.{dir_path};
ghost use Rattle.dav_fetch.specs.Fetching.{Visited, is_peer_failure, link_is_short};
ghost use Rattle.dav_fetch.specs.Peer.{Counts};
ghost use Rattle.dav_fetch.specs.Reading.{IsOver};
ghost use Rattle.dav_fetch.specs.Steps.{PageFails};
ghost use Rattle.dav_fetch.specs.Walk.{IsFoundIn, IsPageOf, Visit};

use crate::error::MirrorError;
use crate::found::{Found, all_found};
use crate::peer::{Got, Peer, PeerFault};
use crate::reading::{Ended, read_up_to};
use dav_core::DavPath;
use dav_io::{Fields, NoMemory};
use dav_page::read_page;
use std::alloc::Global;
use std::str;

const PAGE_MOST: u64 = 16_777_216;

// What the page of a directory names. None where it is no page, or leads elsewhere.
fn found_on(alloc: Global, dir: &DavPath, page: &[u8]) -> Result<Option<Vec<Found>>, NoMemory>
    requires { dir.now ≡ dir_path dir.now.names }
    ensures some { IfOk result (λ o. IfSome o (λ found. IsFoundIn dir.now.names page.now found.items)) }
    ensures none { result ≡ Ok None → (found : List It) → IsFoundIn dir.now.names page.now found → ⊥ }
{
    let Ok(text) = str::from_utf8(page) else {
        return Ok(None);
    };
    let Some(rows) = read_page(alloc, text)? else {
        return Ok(None);
    };
    all_found(alloc, dir, rows.as_slice())
}

// The page of a directory is asked for, read whole, and what it names is told.
pub(crate) fn ask_page<P: Peer>(
    alloc: Global,
    peer: &mut P,
    dir: &DavPath,
) -> Result<Vec<Found>, MirrorError>
    requires dir { dir.now ≡ dir_path dir.now.names }
    requires is { IsPath dir.now }
    requires link { link_is_short dir.now }
    ensures ok { IfOk result (λ found. (visit : Visit) × Visited (P.state peer.old) visit (P.state peer.new)
        × IsPageOf dir.now.names visit found.items × IsOver (P.state peer.new)) }
    ensures err { IfErr result (λ e. PageFails dir.now.names (P.state peer.old) e (P.state peer.new)) }
    ensures counts { Counts 1 (is_peer_failure result) (P.calls peer.old) (P.calls peer.new) }
    ensures loan { P.loan peer.new ≡ P.loan peer.old }
    ensures since { (s : DiskState) → P.since peer.old s → P.since peer.new s }
{
    let Ok(path) = dir.try_clone() else {
        return Err(MirrorError::NoMemory);
    };
    let fields = Fields::empty(alloc);
    let Got { status, .. } = match peer.get(dir, &fields) {
        Ok(got) => got,
        Err(PeerFault::Failed) => return Err(MirrorError::Peer),
        Err(PeerFault::NoMemory) => return Err(MirrorError::NoMemory),
    };
    if status != 200 {
        return Err(MirrorError::Refused { path, status });
    }
    let mut page = Vec::new(alloc);
    match read_up_to(peer, PAGE_MOST + 1, &mut page) {
        Ended::Over => {}
        Ended::Full => return Err(MirrorError::TooLong { path }),
        Ended::Failed => return Err(MirrorError::Peer),
        Ended::NoMemory => return Err(MirrorError::NoMemory),
    }
    match found_on(alloc, dir, &page) {
        Ok(Some(found)) => Ok(found),
        Ok(None) => Err(MirrorError::NotAPage { path }),
        Err(_) => Err(MirrorError::NoMemory),
    }
}
