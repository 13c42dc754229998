// The visit of one file.
ghost use Rattle.std.specs.Prelude.{◌≡◌, ◌-◌, ◌<◌, ◌≤◌, ◌⊎◌, Err, length};
ghost use Rattle.std.specs.Option.{ForSome};
ghost use Rattle.dav_core.specs.Disk.{DiskState};
ghost use Rattle.dav_core.specs.DavPath.{IsPath};
ghost use Rattle.dav_fetch.specs.Asking.{file_path};
ghost use Rattle.dav_fetch.specs.Copy.{IsKept};
ghost use Rattle.dav_fetch.specs.Fetching.{is_peer_failure, link_is_short};
ghost use Rattle.dav_fetch.specs.Peer.{Counts};
ghost use Rattle.dav_fetch.specs.Taking.{AsksFile, ReadsFile, TakesFile};

use crate::asking::fields_for;
use crate::copied::Kept;
use crate::due::{file_of, may_ask};
use crate::error::MirrorError;
use crate::judging::{Judged, judge};
use crate::peer::{Got, Peer, PeerFault};
use crate::reading::{Ended, read_up_to};
use dav_core::{DavPath, FsPath};
use dav_io::Octets;
use std::alloc::Global;

// What is kept of a file, and how its visit ended.
#[derive(Drop)]
pub(crate) struct Taken {
    pub(crate) kept: Option<Kept>,
    pub(crate) ended: Result<(), MirrorError>,
}

// It ends here, and what is kept stays.
fn stopped(kept: Option<Kept>, error: MirrorError) -> Taken
    ensures { result ≡ record { kept = kept; ended = Err error } }
{
    Taken {
        kept,
        ended: Err(error),
    }
}

// Why fewer bytes came than were due, if it isn't that the peer failed or memory is refused.
fn short(path: &DavPath, got: usize, announced: u64) -> MirrorError
    ensures { (result ≡ MirrorError.Short path.now got announced) ⊎ (result ≡ MirrorError.NoMemory) }
{
    match path.try_clone() {
        Ok(path) => MirrorError::Short {
            path,
            got: got as u64,
            announced,
        },
        Err(_) => MirrorError::NoMemory,
    }
}

// Reads the bytes that are due of a file, behind those that are kept.
fn read_file<P: Peer>(peer: &mut P, path: &DavPath, file: Kept, due: u64) -> Taken
    ensures reads { ReadsFile path.now file due (P.state peer.old) result (P.state peer.new) }
    ensures counts { Counts 0 (is_peer_failure result.ended) (P.calls peer.old) (P.calls peer.new) }
    ensures loan { P.loan peer.new ≡ P.loan peer.old }
    ensures since { (s : DiskState) → P.since peer.old s → P.since peer.new s }
{
    let Kept {
        path: names,
        tag,
        len,
        bytes,
    } = file;
    let mut bytes = bytes.into_vec();
    let before = bytes.len();
    let ended = match read_up_to(peer, due, &mut bytes) {
        Ended::Full => Ok(()),
        Ended::Over => Err(short(path, bytes.len() - before, due)),
        Ended::Failed => Err(MirrorError::Peer),
        Ended::NoMemory => Err(MirrorError::NoMemory),
    };
    let bytes = Octets::new(bytes);
    let kept = Some(Kept {
        path: names,
        tag,
        len,
        bytes,
    });
    Taken { kept, ended }
}

// The error of this path, or want of memory.
fn refused(path: &DavPath, status: u16) -> MirrorError
    ensures { (result ≡ MirrorError.Refused path.now status) ⊎ (result ≡ MirrorError.NoMemory) }
{
    match path.try_clone() {
        Ok(path) => MirrorError::Refused { path, status },
        Err(_) => MirrorError::NoMemory,
    }
}

fn spoiled(path: &DavPath) -> MirrorError
    ensures { (result ≡ MirrorError.BadReply path.now) ⊎ (result ≡ MirrorError.NoMemory) }
{
    match path.try_clone() {
        Ok(path) => MirrorError::BadReply { path },
        Err(_) => MirrorError::NoMemory,
    }
}

// The file is asked for, and what its answer gives is kept.
fn ask_file<P: Peer>(alloc: Global, peer: &mut P, path: &DavPath, kept: Option<Kept>) -> Taken
    requires path { path.now ≡ file_path path.now.names }
    requires is { IsPath path.now }
    requires link { link_is_short path.now }
    requires kept { ForSome kept IsKept }
    ensures asks { AsksFile path.now.names kept (P.state peer.old) result (P.state peer.new) }
    ensures counts { Counts 1 (is_peer_failure result.ended) (P.calls peer.old) (P.calls peer.new) }
    ensures loan { P.loan peer.new ≡ P.loan peer.old }
    ensures since { (s : DiskState) → P.since peer.old s → P.since peer.new s }
{
    let Ok(fields) = fields_for(alloc, &kept) else {
        return stopped(kept, MirrorError::NoMemory);
    };
    let got = match peer.get(path, &fields) {
        Ok(got) => got,
        Err(PeerFault::Failed) => return stopped(kept, MirrorError::Peer),
        Err(PeerFault::NoMemory) => return stopped(kept, MirrorError::NoMemory),
    };
    match judge(alloc, path.names(), kept, &got) {
        Judged::Gives { file, due } => read_file(peer, path, file, due),
        Judged::Keeps(kept) => Taken {
            kept,
            ended: Ok(()),
        },
        Judged::Refuses(kept) => stopped(kept, refused(path, got.status)),
        Judged::Spoils(kept) => stopped(kept, spoiled(path)),
        Judged::NoMemory(kept) => stopped(kept, MirrorError::NoMemory),
    }
}

// The file at a path is asked for, where it may be.
pub(crate) fn take_file<P: Peer>(
    alloc: Global,
    peer: &mut P,
    names: &FsPath,
    kept: Option<Kept>,
    made: u64,
    most: u64,
) -> Taken
    requires names { 0 < length names.now }
    requires made { made ≤ most }
    requires kept { ForSome kept IsKept }
    ensures takes { TakesFile names.now kept made most (P.state peer.old) result (P.state peer.new) }
    ensures counts { Counts 1 (is_peer_failure result.ended) (P.calls peer.old) (P.calls peer.new) }
    ensures few { Counts (most - made) (is_peer_failure result.ended) (P.calls peer.old) (P.calls peer.new) }
    ensures loan { P.loan peer.new ≡ P.loan peer.old }
    ensures since { (s : DiskState) → P.since peer.old s → P.since peer.new s }
{
    let Ok(path) = file_of(alloc, names) else {
        return stopped(kept, MirrorError::NoMemory);
    };
    match may_ask(&path, made, most) {
        Ok(()) => ask_file(alloc, peer, &path, kept),
        Err(error) => stopped(kept, error),
    }
}
