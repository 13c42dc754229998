//! A tree is fetched: its pages first, then its files.
ghost use Rattle.std.specs.Prelude.{◌≡◌, ◌-◌, ◌<◌, ◌≤◌, [], drop, length, vec_capacity, IfOk};
ghost use Rattle.std.specs.List.{AllByRecursion};
ghost use Rattle.dav_core.specs.Disk.{DiskState};
ghost use Rattle.dav_fetch.specs.Copy.{IsCopy, IsKept};
ghost use Rattle.dav_fetch.specs.Fetching.{Fetched, IsOrdered, is_peer_failure};
ghost use Rattle.dav_fetch.specs.Keeping.{AreAscending, AreInOrder};
ghost use Rattle.dav_fetch.specs.Gathering.{Gathers};
ghost use Rattle.dav_fetch.specs.Peer.{Counts};

use crate::copied::{Copied, Kept, KeptFiles, Paths};
use crate::error::MirrorError;
use crate::keeping::{keep_rest, next_kept, push_kept};
use crate::ordering::ordered;
use crate::peer::Peer;
use crate::taking::{Taken, take_file};
use crate::walking::{Walked, walk};
use dav_core::FsPath;
use dav_io::NoMemory;
use std::alloc::Global;
use std::mem;

// What is kept of all files, and how the work ended.
#[derive(Drop)]
pub(crate) struct Gathered {
    files: Vec<Kept>,
    ended: Result<(), MirrorError>,
}

// What is to be asked behind the pages, with room for a file at each path.
#[derive(Drop)]
struct Plan {
    dirs: Vec<FsPath>,
    paths: Vec<FsPath>,
    room: Vec<Kept>,
    made: u64,
}

// What the pages name, in order.
fn planned(alloc: Global, walked: Walked) -> Result<Plan, NoMemory>
    ensures dirs { IfOk result (λ p. IsOrdered (drop 1 walked.dirs.items) p.dirs.items) }
    ensures paths { IfOk result (λ p. IsOrdered walked.files.items p.paths.items) }
    ensures room { IfOk result (λ p. (p.room.items ≡ []) × (length p.paths.items ≤ vec_capacity p.room)) }
    ensures made { IfOk result (λ p. p.made ≡ walked.made) }
{
    let Walked {
        mut dirs,
        files,
        made,
    } = walked;
    if !dirs.is_empty() {
        let _root = dirs.remove(0);
    }
    let dirs = ordered(alloc, dirs)?;
    let paths = ordered(alloc, files)?;
    let room = Vec::with_capacity(alloc, paths.len())?;
    Ok(Plan {
        dirs,
        paths,
        room,
        made,
    })
}

// Asks for the files at these paths, in their order, by what is kept of each.
fn gather<P: Peer>(
    alloc: Global,
    peer: &mut P,
    paths: &[FsPath],
    mut old: Vec<Kept>,
    mut files: Vec<Kept>,
    made: u64,
    most: u64,
) -> Gathered
    requires none { files.items ≡ [] }
    requires room { length paths.now ≤ vec_capacity files }
    requires paths { AreAscending paths.now }
    requires named { AllByRecursion (λ path. 0 < length path) paths.now }
    requires order { AreInOrder old.items }
    requires kept { AllByRecursion IsKept old.items }
    requires made { made ≤ most }
    ensures gathers { Gathers old.items paths.now made most (P.state peer.old) result (P.state peer.new) }
    ensures counts { Counts (most - made) (is_peer_failure result.ended) (P.calls peer.old) (P.calls peer.new) }
    ensures loan { P.loan peer.new ≡ P.loan peer.old }
    ensures since { (s : DiskState) → P.since peer.old s → P.since peer.new s }
{
    old.reverse();
    let mut made = made;
    let mut at = 0usize;
    while at < paths.len() {
        let path = &paths[at];
        let kept = next_kept(&mut old, path);
        let Taken { kept, ended } = take_file(alloc, peer, path, kept, made, most);
        push_kept(&mut files, kept);
        at += 1;
        if let Err(error) = ended {
            keep_rest(old, &paths[at..], &mut files);
            return Gathered {
                files,
                ended: Err(error),
            };
        }
        made += 1;
    }
    Gathered {
        files,
        ended: Ok(()),
    }
}

/// Fetches the tree of a peer into a copy, and goes on with what the copy has: at most `most` requests are made.
///
/// The root's page is asked, and then the page of each directory that is found, in the order of finding. Kept files that
/// no page names are dropped. Then each file is asked in order of paths: for the rest, if some of it is kept with a tag;
/// whether it is still the same, if all of it is; else for the whole. A file that came is kept with its tag and length,
/// and with as much of it as came.
///
/// # Errors
///
/// After an error in the pages the copy is unchanged; after one in a file that file has the bytes that came.
pub fn fetch<P: Peer>(
    alloc: Global,
    peer: &mut P,
    copy: &mut Copied,
    most: u64,
) -> Result<(), MirrorError>
    requires { IsCopy copy.old }
    ensures fetched { Fetched (P.state peer.old) copy.old most result (P.state peer.new) copy.new }
    ensures calls { Counts most (is_peer_failure result) (P.calls peer.old) (P.calls peer.new) }
    ensures copy { IsCopy copy.new }
    ensures loan { P.loan peer.new ≡ P.loan peer.old }
    ensures since { (s : DiskState) → P.since peer.old s → P.since peer.new s }
{
    let walked = walk(alloc, peer, most)?;
    let Ok(plan) = planned(alloc, walked) else {
        return Err(MirrorError::NoMemory);
    };
    let Plan {
        dirs,
        paths,
        room,
        made,
    } = plan;
    let old = mem::replace(&mut copy.files, KeptFiles::empty(alloc)).into_vec();
    let Gathered { files, ended } = gather(alloc, peer, &paths, old, room, made, most);
    copy.dirs = Paths::new(dirs);
    copy.files = KeptFiles::new(files);
    ended
}
