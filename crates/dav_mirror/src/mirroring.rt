// A tree is fetched from a player over a disk, and what was fetched is listed.
ghost use Rattle.std.specs.Prelude.{◌≡◌};
ghost use Rattle.dav_handler.specs.Player.{playing_of};
ghost use Rattle.dav_mirror.specs.Came.{CameBy, file_of};
ghost use Rattle.dav_mirror.specs.Lines.{lines_of};
ghost use Rattle.dav_mirror.specs.Mirrors.{Mirrors, Writes, peer_at, status_of as the_status_of};
ghost use Rattle.dav_mirror.specs.Playing.{calls_of, peer_of};

use crate::lines::text_of;
use crate::play_peer::PlayPeer;
use crate::report::{Report, ended, total_of};
use dav_core::Disk;
use dav_fetch::{Copied, Kept, MirrorError, fetch};
use dav_handler::{LocalFs, Player, Settings};
use dav_io::{NoMemory, Sink, put_all};
use dav_memory::Forget;
use std::alloc::Global;

// How many requests may be made.
const MOST_REQUESTS: u64 = 1_000_000;

// A peer over the disk from its root on: pages are permitted, and nothing else is set.
fn peer_over<D: Disk + Drop>(alloc: Global, disk: D) -> PlayPeer<D, Forget>
    ensures peer { peer_of result ≡ peer_at (D.state disk) }
    ensures calls { calls_of result ≡ record { replies = 0; failures = 0; turns = 0 } }
    ensures loan { D.loan result.player.store.disk ≡ D.loan disk }
    ensures since { CameBy (D.state disk) result.turns (file_of result.body (playing_of result.player)) (D.state result.player.store.disk) }
{
    let mut settings = Settings::defaults(alloc);
    settings.autoindex = Some(true);
    let store = LocalFs::new(disk, Forget, false, false, false);
    PlayPeer::new(alloc, Player::over(alloc, settings, store))
}

// Writes a line for each file: status 0, or 4 where the sink failed.
fn write_lines<K: Sink>(alloc: Global, files: &[Kept], sink: &mut K) -> Result<u8, NoMemory>
    ensures { Writes (lines_of files.now) (K.stream sink.old) result (K.stream sink.new) }
{
    let text = text_of(alloc, files)?;
    match put_all(sink, text.as_bytes()) {
        Ok(()) => Ok(0),
        Err(_) => Ok(4),
    }
}

// The status of an error: 5 where the disk failed. Where memory was refused there is none.
fn status_of(error: &MirrorError) -> Result<u8, NoMemory>
    ensures { result ≡ the_status_of error.now }
{
    match error {
        MirrorError::Peer => Ok(5),
        MirrorError::NoMemory => Err(NoMemory),
        MirrorError::Refused { .. }
        | MirrorError::NotAPage { .. }
        | MirrorError::BadReply { .. }
        | MirrorError::Short { .. }
        | MirrorError::TooLong { .. }
        | MirrorError::Budget { .. } => Ok(8),
    }
}

/// Fetches the tree of a disk, as a client of a server over it would, by at most 1,000,000 requests, and writes a line
/// for each file in the order of their paths: its length, a space, its link and a line feed. Files and directories whose
/// names begin with a dot are left out, as no page names them.
///
/// The status is 0 where all was fetched and written, and 4 where the sink failed behind the fetch. It is 5 where the
/// disk failed in a body, and 8 where what was answered can't be gone on with, as where there is no directory, a page or
/// a link is too long, or more requests were due; then nothing is written. What the fetch came to is reported: how many
/// files and bytes, or why it ended, and at which path.
pub fn mirror<D: Disk, K: Sink>(
    alloc: Global,
    disk: &mut D,
    sink: &mut K,
    report: &mut Option<Report>,
) -> Result<u8, NoMemory>
    ensures { Mirrors (D.state disk.old) (D.state disk.new) (K.stream sink.old) result (K.stream sink.new) report.new }
{
    let mut peer = peer_over(alloc, &mut *disk);
    let mut copy = Copied::empty(alloc);
    let answer = fetch(alloc, &mut peer, &mut copy, MOST_REQUESTS);
    let mut memory = None;
    let mut last = None;
    let _ = peer.into_parts(&mut last).into_disk(&mut memory);
    match answer {
        Ok(()) => {
            let files = copy.files.as_slice();
            *report = Some(Report::Fetched {
                files: files.len() as u64,
                bytes: total_of(files),
            });
            write_lines(alloc, files, sink)
        }
        Err(error) => {
            let status = status_of(&error);
            *report = Some(ended(error, last));
            status
        }
    }
}
