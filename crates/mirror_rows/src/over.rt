//! Fetches from a player over a disk in memory, one after the other into one copy.
ghost use Rattle.dav_fetch.specs.Copy.{IsCopy};

use crate::disks::disk_of;
use crate::noted::Noted;
use crate::ready::fails;
use crate::told::{tell_copy, tell_end};
use dav_disk::MemDisk;
use dav_fetch::{Copied, fetch};
use dav_handler::{LocalFs, Player, Settings};
use dav_io::NoMemory;
use dav_memory::Forget;
use dav_mirror::PlayPeer;
use dav_rows::{Line, word};
use std::alloc::Global;

// A peer that notes what it is asked for, over a player of the disk that reads so many bytes at once.
fn peer_over(
    alloc: Global,
    disk: &mut MemDisk,
    buffer: usize,
) -> Noted<PlayPeer<&mut MemDisk, Forget>> {
    let mut settings = Settings::defaults(alloc);
    settings.autoindex = Some(true);
    if buffer > 0 {
        settings.read_buf_size = Some(buffer);
    }
    let store = LocalFs::new(disk, Forget, false, false, false);
    Noted::new(
        alloc,
        PlayPeer::new(alloc, Player::over(alloc, settings, store)),
    )
}

// What stands on the disk is fetched into the copy, and told.
fn fetched(
    alloc: Global,
    line: &mut Line,
    disk: &mut MemDisk,
    copy: &mut Copied,
    buffer: usize,
    most: u64,
)
    requires { IsCopy copy.old }
    ensures { IsCopy copy.new }
{
    let mut peer = peer_over(alloc, &mut *disk, buffer);
    let ended = fetch(alloc, &mut peer, copy, most);
    line.add(peer.asked());
    let mut memory = None;
    let _ = peer.into_peer().into_player().into_disk(&mut memory);
    tell_end(line, ended);
    tell_copy(line, copy);
}

fn try_answer(alloc: Global, line: &mut Line, row: &str) -> Result<(), NoMemory> {
    let buffer = word(row, 1).parse::<usize>().unwrap_or(0);
    let failing = fails(alloc, word(row, 4))?;
    let mut disk = disk_of(alloc, word(row, 2), word(row, 3), &failing)?;
    let mut copy = Copied::empty(alloc);
    let first = word(row, 5).parse::<u64>().unwrap_or(0);
    fetched(alloc, line, &mut disk, &mut copy, buffer, first);
    if let Ok(second) = word(row, 6).parse::<u64>() {
        line.add(" then ");
        fetched(alloc, line, &mut disk, &mut copy, buffer, second);
    }
    Ok(())
}

/// Answers a row `over BUFFER TREE TURNS FAILS MOST [MOST]`.
pub fn answer_over(alloc: Global, line: &mut Line, row: &str) {
    if try_answer(alloc, line, row).is_err() {
        line.refuse();
    }
}
