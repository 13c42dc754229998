//! Disks that meet: each waits at its first look at a path, or its first opening there, until all of them came there.
ghost use Rattle.std.specs.Prelude.{◌≡◌, refl};
ghost use Rattle.dav_core.specs.Disk.{Closes, FileMetas, LinkMetas, Metas, Opens, Reads, Seeks, Turns};
ghost use Rattle.dav_core.specs.Listing.{EndsListing, Lists, ListsOn};
ghost use Rattle.dav_core.specs.Writing.{Copies, CreatesDir, RemovesDir, RemovesFile, Renames, Writes};
ghost use Rattle.session_rows.specs.Untold.{never_told, untold};
ghost use Rattle.dav_core.proofs.Untold.{untold_live};

use dav_core::{Disk, DiskError, FsPath, Handle, Lister, Meta, OpenOptions};
use dav_io::{NoMemory, Text};
use std::alloc::Global;
use std::sync::atomic::{AtomicU64, Ordering};
use std::thread::yield_now;

// How often a disk looks for the others before it goes on without them. It is some tenths of a second where nothing else
// runs, and a row whose disks do not meet waits so long once.
const TURNS: u64 = 200_000;

/// At which of its calls a disk waits.
#[derive(Clone, Copy, PartialEq, Eq)]
pub enum Call {
    Look,
    Opening,
}

/// Where disks wait for each other: the call and its path, how many of them came there, and how many there are.
#[derive(Drop)]
pub struct Meeting {
    call: Call,
    path: FsPath,
    here: AtomicU64,
    all: u64,
}

impl Meeting {
    /// Of so many disks, none of which came.
    pub fn new(call: Call, path: FsPath, all: u64) -> Self {
        Meeting {
            call,
            path,
            here: AtomicU64::new(0),
            all,
        }
    }

    // Counts a disk, and waits for the others. It answers whether all came. Where they didn't, those that come later
    // don't wait.
    fn come(&self) -> bool {
        self.here.fetch_add(1, Ordering::SeqCst);
        for _ in 0..TURNS {
            if self.here.load(Ordering::SeqCst) >= self.all {
                return true;
            }
            yield_now();
        }
        self.here.fetch_add(self.all, Ordering::SeqCst);
        false
    }
}

/// A disk over another. At the first call of its meeting it waits until all disks of the meeting came there. Of its world
/// it tells nothing.
#[derive(Drop)]
pub struct MeetingDisk<'a, D> {
    meeting: &'a Meeting,
    disk: D,
    // Whether all came, once it did.
    met: Option<bool>,
}

impl<'a, D> MeetingDisk<'a, D> {
    /// It didn't come yet.
    pub fn new(meeting: &'a Meeting, disk: D) -> Self {
        MeetingDisk {
            meeting,
            disk,
            met: None,
        }
    }

    /// The disk that it is over.
    pub fn disk(&self) -> &D {
        &self.disk
    }

    /// Whether it came, and all others too.
    pub fn has_met(&self) -> bool {
        self.met == Some(true)
    }

    // Waits for the others at the first such call at the path.
    fn wait(&mut self, call: Call, path: &FsPath)
        ensures { self.new.disk ≡ self.old.disk }
    {
        if self.met.is_none() && call == self.meeting.call && *path == self.meeting.path {
            self.met = Some(self.meeting.come());
        }
    }
}

impl<'a, D: Disk> Disk for MeetingDisk<'a, D> {
    ghost state = { λ d. untold (D.state d.disk) };

    #[tactic(auto, using(crate::proofs::Untold::untold_metas))]
    fn meta(&mut self, path: &FsPath) -> Result<Meta, DiskError> {
        self.wait(Call::Look, path);
        self.disk.meta(path)
    }

    #[tactic(auto, using(crate::proofs::Untold::untold_metas))]
    fn link_meta(&mut self, path: &FsPath) -> Result<Meta, DiskError> {
        self.disk.link_meta(path)
    }

    #[tactic(auto, using(crate::proofs::Untold::untold_opens))]
    fn open(&mut self, path: &FsPath, how: OpenOptions, public: bool) -> Result<Handle, DiskError> {
        self.wait(Call::Opening, path);
        self.disk.open(path, how, public)
    }

    #[tactic(auto, using(crate::proofs::Untold::untold_file_metas))]
    fn file_meta(&mut self, file: Handle) -> Result<Meta, DiskError> {
        self.disk.file_meta(file)
    }

    #[tactic(auto, using(crate::proofs::Untold::untold_seeks))]
    fn seek(&mut self, file: Handle, place: u64) -> Result<(), DiskError> {
        self.disk.seek(file, place)
    }

    #[tactic(auto, using(crate::proofs::Untold::untold_reads))]
    fn read(&mut self, file: Handle, into: &mut [u8]) -> Result<usize, DiskError> {
        self.disk.read(file, into)
    }

    #[tactic(auto, using(crate::proofs::Untold::untold_writes))]
    fn write(&mut self, file: Handle, from: &[u8]) -> Result<usize, DiskError> {
        self.disk.write(file, from)
    }

    #[tactic(auto, using(crate::proofs::Untold::untold_closes))]
    fn close(&mut self, file: Handle) {
        self.disk.close(file);
    }

    #[tactic(auto, using(crate::proofs::Untold::untold_lists))]
    fn list(&mut self, path: &FsPath) -> Result<Lister, DiskError> {
        self.disk.list(path)
    }

    #[tactic(auto, using(crate::proofs::Untold::untold_lists_on))]
    fn list_next(&mut self, alloc: Global, at: Lister) -> Result<Option<Text>, DiskError> {
        self.disk.list_next(alloc, at)
    }

    #[tactic(auto, using(crate::proofs::Untold::untold_ends))]
    fn end_list(&mut self, at: Lister) {
        self.disk.end_list(at);
    }

    #[tactic(auto, using(crate::proofs::Untold::untold_does))]
    fn create_dir(&mut self, path: &FsPath, public: bool) -> Result<(), DiskError> {
        self.disk.create_dir(path, public)
    }

    #[tactic(auto, using(crate::proofs::Untold::untold_does))]
    fn remove_dir(&mut self, path: &FsPath) -> Result<(), DiskError> {
        self.disk.remove_dir(path)
    }

    #[tactic(auto, using(crate::proofs::Untold::untold_does))]
    fn remove_file(&mut self, path: &FsPath) -> Result<(), DiskError> {
        self.disk.remove_file(path)
    }

    #[tactic(auto, using(crate::proofs::Untold::untold_does))]
    fn rename(&mut self, from: &FsPath, to: &FsPath) -> Result<(), DiskError> {
        self.disk.rename(from, to)
    }

    #[tactic(auto, using(crate::proofs::Untold::untold_does))]
    fn copy(&mut self, from: &FsPath, to: &FsPath) -> Result<(), DiskError> {
        self.disk.copy(from, to)
    }

    #[tactic(auto, using(crate::proofs::Untold::untold_turns))]
    fn turn(&mut self) -> Result<(), NoMemory> {
        self.disk.turn()
    }

    ghost world = { λ d w told. never_told w told };

    ghost tells_live = { λ d. untold_live (untold (D.state d.disk)) refl };
}
