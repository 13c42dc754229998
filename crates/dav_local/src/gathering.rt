ghost use Rattle.std.specs.Prelude.{◌≡◌, ◌<◌, ℕ, Option, Err, None, Ok, OnErr, IfOk, Result, Some};
ghost use Rattle.dav_io.specs.declared.clock.Moment.{Moment};
ghost use Rattle.dav_core.specs.declared.error.FsError.{FsError};
ghost use Rattle.dav_core.specs.Unchanged.{Keeps};
ghost use Rattle.dav_memory.specs.Builder.{Starts};
ghost use Rattle.dav_store.specs.Listings.{GoesOn, HasLister, ListsOne, Nearer};
ghost use Rattle.dav_local.specs.Gathering.{AfterNext, BeginsDir, GivesNext, dir_to_come, gathers as the_gathers};
ghost use Rattle.dav_local.specs.Places.{Place, Stays, place_of};

use crate::listing::{Reading, begin, next};
use crate::{LocalFs, LocalFsDirEntry};
use dav_core::{Disk, FsError, FsPath, Lister};
use dav_io::NoMemory;
use dav_memory::{DUCacheBuilder, Remember};
use dav_store::ReadDirMeta;

/// A listing of a local store. Names are read in batches of at most 256, with their metadata where it is asked for, and
/// a fault ends it. Where the rules for macOS hold, it gathers the names that begin with `._`, and the store's memory
/// is sealed with them at its end.
#[derive(Drop)]
pub struct LocalFsReadDir {
    reading: Reading,
    builder: Option<DUCacheBuilder>,
}

// Whether a listing gathers names. One that is read before a removal or a copy doesn't: what it lists is about to
// change.
fn gathers(macos: bool, wanted: ReadDirMeta) -> bool
    ensures { result ≡ the_gathers macos wanted }
{
    match wanted {
        ReadDirMeta::Data | ReadDirMeta::None => macos,
        ReadDirMeta::DataSymlink => false,
    }
}

// Begins to gather the names of the directory at a path.
fn gather_at<D: Disk>(disk: &mut D, path: &FsPath) -> Result<DUCacheBuilder, NoMemory>
    ensures done { IfOk result (λ b. Starts (D.state disk.old) path.now b (D.state disk.new)) }
    ensures starved { OnErr result (disk.new ≡ disk.old) }
    ensures loan { D.loan disk.new ≡ D.loan disk.old }
{
    let dir = path.try_clone()?;
    Ok(DUCacheBuilder::start(path.allocator(), dir, disk))
}

// Begins a listing of the directory at a path.
pub fn begin_dir<D: Disk>(
    disk: &mut D,
    path: FsPath,
    wanted: ReadDirMeta,
    macos: bool,
) -> Result<LocalFsReadDir, FsError>
    ensures done { BeginsDir (the_gathers macos wanted) path wanted (D.state disk.old) result (D.state disk.new) }
    ensures one { ListsOne (λ d. Some d.reading.lister.0) (D.state disk.old) result (D.state disk.new) }
    ensures loan { D.loan disk.new ≡ D.loan disk.old }
{
    if !gathers(macos, wanted) {
        return match begin(disk, path, wanted) {
            Ok(reading) => Ok(LocalFsReadDir {
                reading,
                builder: None,
            }),
            Err(error) => Err(error),
        };
    }
    let Ok(builder) = gather_at(disk, &path) else {
        return Err(FsError::NoMemory);
    };
    match begin(disk, path, wanted) {
        Ok(reading) => Ok(LocalFsReadDir {
            reading,
            builder: Some(builder),
        }),
        Err(error) => Err(error),
    }
}

impl LocalFsReadDir {
    // The disk's lister.
    pub(crate) fn lister(&self) -> Lister
        ensures { result ≡ self.now.reading.lister }
    {
        self.reading.lister()
    }

    // Gathers the name of an entry, where names are gathered.
    fn gather(&mut self, entry: LocalFsDirEntry) -> Result<Option<LocalFsDirEntry>, FsError>
        ensures done { (now : Moment) (p : Place)
            → AfterNext self.old.builder (Ok (Some entry)) now p self.old result p self.new }
        ensures nearer { (left : Option ℕ) (before : ℕ) → dir_to_come self.old left < before
            → Nearer before result (dir_to_come self.new left) }
        ensures lister { self.new.reading.lister ≡ self.old.reading.lister }
    {
        let Some(builder) = &mut self.builder else {
            return Ok(Some(entry));
        };
        match builder.add(entry.text()) {
            Ok(()) => Ok(Some(entry)),
            Err(NoMemory) => {
                self.reading.stop();
                Err(FsError::NoMemory)
            }
        }
    }

    // Notes that the listing was refused something.
    fn fault(&mut self)
        ensures done { (now : Moment) (p : Place) (e : FsError)
            → AfterNext self.old.builder (Err e) now p self.old (Err e) p self.new }
        ensures reading { self.new.reading ≡ self.old.reading }
    {
        if let Some(builder) = &mut self.builder {
            builder.fault();
        }
    }
}

// Ends what a listing gathered, where it did: the memory is sealed with it.
fn finish<D: Disk, R: Remember>(
    fs: &mut LocalFs<D, R>,
    dir: &mut LocalFsReadDir,
) -> Result<Option<LocalFsDirEntry>, FsError>
    ensures done { AfterNext dir.old.builder (Ok None) fs.old.moment (place_of D.state R.state fs.old) dir.old result
        (place_of D.state R.state fs.new) dir.new }
    ensures keeps { Keeps (D.state fs.old.disk) (D.state fs.new.disk) }
    ensures lister { dir.new.reading ≡ dir.old.reading }
    ensures stays { Stays fs.old fs.new }
    ensures loan { D.loan fs.new.disk ≡ D.loan fs.old.disk }
{
    let Some(builder) = &mut dir.builder else {
        return Ok(None);
    };
    match builder.finish(&mut fs.disk, &mut fs.memory, fs.moment) {
        Ok(()) => Ok(None),
        Err(NoMemory) => Err(FsError::NoMemory),
    }
}

// The next entry.
pub fn next_in<D: Disk, R: Remember>(
    fs: &mut LocalFs<D, R>,
    dir: &mut LocalFsReadDir,
) -> Result<Option<LocalFsDirEntry>, FsError>
    requires { HasLister (D.state fs.old.disk) (Some dir.old.reading.lister.0) }
    ensures done { GivesNext fs.old.moment (place_of D.state R.state fs.old) dir.old result
        (place_of D.state R.state fs.new) dir.new }
    ensures goes_on { GoesOn (D.state fs.old.disk) (Some dir.old.reading.lister.0) (D.state fs.new.disk) }
    ensures nearer { Nearer (dir_to_come dir.old ((D.state fs.old.disk).listers dir.old.reading.lister.0)) result
        (dir_to_come dir.new ((D.state fs.new.disk).listers dir.new.reading.lister.0)) }
    ensures lister { dir.new.reading.lister ≡ dir.old.reading.lister }
    ensures stays { Stays fs.old fs.new }
    ensures loan { D.loan fs.new.disk ≡ D.loan fs.old.disk }
{
    match next(&mut fs.disk, &mut dir.reading) {
        Ok(Some(entry)) => dir.gather(entry),
        Ok(None) => finish(fs, dir),
        Err(error) => {
            dir.fault();
            Err(error)
        }
    }
}
