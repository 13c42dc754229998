ghost use Rattle.std.specs.Prelude.{◌≡◌, ℕ, List, Ok, Result, Some};
ghost use Rattle.dav_core.specs.declared.error.FsError.{FsError};
ghost use Rattle.dav_core.specs.DavPath.{WebPath};
ghost use Rattle.dav_core.specs.declared.member.Member.{Member};
ghost use Rattle.dav_core.specs.declared.tree.Kind.TheVariants.{File};
ghost use Rattle.dav_core.specs.Disk.{DiskState};
ghost use Rattle.dav_core.specs.World.{Holds, World, bytes_of};
ghost use Rattle.dav_core.specs.Writing.{reading};
ghost use Rattle.dav_store.specs.Leads.{LeadsOn};
ghost use Rattle.dav_store.specs.Members.{ShowsMembers};
ghost use Rattle.dav_store.specs.Shows.{Shows};
ghost use Rattle.dav_store.specs.Standing.{Seen, Standing};
ghost use Rattle.dav_local.specs.LocalFiles.{local_file};
ghost use Rattle.dav_local.specs.declared.fs.LocalFs.{LocalFs as Store};
ghost use Rattle.dav_readcache.specs.declared.cached.CachedFile.{CachedFile as Held};
ghost use Rattle.dav_readcache.specs.declared.cached.Content.{Content};
ghost use Rattle.dav_readcache.specs.declared.store.ReadCache.{ReadCache as Cache};
ghost use Rattle.dav_readcache.specs.Cached.{Steps, cached_file, content_of, read_at, shown};
ghost use Rattle.dav_readcache.specs.Sound.{AreFaithful, AreFilesTold, AreSound, AreSoundIn, In, IsFileIn, IsHeldSound, IsSound, IsSoundIn, IsWorldThere, OpensTold, tag_in};
ghost use Rattle.dav_readcache.specs.Store.{cache_listings, cache_view};

use crate::{CachedFile, ReadCache};
use dav_core::Disk;
use dav_local::LocalFs;
use dav_memory::Remember;
use dav_store::{DavFile, DavFileSystem, GuardedFileSystem};

/// A file is shown as it stands where the content that is held is sound.
pub fn sound_contents_show()
    ensures { (w : World) (c : Content) (there : Standing) → IsSoundIn w c.tag c.bytes → IsFileIn w there
        → shown (Some c) there ≡ there }
{}

/// Where tags are faithful, what was read whole of a file is sound for its tag, in all worlds.
pub fn whole_reads_are_sound()
    ensures { (trail : List World) (v : World) (number : ℕ) (tag : List ℕ) → AreFaithful trail → In v trail
        → Holds v number → tag_in v number ≡ Some tag → IsSound trail tag (bytes_of v number) }
{}

/// Where the entries are sound in the world that the disk tells, the cache shows what the store inside shows.
pub fn sound_caches_show<S: GuardedFileSystem<C>, C>(_cache: &ReadCache<S, C>, _credentials: &C)
    ensures { (w : World) (path : WebPath) (looked opened : Result Standing FsError)
        → AreFilesTold S.view.file → IsWorldThere S.view _cache.now.store _credentials.now path w
        → AreSoundIn w _cache.now.shelf.entries
        → Shows S.view _cache.now.store _credentials.now path looked opened
        → Shows (cache_view S.view) _cache.now _credentials.now path looked opened }
{}

/// Where tags are faithful, the entries stay sound in all worlds of the trail: what an opening adds was read whole.
pub fn entries_stay_sound<S: GuardedFileSystem<C>, C>(_cache: &ReadCache<S, C>, _credentials: &C)
    ensures { (trail : List World) (w : World) (path : WebPath) (o : Result (Held S.File) FsError)
        (t : Cache S C) → AreFaithful trail → In w trail → AreFilesTold S.view.file
        → OpensTold S.view _cache.now.store _credentials.now path w → AreSound trail _cache.now.shelf.entries
        → (cache_view S.view).opens _cache.now _credentials.now path reading o t → AreSound trail t.shelf.entries }
{}

/// Where tags are faithful, what a file holds that was opened is sound in all worlds of the trail.
pub fn held_contents_are_sound<S: GuardedFileSystem<C>, C>(
    _cache: &ReadCache<S, C>,
    _credentials: &C,
)
    ensures { (trail : List World) (w : World) (path : WebPath) (file : Held S.File) (t : Cache S C)
        → AreFaithful trail → In w trail → AreFilesTold S.view.file
        → OpensTold S.view _cache.now.store _credentials.now path w → AreSound trail _cache.now.shelf.entries
        → (cache_view S.view).opens _cache.now _credentials.now path reading (Ok file) t
        → IsHeldSound (IsSound trail) (content_of file) }
{}

/// What a file holds after a read it held before. So what is sound stays so.
pub fn reads_leave_contents<D: Disk, F: DavFile<D>>(_file: &CachedFile<F>)
    ensures { (s : DiskState) (buffer : List ℕ) (result : Result ℕ FsError) (t : DiskState) (after : Held F)
        (c : Content) → Steps F.view (read_at _file.now s) buffer result (read_at after t)
        → content_of after ≡ Some c → content_of _file.now ≡ Some c }
{}

/// What a file holds after calls of its own, whichever and however many, it held before. So what is sound stays so.
pub fn calls_leave_contents<D: Disk, F: DavFile<D>>(_file: &CachedFile<F>)
    ensures { (after : Held F) (c : Content) → (cached_file F.view).becomes _file.now after
        → content_of after ≡ Some c → content_of _file.now ≡ Some c }
{}

/// An open regular file whose content is sound in the world that the disk tells is shown as it stands there.
pub fn sound_files_stand<D: Disk, F: DavFile<D>>(_file: &CachedFile<F>)
    ensures { (s : DiskState) (w : World) (f : Seen) → AreFilesTold F.view → s.told ≡ Some w
        → IsHeldSound (IsSoundIn w) (content_of _file.now) → F.view.seen _file.now.file s ≡ Some f
        → f.stands.kind ≡ File
        → (g : Seen) × ((cached_file F.view).seen _file.now s ≡ Some g) × (g.stands ≡ f.stands)
        × IsFileIn w f.stands }
{}

/// The members of a directory that the store inside shows the cache shows.
pub fn caches_show_members<S: GuardedFileSystem<C>, C>(_cache: &ReadCache<S, C>, _credentials: &C)
    ensures { (path : WebPath) (found : Result (List Member) FsError)
        → ShowsMembers S.view S.listings _cache.now.store _credentials.now path found
        → ShowsMembers (cache_view S.view) (cache_listings S.listings) _cache.now _credentials.now path found }
{}

/// Where tags are faithful, a reader's calls leave the entries sound in all worlds of the trail, over a store of which
/// what is opened is told.
pub fn reads_leave_entries_sound<S: GuardedFileSystem<C>, C>(
    _cache: &ReadCache<S, C>,
    _credentials: &C,
)
    ensures { (trail : List World) (w : World) (t : Cache S C) → AreFaithful trail → In w trail
        → AreFilesTold S.view.file
        → ((m : S) (v : World) (path : WebPath) → (S.view.state m).told ≡ Some v
        → OpensTold S.view m _credentials.now path v)
        → (S.view.state _cache.now.store).told ≡ Some w → AreSound trail _cache.now.shelf.entries
        → LeadsOn (cache_view S.view) (cache_listings S.listings) _credentials.now _cache.now t
        → AreSound trail t.shelf.entries }
{}

/// An open regular file of a local store is shown as the world has it that the disk tells.
pub fn local_files_are_told()
    ensures { AreFilesTold local_file }
{}

/// The disk of a local store tells the same world after looks and openings for reading, but for what is open, and what is
/// opened is told, at its first byte.
pub fn local_worlds_stay<D: Disk, R: Remember>(_fs: &LocalFs<D, R>)
    ensures there { (s : Store D R) (w : World) (path : WebPath) → (D.state s.disk).told ≡ Some w
        → IsWorldThere ⟦<LocalFs<D, R> as DavFileSystem>⟧.view s tt path w }
    ensures opened { (s : Store D R) (w : World) (path : WebPath) → (D.state s.disk).told ≡ Some w
        → OpensTold ⟦<LocalFs<D, R> as DavFileSystem>⟧.view s tt path w }
{}
