//! What a store that holds contents promises GET, HEAD and the bodies of their answers, over a local store.
#![tactic(auto)]

ghost use Rattle.std.specs.Prelude.{◌≡◌, ◌⊎◌, ℕ, IfOk, List, Option, Some, Result, Err, vec_capacity, vec_len};
ghost use Rattle.dav_core.specs.declared.error.FsError.{FsError};
ghost use Rattle.dav_core.specs.declared.member.Member.{Member};
ghost use Rattle.dav_core.specs.declared.tree.Kind.TheVariants.{File};
ghost use Rattle.dav_core.specs.DavPath.{WebPath};
ghost use Rattle.dav_core.specs.Disk.{DiskState};
ghost use Rattle.dav_core.specs.World.{World};
ghost use Rattle.dav_io.specs.Counts.{Rose};
ghost use Rattle.dav_model.specs.Bodies.{Part, Polls as PollsParts};
ghost use Rattle.dav_model.specs.Due.{Query, query};
ghost use Rattle.dav_model.specs.Head.{Reply};
ghost use Rattle.dav_model.specs.Play.{Reads};
ghost use Rattle.dav_store.specs.Standing.{Seen, Standing};
ghost use Rattle.dav_get.specs.declared.open_at.OpenAt.{OpenAt};
ghost use Rattle.dav_get.specs.declared.body.GetBody.{GetBody as Body};
ghost use Rattle.dav_get.specs.Bodies.{HasParts, IsHeld, IsPolled, IsRoom, StandsIn, left_of};
ghost use Rattle.dav_get.specs.Heard.{Heard};
ghost use Rattle.dav_get.specs.Lives.{OpenOnlyHeld};
ghost use Rattle.dav_get.specs.Right.{IsOfNumber, or_zero, reply_at};
ghost use Rattle.dav_get.specs.Table.{Given};
ghost use Rattle.dav_get.specs.Told.{IsRightFor, ShowsFor};
ghost use Rattle.dav_local.specs.LocalFiles.{local_file};
ghost use Rattle.dav_local.specs.Shown.{knowledge_of};
ghost use Rattle.dav_local.specs.Ways.{rules_with};
ghost use Rattle.dav_local.specs.declared.fs.LocalFs.{LocalFs as Store};
ghost use Rattle.dav_local_laws.specs.Simple.{opened, plain_ways};
ghost use Rattle.dav_readcache.specs.declared.cached.CachedFile.{CachedFile as Held};
ghost use Rattle.dav_readcache.specs.declared.store.ReadCache.{ReadCache as Cache};
ghost use Rattle.dav_readcache.specs.Cached.{cached_file, content_of};
ghost use Rattle.dav_readcache.specs.Sound.{AreFaithful, AreFilesTold, AreSound, AreSoundIn, In, IsHeldSound, IsSoundIn, IsWorldThere};
ghost use Rattle.dav_readcache.specs.Store.{cache_listings, cache_view};
ghost use Rattle.dav_readcache_laws.specs.Bodies.{Along, IsFileSound, IsGivenSound};
ghost use Rattle.dav_readcache_laws.specs.Plain.{HasNoLink, listed, looked};

use dav_core::{DavError, DavMethod, DavPath, Disk};
use dav_get::{GetBody, handle_get};
use dav_local::{LocalFs, LocalFsFile};
use dav_memory::Remember;
use dav_model::{Answer, Outcome, Settings};
use dav_readcache::{CachedFile, ReadCache};
use dav_store::{DavFile, DavFileSystem, GuardedFileSystem};
use http::HeaderMap;
use std::alloc::Global;

/// Where the entries are sound in the world that the disk tells, the cache shows all that a GET or HEAD asks for which
/// the store inside shows, over any store: at the path, at the one that is opened, and the members of a directory.
pub fn caches_show_what_is_asked<S: GuardedFileSystem<C>, C>(
    _cache: &ReadCache<S, C>,
    _credentials: &C,
)
    ensures { (w : World) (q : Query) (looked opened : WebPath → Result Standing FsError)
        (listed : WebPath → Result (List Member) FsError) → AreFilesTold S.view.file
        → ((path : WebPath) → IsWorldThere S.view _cache.now.store _credentials.now path w)
        → AreSoundIn w _cache.now.shelf.entries
        → ShowsFor S.view S.listings _cache.now.store _credentials.now q looked opened listed
        → ShowsFor (cache_view S.view) (cache_listings S.listings) _cache.now _credentials.now q looked opened listed }
{}

/// Where the disk tells its world, each path is meant as it is written, and no link stands in the tree, a local store
/// shows all that a GET or HEAD asks for as it stands there, and so does a cache over it whose entries are sound.
pub fn local_stores_show_what_is_asked<D: Disk, R: Remember>(_fs: &LocalFs<D, R>)
    ensures inside { (w : World) (q : Query) → (D.state _fs.now.disk).told ≡ Some w → _fs.now.ways ≡ plain_ways
        → HasNoLink w
        → ShowsFor ⟦<LocalFs<D, R> as DavFileSystem>⟧.view ⟦<LocalFs<D, R> as DavFileSystem>⟧.listings _fs.now tt q
        (looked w) (opened w) (listed w) }
    ensures cached { (w : World) (q : Query) (cache : Cache (Store D R) Unit)
        → (D.state cache.store.disk).told ≡ Some w → cache.store.ways ≡ plain_ways → HasNoLink w
        → AreSoundIn w cache.shelf.entries
        → ShowsFor (cache_view ⟦<LocalFs<D, R> as DavFileSystem>⟧.view)
        (cache_listings ⟦<LocalFs<D, R> as DavFileSystem>⟧.listings) cache tt q (looked w) (opened w) (listed w) }
{}

/// What a GET or HEAD over a local store whose contents are held answers, by what it heard, is right for something that
/// the local store may show by its rules: in every run, whatever is held, also where tags lie.
pub fn reads_over_contents_are_right<D: Disk, R: Remember>(_fs: &LocalFs<D, R>)
    ensures { (s t : Cache (Store D R) Unit) (q : Query) (result : Given (Held LocalFsFile)) (reply : Reply)
        → OpenOnlyHeld (cache_view ⟦<LocalFs<D, R> as DavFileSystem>⟧.view) s result t
        → Heard (cache_view ⟦<LocalFs<D, R> as DavFileSystem>⟧.view)
        (cache_listings ⟦<LocalFs<D, R> as DavFileSystem>⟧.listings) q tt s result t
        → ((number : Option ℕ)
        → IsOfNumber (cache_view ⟦<LocalFs<D, R> as DavFileSystem>⟧.view) number t result
        → reply_at q.fields (or_zero number) result ≡ reply)
        → Reads (rules_with q.settings s.store.ways) (knowledge_of (R.state s.store.memory)) (D.state s.store.disk)
        (D.state t.store.disk) q reply }
{}

/// A GET or HEAD over a local store whose contents are held. Where the disk tells its world and the entries are sound in
/// it, the answer is right for what the local store shows (`right`). In every run, whatever is held, its head is right
/// for something that the local store may show by its rules (`reads`). Where tags are faithful the entries stay sound in
/// all worlds of the trail (`sound`), and so is what the body's file holds (`body`). So, whatever polls are made of the
/// body, and whatever others do between them, it stands in each world of the trail that the disk tells then (`polls`),
/// and its next piece is right, as `StandsIn` is all that a poll wants.
pub fn get_over_contents<D: Disk, R: Remember>(
    alloc: Global,
    settings: &Settings,
    fs: &mut ReadCache<LocalFs<D, R>, ()>,
    method: DavMethod,
    path: &DavPath,
    fields: &HeaderMap,
) -> Result<(Outcome, GetBody<CachedFile<LocalFsFile>>), DavError>
    ensures right { (w : World) (looked opened : WebPath → Result Standing FsError)
        (listed : WebPath → Result (List Member) FsError) → (D.state fs.old.store.disk).told ≡ Some w
        → AreSoundIn w fs.old.shelf.entries
        → ShowsFor ⟦<LocalFs<D, R> as DavFileSystem>⟧.view ⟦<LocalFs<D, R> as DavFileSystem>⟧.listings fs.old.store tt
        (query settings.now fields.now method path.now) looked opened listed
        → (result ≡ Err DavError.NoMemory) ⊎ IsRightFor (cache_view ⟦<LocalFs<D, R> as DavFileSystem>⟧.view)
        (query settings.now fields.now method path.now) looked opened listed fs.old result fs.new }
    ensures reads { (reply : Reply) → ((number : Option ℕ)
        → IsOfNumber (cache_view ⟦<LocalFs<D, R> as DavFileSystem>⟧.view) number fs.new result
        → reply_at fields.now (or_zero number) result ≡ reply)
        → (result ≡ Err DavError.NoMemory) ⊎ Reads (rules_with settings.now fs.old.store.ways)
        (knowledge_of (R.state fs.old.store.memory)) (D.state fs.old.store.disk) (D.state fs.new.store.disk)
        (query settings.now fields.now method path.now) reply }
    ensures sound { (trail : List World) (w : World) → (D.state fs.old.store.disk).told ≡ Some w → In w trail
        → AreFaithful trail → AreSound trail fs.old.shelf.entries → AreSound trail fs.new.shelf.entries }
    ensures body { (trail : List World) (w : World) → (D.state fs.old.store.disk).told ≡ Some w → In w trail
        → AreFaithful trail → AreSound trail fs.old.shelf.entries → IsGivenSound trail result }
    ensures polls { (trail : List World) (w : World) → (D.state fs.old.store.disk).told ≡ Some w → In w trail
        → AreFaithful trail → AreSound trail fs.old.shelf.entries → IfOk result (λ r. (d : D)
        (c : Body (Held LocalFsFile)) (v : World)
        → Along (cached_file local_file) (D.state fs.new.store.disk) r.1 (D.state d) c → (D.state d).told ≡ Some v
        → In v trail → StandsIn (cached_file local_file).seen (D.state d) (Some v) c.file) }
    ensures life { OpenOnlyHeld (cache_view ⟦<LocalFs<D, R> as DavFileSystem>⟧.view) fs.old result fs.new }
{
    handle_get(alloc, settings, fs, &(), method, path, fields)
}

/// A poll of a body over a local store whose contents are held, as `GetBody::take_piece` makes it. Where the disk tells
/// a world of the trail and what the body's file holds is sound for the trail, the answer is right for that world
/// (`right`). What the file holds stays sound (`sound`).
pub fn poll_over_contents<D: Disk>(
    body: &mut GetBody<CachedFile<LocalFsFile>>,
    disk: &mut D,
    room: Vec<u8>,
) -> Answer
    requires held { IsHeld (cached_file local_file) (D.state disk.old) body.old }
    requires room { IsRoom (left_of body.old) (vec_len body.old.buffer) (vec_len room) (vec_capacity room) }
    ensures polled { IsPolled (cached_file local_file) (D.state disk.old) body.old result (D.state disk.new) body.new }
    ensures right { (trail : List World) (w : World) (parts : List Part) → (D.state disk.old).told ≡ Some w
        → In w trail → IsFileSound trail body.old.file
        → HasParts (cached_file local_file).seen (D.state disk.old) parts body.old
        → (rest : List Part) × HasParts (cached_file local_file).seen (D.state disk.new) rest body.new
        × PollsParts (Some w) (D.state disk.old).whole body.old.most
        (Rose (D.state disk.old).faults (D.state disk.new).faults) parts result rest }
    ensures sound { (trail : List World) → IsFileSound trail body.old.file → IsFileSound trail body.new.file }
{
    body.take_piece(disk, room)
}

/// A body over a local store whose contents are held, whose file holds what is sound for a trail: whatever polls are made
/// of it, and whatever others do between them, it may be polled, what its file holds is sound, and it stands in the world
/// that the disk tells, if that is of the trail. So each of its polls is right, by `IsPolled` alone.
pub fn bodies_over_contents_stand<D: Disk>(_disk: &D)
    ensures { (trail : List World) (s : DiskState) (b c : Body (Held LocalFsFile)) → IsHeld (cached_file local_file) s b
        → IsFileSound trail b.file → Along (cached_file local_file) s b (D.state _disk.now) c
        → IsHeld (cached_file local_file) (D.state _disk.now) c × IsFileSound trail c.file
        × ((w : World) → (D.state _disk.now).told ≡ Some w → In w trail
        → StandsIn (cached_file local_file).seen (D.state _disk.now) (Some w) c.file) }
{}

/// The file of a body stands in the world that the disk tells, where what it holds is sound there and the store inside
/// tells it as a regular file. So the next piece is right, as `StandsIn` is all that its poll wants.
pub fn sound_bodies_stand<D: Disk, F: DavFile<D>>(_file: &CachedFile<F>)
    ensures { (s : DiskState) (w : World) (file : Option (OpenAt (Held F))) → AreFilesTold F.view → s.told ≡ Some w
        → ((h : OpenAt (Held F)) → file ≡ Some h → IsHeldSound (IsSoundIn w) (content_of h.file)
        × ((f : Seen) × (F.view.seen h.file.file s ≡ Some f) × (f.stands.kind ≡ File)))
        → StandsIn (cached_file F.view).seen s (Some w) file }
{}
