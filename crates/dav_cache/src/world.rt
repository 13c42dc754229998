//! The core as code: callers over the two caches and a tree that changes.

ghost use Rattle.std.specs.Prelude.{◌≡◌, ◌<◌, ◌+◌, ◌^◌, ℕ, None, true, OnOk, OnErr, IfOk, IfSome, length, option_map, replicate, slice_get, slice_set};
ghost use Rattle.std.specs.Map.{lookup};
ghost use Rattle.dav_cache.specs.Core as core;
ghost use Rattle.dav_memory.specs.Entries.{is_rising};

use crate::trees::{has_row, is_dot, next_name, time_told};
use crate::{Cache, DuCache, Event, Listing, Names, Place, Told};
use dav_core::{FileTime, FsPath, Row, Tree};
use dav_io::{Moment, NoMemory, Text};
use dav_memory::times::is_time;
use dav_memory::{copy_name, dir_key, fold, name_key};
use std::alloc::Global;
use std::marker::Model;

/// Callers that use one path cache and one dot-underscore cache over a tree that changes, event by event. A contract
/// sees it as the core's state.
#[derive(Drop)]
pub struct World {
    tree: Tree,
    places: Vec<Place>,
    paths: Cache,
    dots: DuCache,
}

impl Model for World {
    ghost use Rattle.dav_cache.specs.Core.{State, AllRise};

    ghost Value = { State };

    ghost view = { λ w. record {
      tree = w.tree;
      places = w.places.items;
      paths = w.paths.entries;
      paths_size = w.paths.size;
      dots = w.dots.entries;
      dots_size = w.dots.size;
      next = w.dots.next;
    } };

    ghost invariant = { λ w. AllRise w.places.items };
}

impl World {
    /// The callers are idle, and nothing is remembered.
    pub fn new(
        alloc: Global,
        tree: Tree,
        callers: u32,
        paths: usize,
        dots: usize,
    ) -> Result<Self, NoMemory>
        requires paths { 0 < paths }
        requires dots { 0 < dots }
        ensures { IfOk result (λ world. world ≡ core.start tree callers paths dots) }
    {
        let places = idle_places(alloc, callers)?;
        Ok(World {
            tree,
            places,
            paths: Cache::new(alloc, paths)?,
            dots: DuCache::new(alloc, dots)?,
        })
    }

    /// Makes the event. Where memory is refused nothing is changed.
    pub fn step(&mut self, event: &Event) -> Result<Told, NoMemory>
        ensures state { OnOk result (self.new ≡ core.step self.old event.now) }
        ensures told { IfOk result (λ told. told ≡ core.told self.old event.now) }
        ensures err { OnErr result (self.new ≡ self.old) }
    {
        match event {
            Event::Ask { caller, dir, name } => {
                let dir = dir.try_clone()?;
                let name = name.try_clone()?;
                Ok(self.enter(*caller, Place::Asked { dir, name }))
            }
            Event::Peek { caller } => self.peek(*caller),
            Event::Check { caller, refused } => self.check(*caller, *refused),
            Event::Conclude { caller } => self.conclude(*caller),
            Event::DropDir { caller } => self.drop_dir(*caller),
            Event::Begin { caller, dir } => {
                let dir = dir.try_clone()?;
                Ok(self.enter(*caller, Place::Begun { dir }))
            }
            Event::Before { caller, refused } => self.before(*caller, *refused),
            Event::ListNext { caller, refused } => self.list_next(*caller, *refused),
            Event::After { caller, refused } => self.after(*caller, *refused),
            Event::Seal { caller, now, room } => self.seal(*caller, *now, *room),
            Event::Find { caller, path } => {
                let path = path.try_clone()?;
                Ok(self.enter(*caller, Place::Finding { path }))
            }
            Event::Get { caller } => self.get(*caller),
            Event::Probe { caller, refused } => self.probe(*caller, *refused),
            Event::Drop { caller } => self.drop(*caller),
            Event::Insert { caller, path, now } => self.insert(*caller, path, *now),
            Event::Purge { now, dots } => Ok(self.purge(*now, *dots)),
            Event::Change { tree } => self.change(tree),
        }
    }

    fn peek(&mut self, caller: u32) -> Result<Told, NoMemory>
        ensures done { IfOk result (λ told. (self.new, told)
            ≡ core.peek self.old caller (slice_get self.old.places caller)) }
        ensures err { OnErr result (self.new ≡ self.old) }
    {
        match self.places.get(caller as usize) {
            Some(Place::Asked { dir, name }) => {
                let key = dir_key(dir)?;
                match self.dots.peek_dir(&key) {
                    Some((number, time)) => {
                        let place = Place::Peeked {
                            dir: dir.try_clone()?,
                            name: name.try_clone()?,
                            number,
                            time,
                        };
                        self.set(caller, place);
                        Ok(Told::Nothing)
                    }
                    None => {
                        self.set(caller, Place::Idle);
                        Ok(Told::Absent(false))
                    }
                }
            }
            _ => Ok(Told::Misplaced),
        }
    }

    fn check(&mut self, caller: u32, refused: bool) -> Result<Told, NoMemory>
        ensures done { IfOk result (λ told. (self.new, told)
            ≡ core.check self.old caller refused (slice_get self.old.places caller)) }
        ensures err { OnErr result (self.new ≡ self.old) }
    {
        match self.places.get(caller as usize) {
            Some(
                Place::Peeked {
                    dir,
                    name,
                    number,
                    time,
                },
            ) => {
                let place = if is_time(*time, time_told(refused, self.tree.as_slice(), dir)) {
                    Place::Passed {
                        dir: dir.try_clone()?,
                        name: name.try_clone()?,
                        number: *number,
                        time: *time,
                    }
                } else {
                    Place::Failed {
                        dir: dir.try_clone()?,
                    }
                };
                self.set(caller, place);
                Ok(Told::Nothing)
            }
            _ => Ok(Told::Misplaced),
        }
    }

    fn conclude(&mut self, caller: u32) -> Result<Told, NoMemory>
        ensures done { IfOk result (λ told. (self.new, told)
            ≡ core.conclude self.old caller (slice_get self.old.places caller)) }
        ensures err { OnErr result (self.new ≡ self.old) }
    {
        match self.places.get(caller as usize) {
            Some(
                Place::Passed {
                    dir,
                    name,
                    number,
                    ..
                },
            ) => {
                let absent = self
                    .dots
                    .conclude(&dir_key(dir)?, &name_key(dir, name)?, *number);
                self.set(caller, Place::Idle);
                Ok(Told::Absent(absent))
            }
            _ => Ok(Told::Misplaced),
        }
    }

    fn drop_dir(&mut self, caller: u32) -> Result<Told, NoMemory>
        ensures done { IfOk result (λ told. (self.new, told)
            ≡ core.drop_dir self.old caller (slice_get self.old.places caller)) }
        ensures err { OnErr result (self.new ≡ self.old) }
    {
        match self.places.get(caller as usize) {
            Some(Place::Failed { dir }) => {
                let key = dir_key(dir)?;
                self.dots.drop_dir(&key);
                self.set(caller, Place::Idle);
                Ok(Told::Absent(false))
            }
            _ => Ok(Told::Misplaced),
        }
    }

    fn before(&mut self, caller: u32, refused: bool) -> Result<Told, NoMemory>
        ensures done { IfOk result (λ told. (self.new, told)
            ≡ core.before self.old caller refused (slice_get self.old.places caller)) }
        ensures err { OnErr result (self.new ≡ self.old) }
    {
        match self.places.get(caller as usize) {
            Some(Place::Begun { dir }) => {
                let before = time_told(refused, self.tree.as_slice(), dir);
                let names = Names::new(Vec::new(*self.places.allocator()));
                let listing = Listing {
                    dir: dir.try_clone()?,
                    before,
                    last: None,
                    names,
                    ended: false,
                    whole: true,
                };
                self.set(caller, Place::Lists { listing });
                Ok(Told::Nothing)
            }
            _ => Ok(Told::Misplaced),
        }
    }

    fn probe(&mut self, caller: u32, refused: bool) -> Result<Told, NoMemory>
        ensures done { IfOk result (λ told. (self.new, told)
            ≡ core.probe self.old caller refused (slice_get self.old.places caller)) }
        ensures err { OnErr result (self.new ≡ self.old) }
    {
        match self.places.get(caller as usize) {
            Some(Place::Got { asked, path }) => {
                if !refused && has_row(self.tree.as_slice(), path) {
                    let path = path.try_clone()?;
                    self.set(caller, Place::Idle);
                    Ok(Told::Path(Some(path)))
                } else {
                    let place = Place::Missed {
                        asked: asked.try_clone()?,
                    };
                    self.set(caller, place);
                    Ok(Told::Nothing)
                }
            }
            _ => Ok(Told::Misplaced),
        }
    }

    fn list_next(&mut self, caller: u32, refused: bool) -> Result<Told, NoMemory>
        ensures done { IfOk result (λ told. (self.new, told)
            ≡ core.list_next self.old caller refused (slice_get self.old.places caller)) }
        ensures err { OnErr result (self.new ≡ self.old) }
    {
        match self.places.get(caller as usize) {
            Some(Place::Lists { listing }) => {
                if listing.ended {
                    return Ok(Told::Misplaced);
                }
                let listing = lists_next(
                    self.tree.as_slice(),
                    listing,
                    time_told(refused, self.tree.as_slice(), &listing.dir),
                )?;
                self.set(caller, Place::Lists { listing });
                Ok(Told::Nothing)
            }
            _ => Ok(Told::Misplaced),
        }
    }

    fn after(&mut self, caller: u32, refused: bool) -> Result<Told, NoMemory>
        ensures done { IfOk result (λ told. (self.new, told)
            ≡ core.after self.old caller refused (slice_get self.old.places caller)) }
        ensures err { OnErr result (self.new ≡ self.old) }
    {
        match self.places.get(caller as usize) {
            Some(Place::Lists { listing }) => {
                if !listing.ended {
                    return Ok(Told::Misplaced);
                }
                let after = time_told(refused, self.tree.as_slice(), &listing.dir);
                let listing = copy_listing(listing)?;
                self.set(caller, Place::Ended { listing, after });
                Ok(Told::Nothing)
            }
            _ => Ok(Told::Misplaced),
        }
    }

    fn seal(&mut self, caller: u32, now: Moment, room: u64) -> Result<Told, NoMemory>
        ensures done { IfOk result (λ told. (self.new, told)
            ≡ core.seal self.old caller now room (slice_get self.old.places caller)) }
        ensures err { OnErr result (self.new ≡ self.old) }
    {
        match self.places.get(caller as usize) {
            Some(Place::Ended { listing, after }) => {
                match self.new_dots(listing, now, room, settled(listing, *after))? {
                    Some(dots) => {
                        self.dots = dots;
                        self.set(caller, Place::Idle);
                        Ok(Told::Nothing)
                    }
                    None => {
                        self.set(caller, Place::Idle);
                        Ok(Told::Nothing)
                    }
                }
            }
            _ => Ok(Told::Misplaced),
        }
    }

    fn get(&mut self, caller: u32) -> Result<Told, NoMemory>
        ensures done { IfOk result (λ told. (self.new, told)
            ≡ core.get self.old caller (slice_get self.old.places caller)) }
        ensures err { OnErr result (self.new ≡ self.old) }
    {
        match self.places.get(caller as usize) {
            Some(Place::Finding { path }) => {
                let key = fold(*self.places.allocator(), path)?;
                match self.paths.path_of(&key)? {
                    Some(found) => {
                        let place = Place::Got {
                            asked: path.try_clone()?,
                            path: found,
                        };
                        self.paths.promote(&key);
                        self.set(caller, place);
                        Ok(Told::Nothing)
                    }
                    None => {
                        self.set(caller, Place::Idle);
                        Ok(Told::Path(None))
                    }
                }
            }
            _ => Ok(Told::Misplaced),
        }
    }

    fn drop(&mut self, caller: u32) -> Result<Told, NoMemory>
        ensures done { IfOk result (λ told. (self.new, told)
            ≡ core.drop self.old caller (slice_get self.old.places caller)) }
        ensures err { OnErr result (self.new ≡ self.old) }
    {
        match self.places.get(caller as usize) {
            Some(Place::Missed { asked }) => {
                let key = fold(*self.places.allocator(), asked)?;
                self.paths.remove(&key);
                self.set(caller, Place::Idle);
                Ok(Told::Path(None))
            }
            _ => Ok(Told::Misplaced),
        }
    }

    fn insert(&mut self, caller: u32, path: &FsPath, now: Moment) -> Result<Told, NoMemory>
        ensures done { IfOk result (λ told. (self.new, told)
            ≡ core.insert self.old caller path.now now (slice_get self.old.places caller)) }
        ensures err { OnErr result (self.new ≡ self.old) }
    {
        match self.places.get(caller as usize) {
            Some(Place::Idle) => {
                self.paths.insert(path, now)?;
                self.set(caller, Place::Idle);
                Ok(Told::Nothing)
            }
            _ => Ok(Told::Misplaced),
        }
    }

    fn purge(&mut self, now: Moment, dots: bool) -> Told
        ensures state { self.new ≡ (core.purge self.old now dots).0 }
        ensures told { result ≡ (core.purge self.old now dots).1 }
    {
        if dots {
            self.dots.purge(now);
            Told::Nothing
        } else {
            self.paths.purge(now);
            Told::Nothing
        }
    }

    fn change(&mut self, tree: &Tree) -> Result<Told, NoMemory>
        ensures state { OnOk result (self.new ≡ record self.old { tree = tree.now }) }
        ensures told { IfOk result (λ told. told ≡ Told.Nothing) }
        ensures err { OnErr result (self.new ≡ self.old) }
    {
        self.tree = tree.try_clone()?;
        Ok(Told::Nothing)
    }

    // The cache that a seal leaves, where there is one. It is made on a copy, so that memory that is refused before the
    // room is used up leaves the world as it was.
    #[tactic(auto, unfolding(crate::specs::Core::new_dots))]
    fn new_dots(
        &self,
        l: &Listing,
        now: Moment,
        room: u64,
        time: Option<FileTime>,
    ) -> Result<Option<DuCache>, NoMemory>
        requires { is_rising None l.now.names ≡ true }
        ensures entries { IfOk result (λ dots. option_map (λ d. d.entries) dots ≡ core.new_dots self.now l.now now room
            time) }
        ensures others { IfOk result (λ dots. IfSome dots
            (λ d. (d.size ≡ self.now.dots_size) × (d.next ≡ self.now.next + 1))) }
    {
        let Some(time) = time else {
            return Ok(None);
        };
        if self.dots.is_last() {
            return Ok(None);
        }
        let key = dir_key(&l.dir)?;
        let mut dots = self.dots.try_clone()?;
        let names = l.names.as_slice();
        let made = dots.seal_within(&key, time, names, now, room);
        if made < room && made <= names.len() as u64 {
            return Err(NoMemory);
        }
        Ok(Some(dots))
    }

    // An idle caller goes to the place.
    fn enter(&mut self, caller: u32, place: Place) -> Told
        requires { core.Rises place }
        ensures { (self.new, result) ≡ core.enters self.old caller place (slice_get self.old.places caller) }
    {
        match self.places.get(caller as usize) {
            Some(Place::Idle) => {
                self.set(caller, place);
                Told::Nothing
            }
            _ => Told::Misplaced,
        }
    }

    fn set(&mut self, caller: u32, place: Place)
        requires caller { caller < length self.old.places }
        requires place { core.Rises place }
        ensures { self.new ≡ record self.old { places = slice_set self.old.places caller place } }
    {
        self.places[caller as usize] = place;
    }
}

fn idle_places(alloc: Global, callers: u32) -> Result<Vec<Place>, NoMemory>
    ensures { IfOk result (λ places. places.items ≡ replicate callers Place.Idle) }
{
    let mut places = Vec::new(alloc);
    for _i in 0..callers {
        places.push(Place::Idle)?;
    }
    Ok(places)
}

fn copy_listing(l: &Listing) -> Result<Listing, NoMemory>
    ensures { IfOk result (λ copy. copy ≡ l.now) }
{
    let dir = l.dir.try_clone()?;
    let last = copy_name(&l.last)?;
    let names = l.names.try_clone()?;
    Ok(Listing {
        dir,
        before: l.before,
        last,
        names,
        ended: l.ended,
        whole: l.whole,
    })
}

/// A name, or the end.
fn given(l: &Listing, name: Option<Text>) -> Result<Listing, NoMemory>
    ensures { IfOk result (λ next. next ≡ core.given l.now name) }
{
    let mut next = copy_listing(l)?;
    match name {
        Some(name) => {
            if is_dot(&name) {
                next.names.push(name.try_clone()?)?;
            }
            next.last = Some(name);
            next.ended = false;
            Ok(next)
        }
        None => {
            next.ended = true;
            Ok(next)
        }
    }
}

/// A listing of what is no directory now counts as refused.
fn lists_next(rows: &[Row], l: &Listing, time: Option<FileTime>) -> Result<Listing, NoMemory>
    ensures { IfOk result (λ next. next ≡ core.lists_next rows.now l.now time) }
{
    match time {
        Some(_) => given(l, next_name(rows, &l.dir, &l.last)?),
        None => {
            let mut next = copy_listing(l)?;
            next.ended = true;
            next.whole = false;
            Ok(next)
        }
    }
}

/// The time that a listing may be sealed with.
#[tactic(auto, unfolding(crate::specs::Core::settled))]
fn settled(l: &Listing, after: Option<FileTime>) -> Option<FileTime>
    ensures { result ≡ core.settled l.now after }
{
    if !l.whole {
        return None;
    }
    let before = l.before?;
    if is_time(before, after) {
        Some(before)
    } else {
        None
    }
}
