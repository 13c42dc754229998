ghost use Rattle.std.specs.Prelude.{◌≡◌, ◌≤◌, ◌<◌, ◌+◌, ◌-◌, [], length, take, IfOk, None, OnErr, OnOk};
ghost use Rattle.dav_readcache.specs.Shelf.{bytes_for, fits, last_len, made_room, promoted, put_first, total};

use bytes::Bytes;
use dav_io::{NoMemory, Text};
use lru::LruCache;
use std::alloc::Global;
use std::marker::Model;
use std::num::NonZeroUsize;

/// Contents by their tags. A contract sees its entries, the most recently used first, how many it may have, how many
/// bytes all may have together, and how many one may have.
#[derive(Drop)]
pub struct Shelf {
    entries: LruCache<Text, Bytes>,
    held: u64,
    room: u64,
    most: u64,
}

impl Model for Shelf {
    ghost use Rattle.std.specs.Prelude.{ℕ, ◌≡◌, ◌≤◌, ◌<◌};
    ghost use Rattle.dav_readcache.specs.Shelf.{AreWithin, ShelfState, total};

    ghost Value = { ShelfState };

    ghost view = { λ s. record { entries = s.entries.entries; size = s.entries.cap; room = s.room; most = s.most } };

    ghost invariant = { λ s. (s.held ≡ total s.entries.entries) × (s.held ≤ s.room) × (s.most ≤ s.room)
        × AreWithin s.most s.entries.entries × (0 < s.entries.cap) };
}

impl Shelf {
    /// Without entries.
    pub fn new(alloc: Global, size: usize, room: u64, most: u64) -> Result<Self, NoMemory>
        requires some { 0 < size }
        requires within { most ≤ room }
        ensures { IfOk result (λ shelf. shelf ≡ record { entries = []; size = size; room = room; most = most }) }
    {
        let cap = NonZeroUsize::new(size).unwrap();
        Ok(Shelf {
            entries: LruCache::sparse(alloc, cap)?,
            held: 0,
            room,
            most,
        })
    }

    /// The sum of the bytes kept.
    pub fn held(&self) -> u64
        ensures value { result ≡ total self.now.entries }
        ensures within { result ≤ self.now.room }
    {
        self.held
    }

    /// The number of entries.
    pub fn count(&self) -> usize
        ensures value { result ≡ length self.now.entries }
        ensures within { result ≤ self.now.size }
    {
        self.entries.len()
    }

    /// Drops all entries.
    pub fn clear(&mut self)
        ensures { self.new ≡ record self.old { entries = [] } }
    {
        self.entries.clear();
        self.held = 0;
    }

    /// Whether one content more of this length fits.
    pub fn fits(&self, len: u64) -> bool
        ensures fits { result ≡ fits self.now.size self.now.room len self.now.entries }
        ensures within { total self.now.entries ≤ self.now.room }
    {
        self.entries.len() < self.entries.cap().get() && len <= self.room - self.held
    }

    // The length of the last content.
    fn last_length(&self) -> u64
        ensures { result ≡ last_len self.now.entries }
    {
        match self.entries.peek_lru() {
            Some((_, bytes)) => bytes.len() as u64,
            None => 0,
        }
    }

    #[tactic(auto, using(crate::proofs::Fronts::popped, crate::proofs::Fronts::last_within))]
    // Drops the last entry.
    fn drop_last(&mut self)
        ensures { self.new ≡ record self.old { entries = take (length self.old.entries - 1) self.old.entries } }
    {
        let length = self.last_length();
        let _pair = self.entries.pop_lru();
        self.held -= length;
    }

    #[tactic(auto, using(crate::proofs::Fronts::front_popped, crate::proofs::Fronts::front_whole))]
    // Drops the last entries until one content more of this length fits.
    fn make_room(&mut self, len: u64)
        requires some { 0 < self.old.size }
        requires within { len ≤ self.old.room }
        ensures { self.new ≡ made_room len self.old }
    {
        while !self.fits(len) {
            self.drop_last();
        }
    }

    /// The most bytes that one content may have.
    pub(crate) fn most(&self) -> u64
        ensures value { result ≡ self.now.most }
        ensures within { result ≤ self.now.room }
        ensures some { 0 < self.now.size }
    {
        self.most
    }

    pub(crate) fn allocator(&self) -> Global {
        *self.entries.allocator()
    }

    /// The bytes that an entry has for a tag.
    pub(crate) fn find(&self, tag: &Text) -> Result<Option<Bytes>, NoMemory>
        ensures { IfOk result (λ found. found ≡ bytes_for tag.now self.now) }
    {
        match self.entries.peek(tag) {
            Some(bytes) => Ok(Some(bytes.clone()?)),
            None => Ok(None),
        }
    }

    #[tactic(auto, using(crate::proofs::Orders::total_promoted, crate::proofs::Orders::within_promoted))]
    /// The entry of a tag comes first.
    pub(crate) fn promote(&mut self, tag: &Text)
        ensures { self.new ≡ promoted tag.now self.old }
    {
        self.entries.promote(tag);
    }

    /// Puts a content first, for whose tag there is no entry. The last ones are dropped before, until it fits.
    pub(crate) fn put_first(&mut self, tag: Text, bytes: Bytes) -> Result<(), NoMemory>
        requires none { bytes_for tag self.old ≡ None }
        requires within { length bytes ≤ self.old.most }
        ensures ok { OnOk result (self.new ≡ put_first tag bytes self.old) }
        ensures err { OnErr result (self.new ≡ made_room (length bytes) self.old) }
    {
        let length = bytes.len() as u64;
        let most = self.most();
        prove!(length <= most);
        self.make_room(length);
        self.entries.put(tag, bytes)?;
        self.held += length;
        Ok(())
    }
}
