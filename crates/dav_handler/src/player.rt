ghost use Rattle.std.specs.Prelude.{◌≡◌, ◌<◌, ◌≤◌, ◌+◌, ◌^◌, [], IfSome, IsSome, None, Ok};
ghost use Rattle.dav_model.specs.Bodies.{read_size_of};
ghost use Rattle.dav_core.specs.Disk.{Turns};
ghost use Rattle.dav_handler.specs.By.{by_store};
ghost use Rattle.dav_handler.specs.Held.{IsPlaying, body_at};
ghost use Rattle.dav_handler.specs.Purging.{PurgesBy};
ghost use Rattle.dav_handler.specs.Replies.{answered as the_answered};
ghost use Rattle.dav_memory.specs.Memory.{Purges};
ghost use Rattle.dav_local.specs.Made.{MadeAt};

use crate::bodies::{Bodies, end_body, hold_body, no_bodies, open_body, poll_body, sweep};
use crate::found::find_for;
use crate::replies::{Reply, answered, numbered};
use dav_config::{DavHandler, Found};
use dav_core::Disk;
use dav_io::{Moment, NoMemory, Octets};
use dav_local::LocalFs;
use dav_memory::Remember;
use dav_model::{Answer, Settings, Step};
use dav_store::DavFileSystem;
use http::Request;
use std::alloc::Global;
use std::mem;

/// Answers steps over a disk. It numbers its replies from 0, and keeps the body of each reply of which something is
/// left.
pub struct Player<D: Disk, R: Remember> {
    alloc: Global,
    settings: Settings,
    store: LocalFs<D, R>,
    bodies: Bodies,
    replies: u32,
    ghost ok: { IsPlaying (read_size_of settings.read_buf_size) (D.state store.disk) (body_at bodies) replies },
}

impl<D: Disk, R: Remember> Player<D, R> {
    ghost use Rattle.dav_handler.specs.Player.{playing_by, playing_of, stage_of};
    ghost use Rattle.dav_model.specs.Play.{AreFull, Stepped, TellsOpen};
    ghost use Rattle.dav_model.specs.Still.{knowing_at};
    ghost use Rattle.dav_local.specs.Shown.{knowledge_of};
    ghost use Rattle.dav_model.specs.declared.step.Step.TheVariants.{Abandon, Poll, Purge, Turn, Request as Asks};

    /// A player over the store of a handler, which has one, by the handler's settings. It gave no reply yet.
    pub fn new(handler: DavHandler<LocalFs<D, R>, ()>) -> Self
        requires { IsSome handler.store }
        ensures loan { IfSome handler.store (λ store. D.loan result.store.disk ≡ D.loan store.disk) }
        ensures stage { IfSome handler.store (λ store. stage_of result ≡ record {
          at = D.state store.disk;
          playing = playing_by (by_store R.state handler.settings store) 0 (λ _. []) (λ _. None);
        }) }
    {
        let (alloc, settings, store) = handler.into_parts();
        match store {
            Some(store) => Player::over(alloc, settings, store),
            None => unreachable!("the handler has a store"),
        }
    }

    /// A player over a store, by these settings. It gave no reply yet.
    pub fn over(alloc: Global, settings: Settings, store: LocalFs<D, R>) -> Self
        ensures store { result.store ≡ store }
        ensures loan { D.loan result.store.disk ≡ D.loan store.disk }
        ensures stage { stage_of result ≡ record {
          at = D.state store.disk;
          playing = playing_by (by_store R.state settings store) 0 (λ _. [])
              (λ _. None);
        } }
    {
        Player {
            alloc,
            settings,
            store,
            bodies: no_bodies(alloc),
            replies: 0,
        }
    }

    /// Starts over, over the same store and by the same settings: no reply is given yet, and no body is held. The disk
    /// isn't asked, so the file of a body that had bytes left stays open, as where its player is let go.
    pub fn renew(&mut self)
        ensures store { self.new.store ≡ self.old.store }
        ensures settings { self.new.settings ≡ self.old.settings }
        ensures stage { stage_of self.new ≡ record {
          at = D.state self.old.store.disk;
          playing = playing_by (by_store R.state self.old.settings self.old.store) 0 (λ _. []) (λ _. None);
        } }
        ensures loan { D.loan self.new.store.disk ≡ D.loan self.old.store.disk }
    {
        self.bodies = no_bodies(self.alloc);
        self.replies = 0;
    }

    /// Lends the disk.
    pub fn disk(&self) -> &D
        ensures { result.now ≡ self.now.store.disk }
    {
        self.store.disk()
    }

    /// Lends the memory of the store.
    pub fn memory(&mut self) -> &mut R
        ensures value { result.now ≡ self.old.store.memory }
    {
        self.store.memory()
    }

    /// Puts another memory in the place of the store's, and gives that one back.
    pub fn replace_memory(&mut self, memory: R) -> R
        ensures value { result ≡ self.old.store.memory }
        ensures memory { self.new.store.memory ≡ memory }
        ensures stage { stage_of self.new ≡ knowing_at (knowledge_of (R.state memory)) (stage_of self.old) }
        ensures loan { D.loan self.new.store.disk ≡ D.loan self.old.store.disk }
    {
        mem::replace(self.store.memory(), memory)
    }

    /// How many replies it gave.
    pub fn replies(&self) -> u32
        ensures { result ≡ (playing_of self.now).replies }
    {
        self.replies
    }

    /// Gives the disk and the memory back, with the files of bodies that have bytes left still open.
    pub fn into_parts(self) -> (D, R)
        ensures { result ≡ (self.store.disk, self.store.memory) }
    {
        let Player {
            alloc: _,
            settings: _,
            store,
            bodies: _,
            replies: _,
        } = self;
        store.into_parts()
    }

    /// Gives the disk back so, and leaves the memory where it is told to. A disk that was lent goes back to its lender.
    pub fn into_disk(self, memory: &mut Option<R>) -> D
    where
        R: Drop,
        ensures disk { result ≡ self.store.disk }
        ensures memory { memory.new ≡ Some self.store.memory }
    {
        let (disk, left) = self.into_parts();
        *memory = Some(left);
        disk
    }

    /// A turn of the outside, as its step is answered.
    pub fn turn(&mut self) -> Result<Answer, NoMemory>
        ensures held { TellsOpen (D.state self.old.store.disk) (playing_of self.old) }
        ensures full { AreFull (playing_of self.old) }
        ensures done { Stepped (stage_of self.old) Turn result (stage_of self.new) }
        ensures loan { D.loan self.new.store.disk ≡ D.loan self.old.store.disk }
    {
        match turn_disk(&mut self.store) {
            Ok(()) => Ok(Answer::Done),
            Err(error) => Err(error),
        }
    }

    // Abandons a body.
    fn abandon(&mut self, body: u32) -> Answer
        ensures done { Stepped (stage_of self.old) (Abandon body) (Ok result) (stage_of self.new) }
        ensures loan { D.loan self.new.store.disk ≡ D.loan self.old.store.disk }
    {
        end_body(&mut self.bodies, &mut self.store, body);
        Answer::Done
    }

    /// What the memory of the store holds too long at this moment is forgotten, as its step is answered.
    pub fn purge(&mut self, now: Moment) -> Answer
        ensures done { Stepped (stage_of self.old) (Purge now) (Ok result) (stage_of self.new) }
        ensures purges { Purges (R.state self.old.store.memory) now (R.state self.new.store.memory) }
        ensures loan { D.loan self.new.store.disk ≡ D.loan self.old.store.disk }
    {
        self.store.memory().purge(now);
        Answer::Done
    }

    /// The reply to a request, as its step is answered. A file that was opened for it is held by its body, or closed
    /// again. What the memory of the store remembers anew has the request's moment.
    pub fn request(&mut self, request: &Request<Octets>, now: Moment) -> Result<Reply, NoMemory>
        requires { self.old.replies + 1 < 2 ^ 32 }
        ensures done { Stepped (stage_of self.old) (Asks request.now now) (the_answered result) (stage_of self.new) }
        ensures made { MadeAt now (R.state self.old.store.memory) (R.state self.new.store.memory) }
        ensures loan { D.loan self.new.store.disk ≡ D.loan self.old.store.disk }
    {
        DavFileSystem::set_now(&mut self.store, now);
        let found = match find_for(self.alloc, &self.settings, &mut self.store, request) {
            Ok(found) => found,
            Err(error) => return Err(error),
        };
        let Found { outcome, body } = found;
        let number = self.replies;
        match body {
            None => {
                self.replies = number + 1;
                Ok(numbered(outcome, number))
            }
            Some(open) => match hold_body(&mut self.bodies, number, open) {
                Ok(()) => {
                    self.replies = number + 1;
                    Ok(numbered(outcome, number))
                }
                Err(open) => {
                    open.close(DavFileSystem::disk(&mut self.store));
                    Err(NoMemory)
                }
            },
        }
    }

    // The next piece of a body.
    fn poll(&mut self, body: u32) -> Result<Answer, NoMemory>
        ensures done { Stepped (stage_of self.old) (Poll body) result (stage_of self.new) }
        ensures loan { D.loan self.new.store.disk ≡ D.loan self.old.store.disk }
    {
        let mut spare = Vec::new(self.alloc);
        self.poll_over(body, &mut spare)
    }

    /// The next piece of a body, as its step is answered. A piece of a file has the memory of `spare`, which has none then,
    /// and more where that isn't enough; it is taken before the disk is asked. A text has its own.
    pub fn poll_over(&mut self, body: u32, spare: &mut Vec<u8>) -> Result<Answer, NoMemory>
        ensures done { Stepped (stage_of self.old) (Poll body) result (stage_of self.new) }
        ensures loan { D.loan self.new.store.disk ≡ D.loan self.old.store.disk }
    {
        let Some(open) = open_body(&self.bodies, body) else {
            return Ok(Answer::End);
        };
        let Ok(room) = open.make_room(mem::replace(spare, Vec::new(self.alloc))) else {
            return Err(NoMemory);
        };
        let answer = poll_body(&mut self.bodies, &mut self.store, body, room);
        sweep(&mut self.bodies, &mut self.store, body);
        Ok(answer)
    }

    /// Answers one step; `play` is the loop over it. After want of memory the bodies that were open before are as they
    /// were. `held` and `full` hold of every player: the file of each slice that a body has left is open, and no part
    /// that is left is empty.
    pub fn step(&mut self, step: &Step) -> Result<Answer, NoMemory>
        requires { self.old.replies + 1 < 2 ^ 32 }
        ensures held { TellsOpen (D.state self.old.store.disk) (playing_of self.old) }
        ensures full { AreFull (playing_of self.old) }
        ensures done { Stepped (stage_of self.old) step.now result (stage_of self.new) }
        ensures purges { PurgesBy step.now (R.state self.old.store.memory) (R.state self.new.store.memory) }
        ensures loan { D.loan self.new.store.disk ≡ D.loan self.old.store.disk }
    {
        match step {
            Step::Request { request, now } => answered(self.request(request, *now)),
            Step::Poll(body) => self.poll(*body),
            Step::Abandon(body) => Ok(self.abandon(*body)),
            Step::Purge(now) => Ok(self.purge(*now)),
            Step::Turn => self.turn(),
        }
    }
}

// A turn of the outside, by the disk of the store.
fn turn_disk<D: Disk, R: Remember>(store: &mut LocalFs<D, R>) -> Result<(), NoMemory>
    ensures done { Turns (D.state store.old.disk) result (D.state store.new.disk) }
    ensures rest { store.new ≡ record store.old { disk = store.new.disk } }
    ensures loan { D.loan store.new.disk ≡ D.loan store.old.disk }
{
    DavFileSystem::disk(store).turn()
}
