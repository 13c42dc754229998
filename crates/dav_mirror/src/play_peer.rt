ghost use Rattle.std.specs.Prelude.{◌≡◌, ◌≤◌, ◌<◌, ◌+◌, ◌^◌, ℕ, [], ◌++◌, drop, length, min, take, None, OnErr, OnOk, true};
ghost use Rattle.dav_core.specs.Disk.{DiskState};
ghost use Rattle.dav_core.specs.World.{World};
ghost use Rattle.dav_handler.specs.Player.{playing_of, stage_of};
ghost use Rattle.dav_handler.specs.Replies.{answered};
ghost use Rattle.dav_local.specs.Made.{MadeAt};
ghost use Rattle.dav_model.specs.Play.{Stepped};
ghost use Rattle.dav_model.specs.declared.step.Step.TheVariants.{Request as Asks};
ghost use Rattle.dav_model.specs.Still.{StandsAs};
ghost use Rattle.dav_model.specs.Trail.{Leaves};
ghost use Rattle.dav_mirror.specs.Came.{CameBy, file_of};
ghost use Rattle.dav_mirror.specs.Seen.{heard_by, path_of, peer_moment};
ghost use Rattle.dav_mirror.specs.declared.play_peer.Heard.TheVariants.{Unasked};

use crate::asking::{Asking, request_for};
use dav_core::{DavPath, Disk};
use dav_fetch::{Got, Peer, PeerFault, give_from};
use dav_handler::{Answer, Player, Reply, Step};
use dav_io::{Fields, Moment, NoMemory, Octets};
use dav_memory::Remember;
use http::Request;
use std::alloc::Global;
use std::mem;

// How many replies a player gives to a peer.
const MOST_REPLIES: u32 = 2_147_483_648;

// What the last reply is the answer to.
#[derive(Drop)]
enum Heard {
    // There was none yet.
    Unasked,
    // A GET of this path, which was asked for.
    Asked(DavPath),
    // A request that was made for this path, and isn't heard as one of it.
    Unheard(DavPath),
}

/// A player, asked as a server is: it answers each `get` by the steps Abandon of the last body, Turn and Request, and
/// each `piece` by Poll, and keeps the rest of a piece that doesn't fit.
///
/// It tells the disk's world where the disk tells one, where the player has the rules of a peer that tells, and behind each
/// reply that met no link: at its path, on the way to it, or in the directory whose page was asked for. By such rules pages
/// are permitted, nothing else is set but the size of the read buffer, and each path is meant as it is written. Its count of faults is that of the disk and one of its own together: a `get` where the player has given 2^31
/// replies fails, and asks nothing. It names the path of its last reply, until a `get` fails so. What no request can say is answered 400, as by a server that reads it, and nothing
/// is told then; nor behind a reply to a path under a prefix, or to a field `if`.
pub struct PlayPeer<D: Disk, R: Remember> {
    alloc: Global,
    player: Player<D, R>,
    // The number of the last reply, where the player gave it.
    body: Option<u32>,
    heard: Heard,
    // The last piece, and how much of it is given.
    piece: Octets,
    at: usize,
    refused: u64,
    // How many calls failed.
    failures: u64,
    // How many turns the outside had.
    turns: u64,
    ghost inside: { at ≤ length piece },
    // Before the first reply no body is there, and each call that failed was refused.
    ghost first: { path_of heard ≡ None → (body ≡ None) × (failures ≡ refused) },
}

impl<D: Disk, R: Remember> PlayPeer<D, R> {
    ghost use Rattle.dav_mirror.specs.Playing.{calls_of, peer_of};
    ghost use Rattle.dav_mirror.specs.Seen.{calls_in, peer_in};

    /// A peer over a player, of which nothing was asked yet.
    pub fn new(alloc: Global, player: Player<D, R>) -> Self
        ensures peer { peer_of result ≡ peer_in Unasked [] None 0 (stage_of player) }
        ensures player { result.player ≡ player }
        ensures body { result.body ≡ None }
        ensures calls { calls_of result ≡ calls_in (playing_of player).replies 0 0 0 }
        ensures turns { result.turns ≡ 0 }
    {
        PlayPeer {
            alloc,
            player,
            body: None,
            heard: Heard::Unasked,
            piece: Octets::empty(alloc),
            at: 0,
            refused: 0,
            failures: 0,
            turns: 0,
        }
    }

    /// Gives the player back. The body of the last reply may still be open.
    pub fn into_player(self) -> Player<D, R>
        ensures { result ≡ self.player }
    {
        let mut last = None;
        self.into_parts(&mut last)
    }

    /// Gives the player back so, and leaves the path of the last reply where it is told to.
    pub(crate) fn into_parts(self, last: &mut Option<DavPath>) -> Player<D, R>
        ensures player { result ≡ self.player }
        ensures last { last.new ≡ path_of self.heard }
    {
        let PlayPeer {
            alloc: _,
            player,
            body: _,
            heard,
            piece: _,
            at: _,
            refused: _,
            failures: _,
            turns: _,
        } = self;
        *last = asked_path(heard);
        player
    }

    // Ends the last reply. Where memory is refused, it isn't ended.
    fn end_reply(&mut self) -> Result<(), NoMemory>
        requires { (playing_of self.old.player).replies + 1 < 2 ^ 32 }
        ensures body { OnOk result (self.new.body ≡ None) }
        ensures piece { drop self.new.at self.new.piece ≡ [] }
        ensures refused { self.new.refused ≡ self.old.refused }
        ensures faults { (D.state self.old.player.store.disk).faults ≤ (D.state self.new.player.store.disk).faults }
        ensures replies { (playing_of self.new.player).replies ≡ (playing_of self.old.player).replies }
        ensures rules { (playing_of self.new.player).rules ≡ (playing_of self.old.player).rules }
        ensures still { (w : World) → StandsAs w (D.state self.old.player.store.disk)
            → StandsAs w (D.state self.new.player.store.disk) }
        ensures leaves { Leaves (D.state self.old.player.store.disk) (D.state self.new.player.store.disk) }
        ensures came { (s : DiskState) (count : ℕ)
            → CameBy s count (file_of self.old.body (playing_of self.old.player)) (D.state self.old.player.store.disk)
            → CameBy s count (file_of self.new.body (playing_of self.new.player)) (D.state self.new.player.store.disk) }
        ensures heard { self.new.heard ≡ self.old.heard }
        ensures failures { self.new.failures ≡ self.old.failures }
        ensures turns { self.new.turns ≡ self.old.turns }
        ensures loan { D.loan self.new.player.store.disk ≡ D.loan self.old.player.store.disk }
    {
        self.at = 0;
        self.piece = Octets::empty(self.alloc);
        if let Some(body) = self.body {
            abandon(&mut self.player, body)?;
        }
        self.body = None;
        Ok(())
    }

    // Gives what is kept of the last piece, as far as there is room.
    fn give(&mut self, into: &mut [u8]) -> usize
        ensures count { result ≡ min (length (drop self.old.at self.old.piece)) (length into.old) }
        ensures given { drop self.old.at self.old.piece ≡ take result into.new ++ drop self.new.at self.new.piece }
        ensures player { self.new.player ≡ self.old.player }
        ensures stage { stage_of self.new.player ≡ stage_of self.old.player }
        ensures body { (self.new.body ≡ self.old.body) × (self.new.heard ≡ self.old.heard) }
        ensures refused { self.new.refused ≡ self.old.refused }
        ensures failures { self.new.failures ≡ self.old.failures }
        ensures turns { self.new.turns ≡ self.old.turns }
        ensures len { length into.new ≡ length into.old }
    {
        let count = give_from(self.piece.as_slice(), self.at, into);
        self.at += count;
        count
    }
}

// What a reply is the answer to, by whether its request is heard as one of the path.
fn heard_as(heard: bool, path: DavPath) -> Heard
    ensures { result ≡ heard_by heard path }
{
    if heard {
        Heard::Asked(path)
    } else {
        Heard::Unheard(path)
    }
}

// The path of the last reply, where there was one.
fn asked_path(heard: Heard) -> Option<DavPath>
    ensures { result ≡ path_of heard }
{
    match heard {
        Heard::Unasked => None,
        Heard::Asked(path) | Heard::Unheard(path) => Some(path),
    }
}

// Abandons a body.
fn abandon<D: Disk, R: Remember>(player: &mut Player<D, R>, body: u32) -> Result<(), NoMemory>
    requires { (playing_of player.old).replies + 1 < 2 ^ 32 }
    ensures faults { (D.state player.old.store.disk).faults ≤ (D.state player.new.store.disk).faults }
    ensures replies { (playing_of player.new).replies ≡ (playing_of player.old).replies }
    ensures rules { (playing_of player.new).rules ≡ (playing_of player.old).rules }
    ensures still { (w : World) → StandsAs w (D.state player.old.store.disk)
        → StandsAs w (D.state player.new.store.disk) }
    ensures leaves { Leaves (D.state player.old.store.disk) (D.state player.new.store.disk) }
    ensures ended { OnOk result ((s : DiskState) (count : ℕ)
        → CameBy s count ((playing_of player.old).held body) (D.state player.old.store.disk)
        → CameBy s count None (D.state player.new.store.disk)) }
    ensures held { OnErr result ((s : DiskState) (count : ℕ)
        → CameBy s count ((playing_of player.old).held body) (D.state player.old.store.disk)
        → CameBy s count ((playing_of player.new).held body) (D.state player.new.store.disk)) }
    ensures loan { D.loan player.new.store.disk ≡ D.loan player.old.store.disk }
{
    match player.step(&Step::Abandon(body)) {
        Ok(_) => Ok(()),
        Err(error) => Err(error),
    }
}

// Asks for a reply, by the step Request at the moment 0: a peer has no clock. What the memory of the store remembers anew
// is of that moment.
fn ask<D: Disk, R: Remember>(
    player: &mut Player<D, R>,
    request: &Request<Octets>,
) -> Result<Reply, NoMemory>
    requires { (playing_of player.old).replies + 1 < 2 ^ 32 }
    ensures done { Stepped (stage_of player.old) (Asks request.now peer_moment) (answered result) (stage_of player.new) }
    ensures made { MadeAt peer_moment (R.state player.old.store.memory) (R.state player.new.store.memory) }
    ensures loan { D.loan player.new.store.disk ≡ D.loan player.old.store.disk }
{
    player.request(request, Moment(0))
}

impl<D: Disk, R: Remember> Peer for PlayPeer<D, R> {
    ghost use Rattle.dav_mirror.specs.Playing.{calls_of, peer_of};

    ghost state = { λ p. peer_of p };

    ghost calls = { λ p. calls_of p };

    ghost loan = { λ p. D.loan p.player.store.disk };

    ghost since = { λ p s. CameBy s p.turns (file_of p.body (playing_of p.player)) (D.state p.player.store.disk) };

    fn get(&mut self, path: &DavPath, fields: &Fields) -> Result<Got, PeerFault> {
        if self.player.replies() >= MOST_REPLIES {
            self.refused = self.refused.saturating_add(1);
            self.failures = self.failures.saturating_add(1);
            return Err(PeerFault::Failed);
        }
        match self.end_reply() {
            Ok(()) => {}
            Err(_) => return Err(PeerFault::NoMemory),
        }
        let Ok(asked) = path.try_clone() else {
            return Err(PeerFault::NoMemory);
        };
        let asking = match request_for(self.alloc, path, fields) {
            Ok(asking) => asking,
            Err(_) => return Err(PeerFault::NoMemory),
        };
        let Some(Asking { request, heard }) = asking else {
            self.heard = Heard::Unheard(asked);
            return Ok(Got {
                status: 400,
                headers: Fields::empty(self.alloc),
            });
        };
        if self.player.turn().is_err() {
            return Err(PeerFault::NoMemory);
        }
        self.turns = self.turns.saturating_add(1);
        match ask(&mut self.player, &request) {
            Ok(reply) => {
                let Reply {
                    status,
                    headers,
                    body,
                } = reply;
                self.heard = heard_as(heard, asked);
                self.body = Some(body);
                Ok(Got { status, headers })
            }
            Err(_) => Err(PeerFault::NoMemory),
        }
    }

    fn piece(&mut self, into: &mut [u8]) -> Result<usize, PeerFault> {
        if self.at < self.piece.as_slice().len() {
            return Ok(self.give(into));
        }
        let Some(body) = self.body else {
            return Ok(0);
        };
        self.at = 0;
        let mut spare = mem::replace(&mut self.piece, Octets::empty(self.alloc)).into_vec();
        match self.player.poll_over(body, &mut spare) {
            Ok(Answer::Piece(piece)) => {
                self.piece = piece;
                Ok(self.give(into))
            }
            Ok(Answer::End) => Ok(0),
            Ok(Answer::Broken) => {
                self.failures = self.failures.saturating_add(1);
                Err(PeerFault::Failed)
            }
            // A poll is answered by no other.
            Ok(Answer::Reply { .. }) => Ok(0),
            Ok(Answer::Done) => Ok(0),
            Err(_) => Err(PeerFault::NoMemory),
        }
    }
}
