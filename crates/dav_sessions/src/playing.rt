ghost use Rattle.std.specs.Prelude.{◌≡◌, ◌<◌, ◌+◌, ◌^◌, ℕ, All, false, length, slice_index_or};
ghost use Rattle.dav_handler.specs.Player.{playing_of, stage_of};
ghost use Rattle.dav_model.specs.Play.{PlayedOn};
ghost use Rattle.dav_sessions.specs.Sessions.{MayShare, Plays, PlaysFrom, known_by_page, own_of, ready, rules_of};

use crate::{AnswerList, Session};
use dav_core::Disk;
use dav_handler::{Answer, LocalFs, Player, Settings, Step};
use dav_io::{NoMemory, TryClone};
use dav_shared::{Book, SharedCache, Sharing};
use std::alloc::Global;
use std::sync::Wait;
use std::thread::Threads;
use std::{mem, thread};

// Answers steps in order. What a step lists is put into the caches behind it.
fn play_on<'a, D: Disk, B: Book, W: Wait>(
    rt: &'a W,
    cache: &'a SharedCache<B>,
    player: &mut Player<D, Sharing<'a, B, W>>,
    steps: &[Step],
    answers: &mut Vec<Answer>,
) -> Result<(), NoMemory>
    requires room { player.old.replies + length steps.now < 2 ^ 32 }
    requires knows { (playing_of player.old).knows ≡ known_by_page (B.names cache.now.folder) }
    requires may { MayShare (B.names cache.now.folder) (playing_of player.old).rules (D.state player.old.store.disk)
        steps.now }
    ensures done { PlayedOn (stage_of player.old) steps.now answers.old.items answers.new.items result
        (stage_of player.new) }
    ensures loan { D.loan player.new.store.disk ≡ D.loan player.old.store.disk }
{
    for step in steps {
        // The room for the answer comes first, so that no step is made whose answer is lost.
        if answers.reserve(1).is_err() {
            return Err(NoMemory);
        }
        let answer = match player.step(step) {
            Ok(answer) => answer,
            Err(error) => return Err(error),
        };
        let fresh = Sharing::new(rt, cache);
        let left = player.replace_memory(fresh);
        cache.settle(rt, left.into_waiting());
        if answers.push(answer).is_err() {
            unreachable!();
        }
    }
    Ok(())
}

// How sessions find paths: by which rules, and over which caches.
#[derive(Drop)]
struct Ways<'a, B: Book> {
    fold: bool,
    macos: bool,
    cache: &'a SharedCache<B>,
}

// A player over the disk from its root on and the shared caches, by these settings. It gave no reply yet, and makes
// nothing that is open to everybody.
fn player_over<'a, D: Disk, B: Book, W: Wait>(
    rt: &'a W,
    alloc: Global,
    settings: Settings,
    ways: &Ways<'a, B>,
    disk: D,
) -> Player<D, Sharing<'a, B, W>>
    ensures loan { D.loan result.store.disk ≡ D.loan disk }
    ensures public { result.store.public ≡ false }
    ensures stage { stage_of result ≡ ready (B.names ways.now.cache.now.folder)
        (rules_of settings ways.now.fold ways.now.macos) (D.state disk) }
{
    let memory = Sharing::new(rt, ways.cache);
    let store = LocalFs::new(disk, memory, false, ways.fold, ways.macos);
    Player::over(alloc, settings, store)
}

// Plays steps over a disk, by these settings.
fn play_by<D: Disk, B: Book, W: Wait>(
    rt: &W,
    settings: Settings,
    ways: &Ways<'_, B>,
    disk: &mut D,
    steps: &[Step],
    answers: &mut Vec<Answer>,
) -> Result<(), NoMemory>
    requires room { length steps.now < 2 ^ 32 }
    requires may { MayShare (B.names ways.now.cache.now.folder) (rules_of settings ways.now.fold ways.now.macos)
        (D.state disk.old) steps.now }
    ensures { PlaysFrom (B.names ways.now.cache.now.folder) (rules_of settings ways.now.fold ways.now.macos)
        (D.state disk.old) steps.now answers.old.items result answers.new.items (D.state disk.new) }
{
    let alloc = *answers.allocator();
    let mut player = player_over(rt, alloc, settings, ways, &mut *disk);
    let outcome = play_on(rt, ways.cache, &mut player, steps, answers);
    let mut memory = None;
    let _ = player.into_disk(&mut memory);
    outcome
}

// Plays a session.
fn play_session<D: Disk, B: Book, W: Wait>(
    rt: &W,
    alloc: Global,
    settings: &Settings,
    ways: &Ways<'_, B>,
    session: &mut Session<D>,
)
    requires room { length session.old.steps < 2 ^ 32 }
    requires may { MayShare (B.names ways.now.cache.now.folder) (rules_of settings.now ways.now.fold ways.now.macos)
        (D.state session.old.disk) session.old.steps }
    ensures { Plays (B.names ways.now.cache.now.folder) (rules_of settings.now ways.now.fold ways.now.macos)
        (own_of D.state session.old) session.new.outcome (own_of D.state session.new) }
{
    let Session {
        disk,
        steps,
        answers,
        outcome,
    } = session;
    let steps = steps.as_slice();
    if steps.is_empty() {
        *outcome = Ok(());
        return;
    }
    match settings.try_clone() {
        Ok(settings) => {
            let held = mem::replace(answers, AnswerList::empty(alloc));
            let mut given = held.into_vec();
            *outcome = play_by(rt, settings, ways, disk, steps, &mut given);
            *answers = AnswerList::new(given);
        }
        Err(error) => *outcome = Err(error),
    }
}

/// Plays each session's steps on a worker of its own, over its disk and the caches that all share, and waits for the
/// workers. Answers are appended to those that a session has. Its clause speaks of each session by itself: whatever the
/// others did, the answers are those to its own steps over its own disk. Where no thread can be made the sessions are
/// played one after another.
pub fn play_sessions<W: Threads + Wait + Sync, D: Disk + Send, B: Book + Send + Sync>(
    rt: &W,
    alloc: Global,
    settings: &Settings,
    fold: bool,
    macos: bool,
    cache: &SharedCache<B>,
    sessions: &mut [Session<D>],
)
    requires room { All (λ s. length s.steps < 2 ^ 32) sessions.old }
    requires may { All (λ s. MayShare (B.names cache.now.folder) (rules_of settings.now fold macos) (D.state s.disk) s.steps)
        sessions.old }
    ensures { (i : ℕ) (d : _) → i < length sessions.old → Plays (B.names cache.now.folder)
        (rules_of settings.now fold macos) (own_of D.state (slice_index_or sessions.old i d))
        (slice_index_or sessions.new i d).outcome (own_of D.state (slice_index_or sessions.new i d)) }
{
    if sessions.is_empty() {
        return;
    }
    let count = sessions.len();
    let ways = &Ways { fold, macos, cache };
    let play = |_i: usize, session: &mut Session<D>|
        requires room { length session.now.steps < 2 ^ 32 }
        requires may { MayShare (B.names ways.now.cache.now.folder) (rules_of settings.now ways.now.fold ways.now.macos)
            (D.state session.now.disk) session.now.steps }
        ensures { Plays (B.names ways.entry.now.cache.now.folder)
            (rules_of settings.entry.now ways.entry.now.fold ways.entry.now.macos)
            (own_of D.state session.entry.now) session.exit.now.outcome (own_of D.state session.exit.now) }
    { play_session(rt, alloc, settings, ways, session) };
    thread::for_each_mut(rt, sessions, count, &play);
}
