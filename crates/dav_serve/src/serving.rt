// Serving a disk by options.
ghost use Rattle.std.specs.Prelude.{◌≡◌, IfOk, OnErr, false};
ghost use Rattle.dav_handler.specs.Player.{stage_of};
ghost use Rattle.dav_local.specs.Shown.{knowledge_of};
ghost use Rattle.dav_serve.specs.Words.{set_by, settings_by};
ghost use Rattle.dav_serving.specs.Serving.{HoldsSoFar, EndsBy, ServedPartly, ready, setup_over};
ghost use Rattle.dav_serving.specs.Stages.{outside_of};

use crate::words::Options;
use dav_core::Disk;
use dav_handler::{LocalFs, Player, Remember, Settings};
use dav_io::{Client, Clock, NoMemory, Sink};
use dav_serving::{Ending, serve_requests};
use std::alloc::Global;

// A player over the disk from its root on and a memory, by these settings, whose store finds names as the options say.
// What it makes is its owner's alone. It gave no reply yet.
fn player_over<D: Disk + Drop, R: Remember + Drop>(
    alloc: Global,
    disk: D,
    memory: R,
    settings: Settings,
    options: &Options<'_>,
) -> Player<D, R>
    ensures private { result.store.public ≡ false }
    ensures loan { D.loan result.store.disk ≡ D.loan disk }
    ensures stage { settings ≡ settings_by options.now
        → stage_of result ≡ ready (set_by options.now) (knowledge_of (R.state memory)) (D.state disk) }
{
    let store = LocalFs::new(disk, memory, false, options.fold, options.macos);
    Player::over(alloc, settings, store)
}

/// Serves the requests of a client by what the options say: one player over the disk answers them all, with a memory
/// that goes from one request to the next.
pub fn serve<S: Client<K>, K: Sink, D: Disk, R: Remember + Drop, C: Clock>(
    alloc: Global,
    options: &Options<'_>,
    source: &mut S,
    sink: &mut K,
    disk: &mut D,
    memory: R,
    clock: &mut C,
) -> Result<Ending, NoMemory>
    requires waits { HoldsSoFar
        (setup_over (C.shows clock.old) (set_by options.now) (knowledge_of (R.state memory)))
        (outside_of (S.stream source.old) (K.stream sink.old) (D.state disk.old))
        (S.may source.old) }
    ensures clock { C.shows clock.new ≡ C.shows clock.old }
    ensures ends { IfOk result (EndsBy
        (setup_over (C.shows clock.old) (set_by options.now) (knowledge_of (R.state memory)))
        (outside_of (S.stream source.old) (K.stream sink.old) (D.state disk.old))
        (outside_of (S.stream source.new) (K.stream sink.new) (D.state disk.new))) }
    ensures memory { OnErr result (ServedPartly
        (setup_over (C.shows clock.old) (set_by options.now) (knowledge_of (R.state memory)))
        (outside_of (S.stream source.old) (K.stream sink.old) (D.state disk.old))
        (outside_of (S.stream source.new) (K.stream sink.new) (D.state disk.new))) }
{
    let settings = match options.settings(alloc) {
        Ok(settings) => settings,
        Err(error) => return Err(error),
    };
    let mut player = player_over(alloc, &mut *disk, memory, settings, options);
    let ended = serve_requests(alloc, &mut player, source, sink, clock);
    // The disk goes back to its lender, and the memory is let go.
    let mut left = None;
    let _ = player.into_disk(&mut left);
    ended
}
