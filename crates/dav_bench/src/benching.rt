// The large input that is made from a number, played, counted and told.
ghost use Rattle.std.specs.Prelude.{◌≡◌, ◌≤◌, ◌+◌, ℕ};
ghost use Rattle.dav_disk.specs.Sure.{sure_state, sure_world};
ghost use Rattle.dav_handler.specs.Player.{playing_of, stage_of};
ghost use Rattle.dav_bench.specs.Asking.{IsReady};
ghost use Rattle.dav_bench.specs.Report.{Benches};
ghost use Rattle.dav_bench.specs.Tree.{IsBench};

use crate::making::make_disk;
use crate::playing::counts_over;
use crate::report::report;
use dav_disk::SureDisk;
use dav_handler::{DavConfig, LocalFs, Player, Remember};
use dav_io::{NoMemory, Sink};
use std::alloc::Global;

// A player over a disk, by which names fold. Nothing is set, and it gave no reply yet.
fn player_over<R: Remember + Drop>(alloc: Global, disk: SureDisk, memory: R) -> Player<SureDisk, R>
    ensures ready { (m : ℕ) → IsBench m (sure_world disk) → IsReady m (stage_of result) }
    ensures begins { (stage_of result).at ≡ sure_state disk }
    ensures replies { (playing_of result).replies ≡ 0 }
{
    let store = LocalFs::new(disk, memory, true, true, false);
    let handler = DavConfig::new(alloc).filesystem(store).build_handler();
    Player::new(handler)
}

/// Makes a large input from a number, plays it over a disk of its own, and writes what was counted: status 0, or 4
/// where the sink failed. There are eight directories `Dir0`, `Dir1` and so on, each with one file more than the
/// number: `File0`, `File1` and so on. File j of directory i has 10(i+1)+j bytes. Twice each file is asked for, by a
/// name that folds like its own, and the body of the answer is polled twice. Wherever there is a status that run was
/// made, and the five lines are the counts of its answers and the listings of its disk.
pub fn bench<R: Remember + Drop, K: Sink>(
    alloc: Global,
    seed: u32,
    memory: R,
    sink: &mut K,
) -> Result<u8, NoMemory>
    requires { seed ≤ 399 }
    ensures { Benches (seed + 1) (K.stream sink.old) result (K.stream sink.new) }
{
    let m = u64::from(seed) + 1;
    let disk = make_disk(alloc, m)?;
    let mut player = player_over(alloc, disk, memory);
    let counts = counts_over(alloc, &mut player, m);
    let (disk, _) = player.into_parts();
    match counts {
        Ok(counts) => report(alloc, counts, &disk, sink),
        Err(refused) => Err(refused),
    }
}
