// The steps of the large input are played, a file at a time, and counted.
ghost use Rattle.std.specs.Prelude.{◌≡◌, ◌<◌, ◌≤◌, ◌+◌, ◌*◌, ◌∷◌, [], IfOk, OnOk, map, sum};
ghost use Rattle.dav_handler.specs.Player.{playing_of, stage_of};
ghost use Rattle.dav_bench.specs.Asking.{AreStepsFor, IsReady};
ghost use Rattle.dav_bench.specs.Counting.{HasPlace, added, nothing_counted};
ghost use Rattle.dav_bench.specs.Running.{AskedFor, both_rounds, place_of, places_below, places_of};
ghost use Rattle.dav_bench.specs.Totals.{lengths};
ghost use Rattle.dav_bench.specs.Tree.{length_of, upto};

use crate::asking::request_for;
use crate::counting::Counts;
use dav_disk::{SureDisk, sure_disks_fail_for_want_of_room};
use dav_handler::{Player, Remember, Step, play};
use dav_io::{Moment, NoMemory};
use std::alloc::Global;

// A request for file j of directory i, and two polls of the body of this number.
fn steps_for(alloc: Global, i: u64, j: u64, body: u32) -> Result<Vec<Step>, NoMemory>
    ensures { IfOk result (λ steps. AreStepsFor i j body steps.items) }
{
    let request = request_for(alloc, i, j)?;
    let asks = Step::Request {
        request,
        now: Moment(0),
    };
    Ok(vec![in alloc; asks, Step::Poll(body), Step::Poll(body)]?)
}

// Asks for file j of directory i, and counts the answers.
fn ask<R: Remember>(
    alloc: Global,
    player: &mut Player<SureDisk, R>,
    m: u64,
    i: u64,
    j: u64,
    counts: &mut Counts,
) -> Result<(), NoMemory>
    requires m { m ≤ 400 }
    requires i { i < 8 }
    requires j { j < m }
    requires ready { IsReady m (stage_of player.old) }
    requires replies { (playing_of player.old).replies < 6400 }
    requires place { HasPlace 1 counts.old }
    ensures ready { OnOk result (IsReady m (stage_of player.new)) }
    ensures replies { OnOk result ((playing_of player.new).replies ≡ (playing_of player.old).replies + 1) }
    ensures counts { OnOk result (counts.new ≡ added 1 (length_of i j) counts.old) }
    ensures asked { OnOk result (AskedFor (place_of i j ∷ []) (stage_of player.old) (stage_of player.new) counts.old
        counts.new) }
{
    let steps = steps_for(alloc, i, j, player.replies())?;
    let mut answers = Vec::new(alloc);
    play(player, &steps, &mut answers)?;
    sure_disks_fail_for_want_of_room(player.disk());
    counts.count_all(&answers);
    Ok(())
}

// Asks for the files of directory i.
fn ask_dir<R: Remember>(
    alloc: Global,
    player: &mut Player<SureDisk, R>,
    m: u64,
    i: u64,
    counts: &mut Counts,
) -> Result<(), NoMemory>
    requires m { m ≤ 400 }
    requires some { 1 ≤ m }
    requires i { i < 8 }
    requires ready { IsReady m (stage_of player.old) }
    requires replies { (playing_of player.old).replies + m ≤ 6400 }
    requires place { HasPlace m counts.old }
    ensures ready { OnOk result (IsReady m (stage_of player.new)) }
    ensures replies { OnOk result ((playing_of player.new).replies ≡ (playing_of player.old).replies + m) }
    ensures counts { OnOk result (counts.new ≡ added m (sum (map (length_of i) (upto m))) counts.old) }
    ensures asked { OnOk result (AskedFor (places_of i m) (stage_of player.old) (stage_of player.new) counts.old
        counts.new) }
{
    for j in 0..m {
        ask(alloc, player, m, i, j, counts)?;
    }
    Ok(())
}

// Asks for each file once.
fn ask_all<R: Remember>(
    alloc: Global,
    player: &mut Player<SureDisk, R>,
    m: u64,
    counts: &mut Counts,
) -> Result<(), NoMemory>
    requires m { m ≤ 400 }
    requires some { 1 ≤ m }
    requires ready { IsReady m (stage_of player.old) }
    requires replies { (playing_of player.old).replies + 8 * m ≤ 6400 }
    requires place { HasPlace (8 * m) counts.old }
    ensures ready { OnOk result (IsReady m (stage_of player.new)) }
    ensures replies { OnOk result ((playing_of player.new).replies ≡ (playing_of player.old).replies + 8 * m) }
    ensures counts { OnOk result (counts.new ≡ added (8 * m) (sum (lengths m)) counts.old) }
    ensures asked { OnOk result (AskedFor (places_below m 8) (stage_of player.old) (stage_of player.new) counts.old
        counts.new) }
{
    for i in 0..8u64 {
        ask_dir(alloc, player, m, i, counts)?;
    }
    Ok(())
}

// Asks for each file twice, and counts the answers.
pub fn counts_over<R: Remember>(
    alloc: Global,
    player: &mut Player<SureDisk, R>,
    m: u64,
) -> Result<Counts, NoMemory>
    requires m { m ≤ 400 }
    requires some { 1 ≤ m }
    requires ready { IsReady m (stage_of player.old) }
    requires replies { (playing_of player.old).replies ≡ 0 }
    ensures counts { IfOk result (λ counts. counts ≡ added (16 * m) (2 * sum (lengths m)) nothing_counted) }
    ensures asked { IfOk result (λ counts. AskedFor (both_rounds m) (stage_of player.old) (stage_of player.new)
        nothing_counted counts) }
{
    let mut counts = Counts::none();
    ask_all(alloc, player, m, &mut counts)?;
    ask_all(alloc, player, m, &mut counts)?;
    Ok(counts)
}
