//! What is known of runs and pages where a disk met a fault, and where it met none, as laws over the definitions. The
//! calls do nothing.
#![tactic(auto)]

ghost use Rattle.std.specs.Prelude.{◌≡◌, ◌≤◌, ◌++◌, List, Ok, Result};
ghost use Rattle.std.specs.List.{AllByRecursion};
ghost use Rattle.dav_io.specs.Counts.{RefusedNothing};
ghost use Rattle.dav_io.specs.declared.failure.NoMemory.{NoMemory};
ghost use Rattle.dav_core.specs.DavPath.{WebPath};
ghost use Rattle.dav_core.specs.Members.{members};
ghost use Rattle.dav_core.specs.World.{IsWorld, World};
ghost use Rattle.dav_page.specs.Listed.{AreRows};
ghost use Rattle.dav_page.specs.declared.row.PageRow.{PageRow};
ghost use Rattle.dav_disk.specs.Memory.{HasRoom};
ghost use Rattle.dav_disk.specs.Sure.{sure_state, sure_world};
ghost use Rattle.dav_model.specs.Indexes.{AreRowsOfSome};
ghost use Rattle.dav_model.specs.Play.{PlayedOn, Stage, Stepped};
ghost use Rattle.dav_model.specs.Trail.{Move, answers_of, last_of};
ghost use Rattle.dav_model.specs.declared.answer.Answer.{Answer};
ghost use Rattle.dav_model.specs.declared.step.Step.{Step};
ghost use Rattle.dav_fault_laws.specs.Parts.{IsPart};
ghost use Rattle.dav_fault_laws.specs.Whole.{FailByFaults, IsWhole};

use dav_disk::{SureDisk, sure_disks_fail_for_want_of_room};

/// Over any disk: where it refused nothing from the entry of a run to its exit, no answer is a failure (`whole`). In
/// every run an answer is a failure only where a fault was met in its own step (`each`).
pub fn runs_without_faults_are_whole()
    ensures whole { (a b : Stage) (steps : List Step) (old added : List Answer) (result : Result Unit NoMemory)
        → PlayedOn a steps old (old ++ added) result b → RefusedNothing a.at.faults b.at.faults
        → AllByRecursion IsWhole added }
    ensures each { (a b : Stage) (steps : List Step) (old new : List Answer) (result : Result Unit NoMemory)
        (on : PlayedOn a steps old new result b) → FailByFaults a.at on.trail }
{}

/// Over a disk that fails only for want of numbers and times: as long as they are left, no answer is a failure. They are
/// looked for at one moment, as none comes back: behind a step (`step`), at the exit of a run (`run`), or behind any of
/// its steps, of the answers up to there (`each`). The disk may be the one of a later moment too, so its count of faults
/// alone has to be no smaller.
pub fn sure_runs_are_whole(disk: &SureDisk)
    ensures step { (a b : Stage) (step : Step) (answer : Answer) → HasRoom (sure_world disk.now)
        → b.at.faults ≤ (sure_state disk.now).faults → Stepped a step (Ok answer) b → IsWhole answer }
    ensures run { (a b : Stage) (steps : List Step) (old added : List Answer) (result : Result Unit NoMemory)
        → HasRoom (sure_world disk.now) → b.at.faults ≤ (sure_state disk.now).faults
        → PlayedOn a steps old (old ++ added) result b → AllByRecursion IsWhole added }
    ensures each { (a b : Stage) (steps : List Step) (old new : List Answer) (result : Result Unit NoMemory)
        (on : PlayedOn a steps old new result b) (some later : List Move) → on.trail ≡ some ++ later
        → HasRoom (sure_world disk.now) → (last_of a.at some).faults ≤ (sure_state disk.now).faults
        → AllByRecursion IsWhole (answers_of some) }
{
    sure_disks_fail_for_want_of_room(disk);
}

/// Where a disk failed while it was listed, the rows of a page are a part of those that it would have, in their order.
pub fn pages_lack_rows_in_order()
    ensures { (w : World) (dir : WebPath) (some whole : List PageRow) → IsWorld w
        → AreRowsOfSome dir (members w dir.names) some → AreRows dir (members w dir.names) whole
        → IsPart some whole }
{}
