//! What holds of the definitions alone. Each function has nothing to do, and its contract is the law.
ghost use Rattle.std.specs.Prelude.{◌≡◌, [], ℕ, Option, Result, Some};
ghost use Rattle.dav_io.specs.Outside.{Stream};
ghost use Rattle.dav_io.specs.declared.failure.NoMemory.{NoMemory};
ghost use Rattle.dav_core.specs.Disk.{DiskState};
ghost use Rattle.dav_core.specs.World.{SameBesidesOpens, World};
ghost use Rattle.dav_fetch.specs.Fetching.{visits_of};
ghost use Rattle.dav_fetch.specs.Turning.{AreTurned};
ghost use Rattle.dav_mirror.specs.declared.report.Report.{Report as Told};
ghost use Rattle.dav_mirror.specs.Mirrors.{Lists, Mirrors, StandsStill};

/// Over a disk that tells a world of which nothing is to change, that refused nothing, in which no link is met on the way
/// through what is shown, and whose tree is within the limits of a fetch and has fewer than 1,000,000 visible rows, a mirror
/// writes a line for each visible file, in
/// the order of paths, with status 0; or a front of these, where the sink failed, with 4; or memory is refused.
pub fn a_still_disk_is_mirrored()
    ensures { (before after : DiskState) (old new : Stream) (result : Result ℕ NoMemory) (report : Option Told)
        → Mirrors before after old result new report → (w : World) → StandsStill before after w → Lists w old result new }
{}

/// The worlds of the replies that a mirror got are those of the disk's script: that of the n-th request is the disk's at
/// entry behind n batches of the outside's changes. It is so of each reply that met no link, whatever stands elsewhere.
pub fn worlds_of_a_mirror_are_those_of_the_script()
    ensures { (before after : DiskState) (old new : Stream) (result : Result ℕ NoMemory) (report : Option Told)
        (m : Mirrors before after old result new report) → (v : World) → before.told ≡ Some v
        → AreTurned v 0 (visits_of m.fetched) }
{}

/// Over a disk that tells a world of which nothing is to change, a mirror leaves it: the tree, and the bytes of files that
/// stand or are open. It is so whatever stands there, links too, and however it ends.
pub fn a_mirror_changes_nothing()
    ensures { (before after : DiskState) (old new : Stream) (result : Result ℕ NoMemory) (report : Option Told)
        → Mirrors before after old result new report → (v w : World) → before.told ≡ Some v → after.told ≡ Some w → v.script ≡ []
        → SameBesidesOpens v w }
{}
