//! What is known of the disks at any moment, as laws. The calls do nothing.
ghost use Rattle.std.specs.Prelude.{◌≡◌};
ghost use Rattle.dav_disk.specs.Memory.{HasRoom};
ghost use Rattle.dav_disk.specs.Sure.{sure_state, sure_world};

use crate::SureDisk;

/// As long as numbers and times are left no call of it failed.
pub fn sure_disks_fail_for_want_of_room(disk: &SureDisk)
    ensures { HasRoom (sure_world disk.now) → (sure_state disk.now).faults ≡ 0 }
{
    let _lent = disk;
}
