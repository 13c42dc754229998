//! Disks in memory, which tell their world.
#![tactic(auto)]

mod drawn;
mod faults;
mod indexed_rows;
mod judge;
mod laws;
mod listing;
mod listings;
mod mem_disk;
mod memory;
mod path_call;
mod paths;
mod places;
mod rows;
mod sure_disk;
mod tables;
mod tree;
mod writing;

pub use laws::sure_disks_fail_for_want_of_room;
pub use mem_disk::MemDisk;
pub use sure_disk::SureDisk;
