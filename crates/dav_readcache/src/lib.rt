//! A store that holds the contents of files by their entity tags.
#![tactic(auto)]

mod cached;
mod keeping;
mod laws;
mod shelf;
mod store;

pub use cached::{CachedFile, Content, Reading};
pub use laws::{
    caches_show_members, entries_stay_sound, held_contents_are_sound, local_files_are_told,
    local_worlds_stay, reads_leave_contents, reads_leave_entries_sound, sound_caches_show,
    sound_contents_show, sound_files_stand, whole_reads_are_sound,
};
pub use shelf::Shelf;
pub use store::ReadCache;
