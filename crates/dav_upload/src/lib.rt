//! Uploads: whole or not at all.
#![tactic(auto)]

mod error;
mod laws;
mod leftovers;
mod names;
mod sweeping;
mod upload;

pub use error::UploadError;
pub use laws::{
    edits_keep_bytes, ended_uploads_leave_no_name, hidden_edits_are_unseen, moves_commit,
    pieces_are_held, pieces_stand_behind, reads_leave_uploads, removals_are_unseen,
    sweeps_before_leave_others, tokens_are_hidden, uploads_are_whole, uploads_leave_others,
    uploads_stand_on,
};
pub use leftovers::{left_before, sweep_before, take_each};
pub use names::{is_hidden, is_taken};
pub use sweeping::sweep;
pub use upload::{Upload, abort, begin, commit, piece};
