//! What OPTIONS is answered with, and methods that write, over any store.
#![tactic(auto)]

mod carry_plan_laws;
mod carrying;
mod copy_laws;
mod deleting;
mod destination;
mod laws;
mod lines;
mod making;
mod outcomes;
mod overlap;
mod putting;
mod reader_laws;
mod removal_laws;
mod telling;

pub use carry_plan_laws::{copies_follow_their_plan, moves_follow_their_plan};
pub use carrying::{copy, move_to};
pub use copy_laws::copies_are_listed;
pub use dav_conditions::{if_match, ifrange_match};
pub use deleting::delete;
pub use laws::{answers_are_listed, writes_follow_their_plans, writes_lead_on};
pub use making::{mkcalendar, mkcalendar as mkaddressbook, mkcol};
pub use putting::{judge_put, put, put_whole};
pub use reader_laws::reads_follow_their_plan;
pub use removal_laws::{removals_are_listed, removals_follow_their_plan};
pub use telling::{is_among, options};
