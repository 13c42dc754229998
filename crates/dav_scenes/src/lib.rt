//! What the programs share that play rows of steps: the disk, the settings and the steps that a row sets, and its
//! answers as words.
//!
//! Nothing is promised of either. What a program prints is compared with what it must print.
#![tactic(auto)]

mod answers;
mod cells;
mod scene;
mod steps;

pub use answers::tell;
pub use cells::{bytes_of, number, path_of, tell_bytes, tell_time};
pub use scene::{Room, Scene, Standing, scene_of, set_disk, standing_of};
pub use steps::batch_of;
