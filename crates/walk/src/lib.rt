//! Walks around an entry and along the hull, from both ends.
#![tactic(auto)]

mod handles;
mod reader;
mod steps;
mod theorems;
mod walking;

pub use handles::{from, is_outer_edge, opposite_vertex, to};
pub use reader::Walk;
pub use steps::{Hull, NextBackFn, Rotation};
pub use theorems::{along_hull_stands, around_entry_stands};
pub use walking::{walk_entry, walk_hull};
