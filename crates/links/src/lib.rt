//! Link tables in lent memory, the eight rules, and the check.
#![tactic(auto)]

mod checking;
mod copy;
mod fault;
mod half;
mod rings;
mod rules;
mod search;
mod seen;
mod settle;
mod shape;
mod tables;
mod theorems;

pub use checking::check;
pub use fault::{CheckFault, FaultNumbers, Site};
pub use half::rev;
pub use settle::settle_tables;
pub use shape::Shape;
pub use tables::{NONE, look};
pub use theorems::{accepted_if_sound_stands, worked_maps_stands};
