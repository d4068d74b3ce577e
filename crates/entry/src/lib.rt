//! What an entry of a shelf means: a place of the grid, or why it has none.
#![tactic(auto)]

pub mod fault;
pub mod kind;
pub mod name;
pub mod placing;
pub mod point;
pub mod preset;
pub mod scalar;

pub use fault::{Axis, Cause, EntryFault, NoRecord};
pub use kind::{Entry, HasPosition, Position};
pub use name::{Name, pack_name};
pub use placing::{grid_place, place};
pub use point::Point2;
pub use preset::{Preset, Setting};
pub use scalar::GridScalar;
