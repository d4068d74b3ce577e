//! Places of the pad, the side of a line and the inside of a circle, in exact whole numbers.
#![tactic(auto)]

mod line_side_info;
mod math;
mod offset;
mod place;
pub mod theorems;

pub use line_side_info::LineSideInfo;
pub use math::{
    contained_in_circumference, incircle, is_on_segment, is_ordered_ccw, side, side_query,
};
pub use place::Place;
