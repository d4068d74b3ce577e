//! Drafts and maps: link tables in lent memory, written freely as a draft, sound as a map.
#![tactic(auto)]

mod agreeing;
mod comparing;
mod draft;
mod filling;
mod map;
mod reading;
mod refused;
mod settling;
mod theorems;

pub use agreeing::Differs;
pub use comparing::compare_places;
pub use draft::{Draft, HalfLinks};
pub use map::Map;
pub use reading::Records;
pub use refused::Refused;
pub use theorems::writes_update_stands;
