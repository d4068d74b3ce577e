//! What settle gives where check refuses.
use crate::map::Map;
use links::CheckFault;

/// Check's fault, and an empty map over the draft's memory.
#[derive(Drop)]
pub struct Refused<'a> {
    pub fault: CheckFault,
    pub map: Map<'a>,
}
