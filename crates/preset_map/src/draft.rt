//! A draft: link tables that nothing is known of.
use links::Shape;

/// Link tables to be filled; nothing is checked.
#[derive(Drop)]
pub struct Draft<'a> {
    pub(crate) words: &'a mut [u32],
    pub(crate) shape: Shape,
}

/// The four links of a half; any of them may be wrong, or none.
#[derive(Clone, Copy, PartialEq, Eq, Debug)]
pub struct HalfLinks {
    pub next: u32,
    pub prev: u32,
    pub face: u32,
    pub origin: u32,
}
