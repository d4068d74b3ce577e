//! A sound map over lent memory.
ghost use Rattle.links.specs.Kept.{Kept};

use links::Shape;

/// Link tables and places that obey the rules. Every map that exists is sound.
#[derive(Drop)]
pub struct Map<'a> {
    pub(crate) words: &'a mut [u32],
    pub(crate) shape: Shape,
    ghost sound: { ∥ Kept words.now shape ∥₁ },
}
