//! Settling: tables that are judged, and completed by the places of the shelf.
ghost use Rattle.std.specs.Prelude.{◌≡◌, take};
ghost use Rattle.links.specs.Kept.{Kept, shape_after_check, words_after_check};
ghost use Rattle.links.specs.Shelf.{answer, spot_at};
ghost use Rattle.links.specs.Verdict.{told};

use crate::checking::{check, first_entries};
use crate::copy::copy_places;
use crate::fault::CheckFault;
use crate::shape::Shape;
use entry::HasPosition;

/// Judges tables with a shelf, and writes the shelf's places beside the links where they are accepted.
pub fn settle_tables<E: HasPosition>(
    words: &mut [u32],
    shape: Shape,
    shelf: &[E],
    count: usize,
) -> Result<(), CheckFault>
    ensures outcome { result ≡ told (answer E.Scalar.reading E.across E.along words.old shape shelf.now count) }
    ensures words { words.new ≡ words_after_check result words.old (spot_at E.Scalar.reading E.across E.along (take shape.n shelf.now)) shape.n }
    ensures sound { ∥ Kept words.new (shape_after_check result shape) ∥₁ }
{
    check(words, shape, shelf, count)?;
    copy_places(words, first_entries(shelf, shape.n as usize));
    Ok(())
}
