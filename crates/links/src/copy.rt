//! The places of a shelf, written beside the links.
ghost use Rattle.std.specs.Prelude.{◌≡◌, ◌*◌, ◌≤◌, None, length};
ghost use Rattle.links.specs.Kept.{copied};
ghost use Rattle.links.specs.Shelf.{spot_at};
ghost use Rattle.links.specs.Verdict.{rule2};

use entry::{HasPosition, grid_place};

/// Writes the place of each entry into its record.
pub fn copy_places<E: HasPosition>(words: &mut [u32], entries: &[E])
    requires placed { rule2 (length entries.now) (spot_at E.Scalar.reading E.across E.along entries.now) ≡ None }
    requires few { 3 * length entries.now ≤ length words.old }
    ensures { words.new ≡ copied words.old (spot_at E.Scalar.reading E.across E.along entries.now) (length entries.now) }
{
    for (v, entry) in entries.iter().enumerate() {
        let spot = grid_place(entry);
        words[3 * v] = spot.x() as u32;
        words[3 * v + 1] = spot.y() as u32;
    }
}
