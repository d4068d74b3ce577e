//! From a draft to a map, and back.
ghost use Rattle.std.specs.Prelude.{◌≡◌, ◌↔◌, take, Ok};
ghost use Rattle.links.specs.Kept.{shape_after_check, words_after_check};
ghost use Rattle.links.specs.Shelf.{answer, FitsShelf, spot_at};
ghost use Rattle.links.specs.Verdict.{told};
ghost use Rattle.preset_map.specs.Settled.{map_of, verdict_of};

use crate::draft::Draft;
use crate::map::Map;
use crate::refused::Refused;
use entry::HasPosition;
use links::{CheckFault, check, settle_tables};

impl<'a> Draft<'a> {
    /// Judges the draft with a shelf: `Ok` exactly if they are sound, else the first clause that fails.
    pub fn check<E: HasPosition>(&self, shelf: &[E], count: usize) -> Result<(), CheckFault>
        ensures outcome { result ≡ told (answer E.Scalar.reading E.across E.along self.now.words.now self.now.shape shelf.now count) }
        ensures law { (result ≡ Ok tt) ↔ FitsShelf E.Scalar.reading E.across E.along self.now.words.now self.now.shape shelf.now count }
    {
        check(self.words, self.shape, shelf, count)
    }

    /// Uses the draft up: a map with the shelf's places where check accepts it, else check's fault beside an empty map.
    pub fn settle<E: HasPosition>(self, shelf: &[E], count: usize) -> Result<Map<'a>, Refused<'a>>
        ensures outcome { verdict_of result ≡ told (answer E.Scalar.reading E.across E.along self.entry.words.now self.entry.shape shelf.now count) }
        ensures words { (map_of result).words.now ≡ words_after_check (verdict_of result) self.entry.words.now (spot_at E.Scalar.reading E.across E.along (take self.entry.shape.n shelf.now)) self.entry.shape.n }
        ensures shape { (map_of result).shape ≡ shape_after_check (verdict_of result) self.entry.shape }
    {
        let Draft { words, shape } = self;
        match settle_tables(words, shape, shelf, count) {
            Ok(()) => Ok(Map { words, shape }),
            Err(fault) => {
                let shape = shape.emptied();
                let map = Map { words, shape };
                Err(Refused { fault, map })
            }
        }
    }
}

impl<'a> Map<'a> {
    /// Gives the draft back, tables unchanged.
    pub fn reopen(self) -> Draft<'a>
        ensures words { result.words.now ≡ self.entry.words.now }
        ensures shape { result.shape ≡ self.entry.shape }
    {
        let Map { words, shape } = self;
        Draft { words, shape }
    }
}
