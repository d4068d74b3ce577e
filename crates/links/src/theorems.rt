//! Each function's contract is a theorem.
ghost use Rattle.links.specs.Law.{AcceptedIfSound};
ghost use Rattle.links.specs.Worked.{WorkedMaps};

/// A draft is accepted exactly if there is room, every entry has a place, and links and places are sound.
pub fn accepted_if_sound_stands()
    ensures { AcceptedIfSound }
{}

/// The square is sound with either diagonal, a line is, and a skew map is refused by rule 8.
pub fn worked_maps_stands()
    ensures { WorkedMaps }
{}
