//! Each function's contract is a theorem.
ghost use Rattle.walk.specs.Theorems.{AlongHull, AroundEntry};

/// Steps from both ends of a walk from an entry, in any mixture, hand out each half with that origin once, then none.
pub fn around_entry_stands()
    ensures { AroundEntry }
{}

/// Steps from both ends of the hull walk, in any mixture, hand out each half in face 0 once, then none.
pub fn along_hull_stands()
    ensures { AlongHull }
{}
