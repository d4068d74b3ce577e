//! What follows from the rules of a map: edges do not cross, and how the halves stand around an entry. Each function's contract is a theorem.
#![tactic(auto)]

ghost use Rattle.planar.specs.Planarity.{Planar};
ghost use Rattle.planar.specs.Star.{PlacesDiffer, SpokesDiffer, OneOuter, Rings, Borders, Soon, ThreeHalves, StarFaces, CornersDiffer, ThreeSpokes, Ordered, Surrounded, Fans, Wedge, OneLine, TwoSpokes, EndsDiffer, OnePath, JoinedLine};
ghost use Rattle.planar.specs.Convex.{StarEmpty, ConvexInside, ConvexHull, Weighs, Strict};
ghost use Rattle.planar.specs.Enough.{EdgesDiffer, SidesDiffer, Sixth, Enough, EnoughLine, EnoughEmpty, BothOuter};
ghost use Rattle.planar.specs.Moved.{Renames};

/// At each entry, every direction lies in at most one sector.
pub fn planar_stands()
    ensures { Planar }
{}

/// No two entries of a sound map are at one place.
pub fn places_differ_stands()
    ensures { PlacesDiffer }
{}

/// No two spokes of an entry have one end.
pub fn ends_differ_stands()
    ensures { EndsDiffer }
{}

/// No two spokes of an entry lie in one direction.
pub fn spokes_differ_stands()
    ensures { SpokesDiffer }
{}

/// Where there is an inner face, an entry has at most one outer spoke.
pub fn one_outer_stands()
    ensures { OneOuter }
{}

/// From each half the spokes of its origin are walked once, counterclockwise.
pub fn rings_stands()
    ensures { Rings }
{}

/// From each half the halves of its face are walked once.
pub fn borders_stands()
    ensures { Borders }
{}

/// The cycles of rule 4 come around in fewer steps than there are halves.
pub fn soon_stands()
    ensures { Soon }
{}

/// An inner face has three halves.
pub fn three_halves_stands()
    ensures { ThreeHalves }
{}

/// The inner face left of a spoke returns along the next spoke.
pub fn star_faces_stands()
    ensures { StarFaces }
{}

/// An entry is a corner of an inner face once at most.
pub fn corners_differ_stands()
    ensures { CornersDiffer }
{}

/// An inner entry has three spokes at least.
pub fn three_spokes_stands()
    ensures { ThreeSpokes }
{}

/// The spokes of an inner entry stand in one counterclockwise order.
pub fn ordered_stands()
    ensures { Ordered }
{}

/// Every direction from an inner entry lies in a sector.
pub fn surrounded_stands()
    ensures { Surrounded }
{}

/// The spokes of an entry of the hull, two at least, are a fan that turns left, and every entry lies in it.
pub fn fans_stands()
    ensures { Fans }
{}

/// Between the two outer edges of an entry of the hull lie all entries.
pub fn wedge_stands()
    ensures { Wedge }
{}

/// Without an inner face all entries are on one line.
pub fn one_line_stands()
    ensures { OneLine }
{}

/// And each has two spokes at most.
pub fn two_spokes_stands()
    ensures { TwoSpokes }
{}

/// The edges are then a path.
pub fn one_path_stands()
    ensures { OnePath }
{}

/// Two edges of a line, taken as one, have no entry on them but their own.
pub fn joined_line_stands()
    ensures { JoinedLine }
{}

/// No entry is inside the circle of an entry and two neighbouring tips.
pub fn star_empty_stands()
    ensures { StarEmpty }
{}

/// The tips around an inner entry are in strictly convex position, seen through an inversion about it.
pub fn convex_inside_stands()
    ensures { ConvexInside }
{}

/// So are those of a fan on the hull.
pub fn convex_hull_stands()
    ensures { ConvexHull }
{}

/// Convex position is the sign of one number, with a weight above every side.
pub fn weighs_stands()
    ensures { Weighs }
{}

/// On the grid that weight is one number.
pub fn strict_stands()
    ensures { Strict }
{}

/// No two edges share both ends, if no two outer halves do.
pub fn edges_differ_stands()
    ensures { EdgesDiffer }
{}

/// The sides of an edge are different faces, where there is an inner one.
pub fn sides_differ_stands()
    ensures { SidesDiffer }
{}

/// An edge with both sides outer has all entries on its line.
pub fn both_outer_stands()
    ensures { BothOuter }
{}

/// Rule 6 follows from the others, but for two outer halves with the same ends.
pub fn sixth_stands()
    ensures { Sixth }
{}

/// What is left to show of a map with an inner face.
pub fn enough_stands()
    ensures { Enough }
{}

/// What is left to show of a map without an inner face.
pub fn enough_line_stands()
    ensures { EnoughLine }
{}

/// What is left to show of a map without an entry.
pub fn enough_empty_stands()
    ensures { EnoughEmpty }
{}

/// What holds of the live records of a map holds of them under new numbers.
pub fn renames_stands()
    ensures { Renames }
{}
