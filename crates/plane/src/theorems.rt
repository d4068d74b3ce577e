//! Each function's contract is a theorem.
ghost use Rattle.plane.specs.Holds.{SameSide};
ghost use Rattle.plane.specs.Worked.{WorkedValues};
ghost use Rattle.plane.specs.Identities.{SideLaws, CircleLaws, Multilinear, Alternating, Lifted, Five, FivePoints, Three, SectorVectors, SectorPoints, FlipMeasure};
ghost use Rattle.plane.specs.Signs.{Bounds, Mean, Pencil, Flip, Chord, Sector, Tie, Outward, Broken, Border};

/// four values by computation
pub fn worked_values_stands()
    ensures { WorkedValues }
{}

/// == and != of two sides go by the whole numbers that they hold
pub fn same_side_stands()
    ensures { SameSide }
{}

/// sides turn, change sign and add
pub fn side_laws_stands()
    ensures { SideLaws }
{}

/// circles alternate
pub fn circle_laws_stands()
    ensures { CircleLaws }
{}

/// the determinant is linear in each row
pub fn multilinear_stands()
    ensures { Multilinear }
{}

/// the determinant alternates
pub fn alternating_stands()
    ensures { Alternating }
{}

/// circles and sides are values of one determinant
pub fn lifted_stands()
    ensures { Lifted }
{}

/// five vectors depend, and so do the circles of five points
pub fn five_stands()
    ensures vectors { Five }
    ensures points { FivePoints }
{}

/// the relation of three terms
pub fn three_stands()
    ensures { Three }
{}

/// a point by two others, its origin and infinity
pub fn sector_form_stands()
    ensures vectors { SectorVectors }
    ensures points { SectorPoints }
{}

/// a flip lowers the measure
pub fn flip_measure_stands()
    ensures { FlipMeasure }
{}

/// sides and circles of places are small
pub fn bounds_stands()
    ensures { Bounds }
{}

/// means of points
pub fn mean_stands()
    ensures { Mean }
{}

/// circles through two points
pub fn pencil_stands()
    ensures { Pencil }
{}

/// a flip keeps faces turning left
pub fn flip_stands()
    ensures { Flip }
{}

/// a point on a chord is inside the circle
pub fn chord_stands()
    ensures { Chord }
{}

/// a point in a sector lies beyond its side
pub fn sector_stands()
    ensures { Sector }
{}

/// four points on a circle
pub fn tie_stands()
    ensures { Tie }
{}

/// the circles of a ring turn outward
pub fn outward_stands()
    ensures { Outward }
{}

/// ties are broken by sides
pub fn broken_stands()
    ensures { Broken }
{}

/// the border of a hole stays legal
pub fn border_stands()
    ensures { Border }
{}
