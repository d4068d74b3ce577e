//! Sides and circles of places.
ghost use Rattle.std.specs.Prelude.{◌≡◌, ◌^◌, ◌<◌, ◌≤◌, pos, int_le, int_lt, unsigned_abs};
ghost use Rattle.plane.specs.Plane.{S, C, on_segment};
ghost use Rattle.plane.specs.Spot.{spot};
ghost use Rattle.plane.specs.Holds.{Holds};

use crate::line_side_info::LineSideInfo;
use crate::offset::Offset;
use crate::place::Place;

/// Twice the area of the triangle a, b, q: positive where q is left of the way from a to b, 0 where it is on the line.
pub fn side(a: Place, b: Place, q: Place) -> i64
    ensures value { result ≡ S (spot a) (spot b) (spot q) }
    ensures small { unsigned_abs result ≤ 268402689 }
{
    Offset::between(a, b).cross(Offset::between(a, q))
}

/// Positive where d is inside the circle through a, b, c, which turn left; 0 where it is on it.
#[tactic(auto, using(crate::proofs::Offsets::one_fits, crate::proofs::Offsets::two_fit, crate::proofs::Offsets::three_fit))]
pub fn incircle(a: Place, b: Place, c: Place, d: Place) -> i64
    ensures value { result ≡ C (spot a) (spot b) (spot c) (spot d) }
    ensures small { unsigned_abs result < 2 ^ 60 }
{
    let to_a = Offset::between(d, a);
    let to_b = Offset::between(d, b);
    let to_c = Offset::between(d, c);
    to_a.square() * to_b.cross(to_c)
        + to_b.square() * to_c.cross(to_a)
        + to_c.square() * to_a.cross(to_b)
}

/// On which side of the way from a to b the place q lies.
pub fn side_query(a: Place, b: Place, q: Place) -> LineSideInfo
    ensures value { Holds result (S (spot a) (spot b) (spot q)) }
    ensures small { unsigned_abs (S (spot a) (spot b) (spot q)) ≤ 268402689 }
{
    LineSideInfo::from_determinant(side(a, b, q))
}

/// Whether a, b, q turn left or lie on a line.
pub fn is_ordered_ccw(a: Place, b: Place, q: Place) -> bool
    ensures { result ≡ int_le (pos 0) (S (spot a) (spot b) (spot q)) }
{
    side_query(a, b, q).is_on_left_side_or_on_line()
}

/// Whether d is strictly inside the circle through a, b, c, where those turn left.
pub fn contained_in_circumference(a: Place, b: Place, c: Place, d: Place) -> bool
    ensures { result ≡ int_lt (pos 0) (C (spot a) (spot b) (spot c) (spot d)) }
{
    incircle(a, b, c, d) > 0
}

/// Whether q lies on the segment from a to b, ends included.
pub fn is_on_segment(a: Place, b: Place, q: Place) -> bool
    ensures { result ≡ on_segment (spot a) (spot b) (spot q) }
{
    side(a, b, q) == 0 && Offset::between(q, a).dot(Offset::between(q, b)) <= 0
}
