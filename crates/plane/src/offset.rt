//! The way from one place to another, in whole numbers.
ghost use Rattle.std.specs.Prelude.{◌≡◌, ◌≤◌, ℤ, pos, ◌+ℤ◌, ◌-ℤ◌, ◌*ℤ◌, unsigned_abs};
ghost use Rattle.plane.specs.Plane.{sq};

use crate::place::Place;

/// So far across and so far up, either way at most the pad's side.
#[derive(Clone, Copy)]
pub(crate) struct Offset {
    x: i64,
    y: i64,
    ghost columns: { unsigned_abs x ≤ 16383 },
    ghost rows: { unsigned_abs y ≤ 16383 },
}

impl Offset {
    /// The way from `start` to `end`.
    // No `Sub` of places: its `Output` would have to be as public as `Place`.
    pub(crate) fn between(start: Place, end: Place) -> Offset
        ensures across { result.x ≡ pos end.x -ℤ pos start.x }
        ensures along { result.y ≡ pos end.y -ℤ pos start.y }
    {
        Offset {
            x: i64::from(end.x()) - i64::from(start.x()),
            y: i64::from(end.y()) - i64::from(start.y()),
        }
    }

    /// Positive where `other` turns left from this way.
    pub(crate) fn cross(self, other: Offset) -> i64
        ensures value { result ≡ self.x *ℤ other.y -ℤ self.y *ℤ other.x }
        ensures small { unsigned_abs result ≤ 536805378 }
    {
        self.x * other.y - self.y * other.x
    }

    /// Positive where `other` goes less than a quarter turn away from this way.
    pub(crate) fn dot(self, other: Offset) -> i64
        ensures value { result ≡ self.x *ℤ other.x +ℤ self.y *ℤ other.y }
        ensures small { unsigned_abs result ≤ 536805378 }
    {
        self.x * other.x + self.y * other.y
    }

    /// The square of its length.
    pub(crate) fn square(self) -> i64
        ensures value { result ≡ sq self.x self.y }
        ensures small { unsigned_abs result ≤ 536805378 }
    {
        self.dot(self)
    }
}
