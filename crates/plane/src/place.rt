//! A place on the pad.
ghost use Rattle.std.specs.Prelude.{◌≡◌, ◌≤◌, ◌++◌, ◌&&◌, codes, is_some, decimal, IfSome, Some, nat_le};

use std::fmt;

/// Whole numbers from 0 to 16383.
#[derive(Clone, Copy, PartialEq, Eq)]
pub struct Place {
    x: u16,
    y: u16,
    ghost columns: { x ≤ 16383 },
    ghost rows: { y ≤ 16383 },
}

impl Place {
    /// The lowest corner of the pad.
    pub const ORIGIN: Place = Place { x: 0, y: 0 };

    /// The place at x and y; None where one of them is past 16383.
    pub fn new(x: u16, y: u16) -> Option<Place>
        ensures accepted { is_some result ≡ (nat_le x 16383 && nat_le y 16383) }
        ensures kept { IfSome result (λ p. (p.x ≡ x) × (p.y ≡ y)) }
    {
        // Not by `then`: its closure would need a clause that repeats both bounds.
        if x <= 16383 && y <= 16383 {
            Some(Place { x, y })
        } else {
            None
        }
    }

    pub fn x(&self) -> u16
        ensures { result ≡ self.now.x }
    {
        self.x
    }

    pub fn y(&self) -> u16
        ensures { result ≡ self.now.y }
    {
        self.y
    }
}

impl fmt::Display for Place {
    ghost output = { λ p. Some (codes "(" ++ (decimal p.x ++ (codes ", " ++ (decimal p.y ++ codes ")")))) };

    fn fmt<W: fmt::Write>(&self, f: &mut fmt::Formatter<W>) -> fmt::Result {
        write!(f, "({}, {})", self.x, self.y)
    }
}
