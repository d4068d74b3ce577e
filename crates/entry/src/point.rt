//! Points without a name.
ghost use Rattle.std.specs.Prelude.{false};

use crate::kind::{Entry, HasPosition, Position};

/// A point with two floats. It never has a name.
#[derive(Clone, Copy)]
pub struct Point2 {
    pub x: f64,
    pub y: f64,
}

impl HasPosition for Point2 {
    type Scalar = f64;

    ghost across = { λ p. p.x };

    ghost along = { λ p. p.y };

    fn position(&self) -> Position<f64> {
        Position {
            x: self.x,
            y: self.y,
        }
    }
}

impl Entry for Point2 {
    ghost is_named = { λ _. false };

    fn is_named(&self) -> bool {
        false
    }
}
