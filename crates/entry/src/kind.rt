//! Kinds of entries.
ghost use Rattle.std.specs.Prelude.{◌≡◌, Bool};

use crate::scalar::GridScalar;

/// The two scalars of an entry.
#[derive(Clone, Copy)]
pub struct Position<S> {
    pub x: S,
    pub y: S,
}

/// An entry that has two scalars. They are functions of the entry's value alone.
pub trait HasPosition {
    type Scalar: GridScalar + Copy;

    ghost across: { Self → Self.Scalar };

    ghost along: { Self → Self.Scalar };

    /// The entry's scalars.
    fn position(&self) -> Position<Self::Scalar>
        ensures first { result.x ≡ across self.now }
        ensures second { result.y ≡ along self.now };
}

/// An entry that may have a name.
pub trait Entry: HasPosition {
    ghost is_named: { Self → Bool };

    /// Whether the entry has a name.
    fn is_named(&self) -> bool
        ensures { result ≡ is_named self.now };
}
