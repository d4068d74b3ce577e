//! The place that an entry means.
ghost use Rattle.std.specs.Prelude.{◌≡◌, ℕ, ◌≤◌, IfOk, Ok};
ghost use Rattle.entry.specs.Placing.{on_axis, spot_of, spotted};

use crate::fault::{Axis, EntryFault};
use crate::kind::HasPosition;
use crate::scalar::GridScalar;
use plane::Place;

/// What the scalar reads as, with the axis in a fault.
fn read_on<S: GridScalar>(s: &S, axis: Axis) -> Result<u16, EntryFault>
    ensures value { result ≡ on_axis axis (S.reading s.now) }
    ensures within { IfOk result (λ n. n ≤ 16383) }
{
    s.read().map_err(|cause| EntryFault { axis, cause })
}

/// A number of the grid for the scalar: the one that it reads as, if it has one.
fn grid_on<S: GridScalar>(s: &S) -> u16
    ensures value { (n : ℕ) → S.reading s.now ≡ Ok n → result ≡ n }
    ensures within { result ≤ 16383 }
{
    s.grid().min(16383)
}

/// The place of an entry, or the fault that it has none by.
pub fn place<E: HasPosition>(e: &E) -> Result<Place, EntryFault>
    ensures { spotted result ≡ spot_of E.Scalar.reading (E.across e.now) (E.along e.now) }
{
    let position = e.position();
    let x = read_on(&position.x, Axis::X)?;
    let y = read_on(&position.y, Axis::Y)?;
    Ok(Place::new(x, y).unwrap())
}

/// The place of an entry that is known to have one, without tests; else any place.
pub fn grid_place<E: HasPosition>(e: &E) -> Place
    ensures { (x y : ℕ) → spot_of E.Scalar.reading (E.across e.now) (E.along e.now) ≡ Ok (x, y) → (result.x ≡ x) × (result.y ≡ y) }
{
    let position = e.position();
    Place::new(grid_on(&position.x), grid_on(&position.y)).unwrap()
}
