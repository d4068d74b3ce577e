//! The places of a shelf, compared with those of a map.
ghost use Rattle.std.specs.Prelude.{◌≡◌, ◌<◌, ◌≤◌, min, length};
ghost use Rattle.links.specs.Shelf.{spot_at};
ghost use Rattle.links.specs.Verdict.{failing};
ghost use Rattle.preset_map.specs.Agreeing.{agreement, is_same_spot};
ghost use Rattle.preset_map.specs.MapLinks.{links_of};

use crate::agreeing::Differs;
use crate::map::Map;
use crate::reading::Records;
use entry::{HasPosition, place};
use plane::Place;

/// The place of entry v of a map.
fn place_of(map: &Map<'_>, v: u32) -> Place
    requires { v < map.now.shape.n }
    ensures { (result.x ≡ (links_of map.now).x v) × (result.y ≡ (links_of map.now).y v) }
{
    Place::new(map.x(v) as u16, map.y(v) as u16).unwrap()
}

/// Whether entry v of a shelf is at the place of the map's.
fn is_at<E: HasPosition>(map: &Map<'_>, shelf: &[E], v: u32) -> bool
    requires counted { v < map.now.shape.n }
    requires within { v < length shelf.now }
    ensures { result ≡ is_same_spot (spot_at E.Scalar.reading E.across E.along shelf.now v) ((links_of map.now).x v) ((links_of map.now).y v) }
{
    let there = place_of(map, v);
    place(&shelf[v as usize]).is_ok_and(|spot| spot == there)
}

/// The lowest entry whose place differs or is missing.
fn lowest_apart<E: HasPosition>(map: &Map<'_>, shelf: &[E]) -> Option<u32>
    requires { map.now.shape.n ≤ length shelf.now }
    ensures { result ≡ failing (links_of map.now).n (λ v. is_same_spot (spot_at E.Scalar.reading E.across E.along shelf.now v) ((links_of map.now).x v) ((links_of map.now).y v)) }
{
    (0..map.shape().n).find(|v| !is_at(map, shelf, *v))
}

/// Compares a shelf with a map: its count as read, then the place of each entry.
pub fn compare_places<E: HasPosition>(
    map: &Map<'_>,
    shelf: &[E],
    count: usize,
) -> Result<(), Differs>
    ensures { result ≡ agreement (links_of map.now) (spot_at E.Scalar.reading E.across E.along shelf.now) (min count (length shelf.now)) }
{
    let counted = count.min(shelf.len());
    if counted != map.shape().n as usize {
        return Err(Differs::Count(counted));
    }
    lowest_apart(map, shelf).map_or(Ok(()), |v| Err(Differs::Place(v)))
}
