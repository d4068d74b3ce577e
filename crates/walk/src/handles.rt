//! Small questions about a half of a map.
ghost use Rattle.std.specs.Prelude.{◌≡◌, nat_lt};
ghost use Rattle.links.specs.Links.{halves};
ghost use Rattle.preset_map.specs.MapLinks.{links_of};
ghost use Rattle.walk.specs.Handles.{from_of, is_outer, opposite_of, to_of};

use links::rev;
use preset_map::{Map, Records};

/// Whether the map has this half.
pub(crate) fn has_half(map: &Map<'_>, h: u32) -> bool
    ensures { result ≡ nat_lt h (halves (links_of map.now)) }
{
    (h as u64) < 2 * map.shape().e as u64
}

/// Whether a half lies in the outer face.
pub fn is_outer_edge(map: &Map<'_>, h: u32) -> bool
    ensures { result ≡ is_outer (links_of map.now) h }
{
    has_half(map, h) && map.face(h) == 0
}

/// The entry that a half comes from; none where the map lacks it.
pub fn from(map: &Map<'_>, h: u32) -> Option<u32>
    ensures { result ≡ from_of (links_of map.now) h }
{
    if !has_half(map, h) {
        return None;
    }
    Some(map.origin(h))
}

/// The entry that a half leads to; none where the map lacks it.
pub fn to(map: &Map<'_>, h: u32) -> Option<u32>
    ensures { result ≡ to_of (links_of map.now) h }
{
    if !has_half(map, h) {
        return None;
    }
    Some(map.origin(rev(h)))
}

/// The entry across the face of a half; none for an outer half, and where the map lacks it.
pub fn opposite_vertex(map: &Map<'_>, h: u32) -> Option<u32>
    ensures { result ≡ opposite_of (links_of map.now) h }
{
    if !has_half(map, h) || map.face(h) == 0 {
        return None;
    }
    Some(map.origin(map.prev(h)))
}
