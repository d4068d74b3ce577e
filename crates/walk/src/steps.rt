//! Steps from half to half: each is undone by another.
ghost use Rattle.std.specs.Prelude.{◌≡◌, ℕ, ◌<◌};
ghost use Rattle.links.specs.Links.{Links, ccw, cw, halves};
ghost use Rattle.links.specs.Rules.{Sound};
ghost use Rattle.preset_map.specs.MapLinks.{links_of};
ghost use Rattle.planar.proofs.Rings.{cw_ccw, ccw_cw};
ghost use Rattle.planar.proofs.Views.{ranges_of, weave_of};

use links::rev;
use preset_map::{Map, Records};

// Crate links has such steps too, of tables that need not be sound: no law holds there.
/// A rearrangement of a map's halves: `next` and `next_back` undo each other.
pub trait NextBackFn {
    ghost step: { Links → ℕ → ℕ };

    ghost back: { Links → ℕ → ℕ };

    fn next(map: &Map<'_>, h: u32) -> u32
        ensures { result ≡ step (links_of map.now) h };

    fn next_back(map: &Map<'_>, h: u32) -> u32
        ensures { result ≡ back (links_of map.now) h };

    ghost undone: { (m : Links) (h : ℕ) → Sound m → h < halves m → back m (step m h) ≡ h };

    ghost redone: { (m : Links) (h : ℕ) → Sound m → h < halves m → step m (back m h) ≡ h };
}

/// Counterclockwise about an entry.
pub struct Rotation;

impl NextBackFn for Rotation {
    ghost step = { ccw };

    ghost back = { cw };

    ghost undone = { λ m h s l. cw_ccw m (ranges_of m s) (weave_of m s) h l };

    ghost redone = { λ m h s l. ccw_cw m (ranges_of m s) (weave_of m s) h l };

    fn next(map: &Map<'_>, h: u32) -> u32 {
        rev(map.prev(h))
    }

    fn next_back(map: &Map<'_>, h: u32) -> u32 {
        map.next(rev(h))
    }
}

/// Along the outer face.
pub struct Hull;

impl NextBackFn for Hull {
    ghost step = { λ m. m.next };

    ghost back = { λ m. m.prev };

    ghost undone = { λ m h s l. (s.undone h l).0 };

    ghost redone = { λ m h s l. (s.undone h l).1 };

    fn next(map: &Map<'_>, h: u32) -> u32 {
        map.next(h)
    }

    fn next_back(map: &Map<'_>, h: u32) -> u32 {
        map.prev(h)
    }
}
