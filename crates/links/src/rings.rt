//! The cycles of halves: round an entry, and along a face.
ghost use Rattle.std.specs.Prelude.{◌≡◌, ℕ};
ghost use Rattle.links.specs.Links.{Links, ccw, halves as half_count};
ghost use Rattle.links.specs.Views.{held_in};
ghost use Rattle.links.specs.Rings.{Loose, home, lower, own};
ghost use Rattle.links.specs.Tests.{cycle, reaches};
ghost use Rattle.links.specs.Verdict.{failing};

use crate::half::rev;
use crate::search::first_failing;
use crate::tables::{NONE, Tables};

// Crate walk has the same steps as a trait with laws. Here the links need not be sound, so that no law holds.
/// Halves that belong together: whose they are, the step from one to the next, and where the cycle starts.
pub trait Ring {
    ghost step: { Links → ℕ → ℕ };

    ghost owner: { Links → ℕ → ℕ };

    ghost root: { Links → ℕ → ℕ };

    fn step(t: Tables<'_>, h: u32) -> u32
        ensures { result ≡ step (held_in t.entry) h };

    fn owner(t: Tables<'_>, h: u32) -> u32
        ensures { result ≡ owner (held_in t.entry) h };

    fn root(t: Tables<'_>, k: u32) -> u32
        ensures { result ≡ root (held_in t.entry) k };
}

/// The halves with one origin, counterclockwise from its `out_edge`.
pub struct Rotation;

impl Ring for Rotation {
    ghost step = { ccw };

    ghost owner = { λ m. m.origin };

    ghost root = { λ m. m.out };

    fn step(t: Tables<'_>, h: u32) -> u32 {
        rev(t.prev(h))
    }

    fn owner(t: Tables<'_>, h: u32) -> u32 {
        t.origin(h)
    }

    fn root(t: Tables<'_>, v: u32) -> u32 {
        t.out_edge(v)
    }
}

/// The halves of one face, by `next` from its `adjacent_edge`.
pub struct Border;

impl Ring for Border {
    ghost step = { λ m. m.next };

    ghost owner = { λ m. m.face };

    ghost root = { λ m. m.adj };

    fn step(t: Tables<'_>, h: u32) -> u32 {
        t.next(h)
    }

    fn owner(t: Tables<'_>, h: u32) -> u32 {
        t.face(h)
    }

    fn root(t: Tables<'_>, k: u32) -> u32 {
        t.adjacent_edge(k)
    }
}

/// Whether fewer than `bound` steps lead from `s` to `h`.
fn is_reached<R: Ring>(t: Tables<'_>, bound: u32, s: u32, h: u32) -> bool
    ensures { result ≡ reaches (R.Ring.step (held_in t.entry)) bound s h }
{
    let mut at = s;
    for _ in 0..bound {
        if at == h {
            return true;
        }
        at = R::step(t, at);
    }
    false
}

/// Whether the cycle that `h` belongs to, that of `k`, leads to it.
fn is_home<R: Ring>(t: Tables<'_>, k: u32, h: u32) -> bool
    ensures { result ≡ home (R.Ring.step (held_in t.entry)) (half_count (held_in t.entry)) (R.Ring.root (held_in t.entry) k) h }
{
    let s = R::root(t, k);
    s != NONE && is_reached::<R>(t, t.halves(), s, h)
}

/// Whether the cycle of `k` starts at a half of its own, if it starts at all.
fn starts_well<R: Ring>(t: Tables<'_>, k: u32) -> bool
    ensures { result ≡ own (R.Ring.owner (held_in t.entry)) k (R.Ring.root (held_in t.entry) k) }
{
    let s = R::root(t, k);
    s == NONE || R::owner(t, s) == k
}

/// The lowest number below `count` whose cycle does not start well, or else `count`.
fn first_loose<R: Ring>(t: Tables<'_>, count: u32) -> u32
    ensures { Loose (R.Ring.owner (held_in t.entry)) (R.Ring.root (held_in t.entry)) count result }
{
    first_failing(count, |k| starts_well::<R>(t, k)).unwrap_or(count)
}

/// The lower of `low` and the number that `h` belongs to, if the cycle of that does not lead to `h`.
fn lowered<R: Ring>(t: Tables<'_>, low: u32, h: u32) -> u32
    ensures { result ≡ lower low (R.Ring.owner (held_in t.entry) h) (home (R.Ring.step (held_in t.entry)) (half_count (held_in t.entry)) (R.Ring.root (held_in t.entry) (R.Ring.owner (held_in t.entry) h)) h) }
{
    let k = R::owner(t, h);
    if k < low && !is_home::<R>(t, k, h) {
        k
    } else {
        low
    }
}

/// The lowest number below `count` whose halves are not one cycle from its root.
pub fn first_broken<R: Ring>(t: Tables<'_>, count: u32) -> Option<u32>
    ensures { result ≡ failing count (λ k. cycle (held_in t.entry) (R.Ring.step (held_in t.entry)) (R.Ring.owner (held_in t.entry)) k (R.Ring.root (held_in t.entry) k)) }
{
    let mut low = first_loose::<R>(t, count);
    for h in 0..t.halves() {
        low = lowered::<R>(t, low, h);
    }
    (low < count).then_some(low)
}
