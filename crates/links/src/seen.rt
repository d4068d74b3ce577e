//! Tables beside the entries whose places they link, and the clauses on places. What looks at every entry is not inlined: its inner loop then keeps its numbers in registers.
ghost use Rattle.std.specs.Prelude.{◌≡◌, length, None};
ghost use Rattle.links.specs.Shelf.{spot_at};
ghost use Rattle.links.specs.Verdict.{rule2};

use crate::half::rev;
use crate::search::first_failing;
use crate::tables::Tables;
use entry::{HasPosition, grid_place};
use plane::{Place, incircle, is_on_segment, side};

/// As many entries as the tables have, each with a place.
#[derive(Drop)]
pub struct Seen<'a, E: HasPosition> {
    tables: Tables<'a>,
    entries: &'a [E],
    ghost counted: { length entries.now ≡ tables.shape.n },
    ghost placed: { rule2 (length entries.now) (spot_at E.Scalar.reading E.across E.along entries.now) ≡ None },
}

impl<'a, E: HasPosition> Seen<'a, E> {
    ghost use Rattle.std.specs.Prelude.{◌≡◌, ◌*◌, ◌+◌, length, None};
    ghost use Rattle.plane.specs.Spot.{spot as point};
    ghost use Rattle.links.specs.Links.{place};
    ghost use Rattle.links.specs.Rules.{corner0, corner1, corner2, end0, end1};
    ghost use Rattle.links.specs.Shelf.{spot_at};
    ghost use Rattle.links.specs.Tests.{apart, clear, empty, hulled, single, turned, twins};
    ghost use Rattle.links.specs.Verdict.{failing, rule2};
    ghost use Rattle.links.specs.Sight.{links_of};

    pub fn new(tables: Tables<'a>, entries: &'a [E]) -> Seen<'a, E>
        requires counted { length entries.now ≡ tables.shape.n }
        requires placed { rule2 (length entries.now) (spot_at E.Scalar.reading E.across E.along entries.now) ≡ None }
        ensures tables { result.tables ≡ tables.entry }
        ensures entries { result.entries.now ≡ entries.now }
    {
        Seen { tables, entries }
    }

    pub fn tables(&self) -> Tables<'a>
        ensures { result ≡ self.now.tables }
    {
        self.tables
    }

    /// The place of entry v; past the end (0, 0).
    fn spot(&self, v: u32) -> Place
        ensures { point result ≡ place (links_of self.now) v }
    {
        let Some(entry) = self.entries.get(v as usize) else {
            return Place::ORIGIN;
        };
        grid_place(entry)
    }

    /// The places of an edge's ends.
    fn ends(&self, k: u32) -> (Place, Place)
        ensures first { point result.0 ≡ end0 (links_of self.now) k }
        ensures second { point result.1 ≡ end1 (links_of self.now) k }
    {
        let (from, to) = self.tables.ends(k);
        (self.spot(from), self.spot(to))
    }

    /// The places of the origins of h and of the two halves after it.
    fn corners(&self, h: u32) -> (Place, Place, Place)
        ensures first { point result.0 ≡ corner0 (links_of self.now) h }
        ensures second { point result.1 ≡ corner1 (links_of self.now) h }
        ensures third { point result.2 ≡ corner2 (links_of self.now) h }
    {
        let t = self.tables;
        let i = t.next(h);
        let j = t.next(i);
        (
            self.spot(t.origin(h)),
            self.spot(t.origin(i)),
            self.spot(t.origin(j)),
        )
    }

    /// Whether an inner face is a triangle that turns left.
    pub fn is_turned(&self, k: u32) -> bool
        ensures { result ≡ turned (links_of self.now) k }
    {
        if k == 0 {
            return true;
        }
        let t = self.tables;
        let h = t.adjacent_edge(k);
        let (a, b, c) = self.corners(h);
        t.next(h) != h && t.next(t.next(t.next(h))) == h && side(a, b, c) > 0
    }

    /// Whether an edge's ends have different places.
    pub fn is_apart(&self, k: u32) -> bool
        ensures { result ≡ apart (links_of self.now) k }
    {
        let (a, b) = self.ends(k);
        a != b
    }

    /// Whether two edges share both ends.
    fn are_twins(&self, k: u32, l: u32) -> bool
        ensures { result ≡ twins (links_of self.now) k l }
    {
        let (a, b) = self.tables.ends(k);
        let (c, d) = self.tables.ends(l);
        a == c && b == d || a == d && b == c
    }

    /// The lowest edge after k that shares both ends with it.
    #[inline(never)]
    pub fn first_twin(&self, k: u32) -> Option<u32>
        ensures { result ≡ failing self.now.tables.shape.e (single (links_of self.now) k) }
    {
        let after = k.saturating_add(1);
        (after..self.tables.shape().e).find(|l| self.are_twins(k, *l))
    }

    /// The lowest entry that lies on an edge's segment and is no end of it.
    #[inline(never)]
    pub fn first_on(&self, k: u32) -> Option<u32>
        ensures { result ≡ failing self.now.tables.shape.n (clear (links_of self.now) k) }
    {
        let (from, to) = self.tables.ends(k);
        let (a, b) = self.ends(k);
        first_failing(self.tables.shape().n, |v| {
            !is_on_segment(a, b, self.spot(v)) || v == from || v == to
        })
    }

    /// The lowest entry strictly left of a half, if that is in face 0.
    #[inline(never)]
    pub fn first_left(&self, h: u32) -> Option<u32>
        ensures { result ≡ failing self.now.tables.shape.n (hulled (links_of self.now) h) }
    {
        let t = self.tables;
        if t.face(h) != 0 {
            return None;
        }
        let a = self.spot(t.origin(h));
        let b = self.spot(t.origin(rev(h)));
        first_failing(t.shape().n, |v| side(a, b, self.spot(v)) <= 0)
    }

    /// The lowest entry strictly inside the circle of a face, if that is an inner one.
    #[inline(never)]
    pub fn first_inside(&self, k: u32) -> Option<u32>
        ensures { result ≡ failing self.now.tables.shape.n (empty (links_of self.now) k) }
    {
        if k == 0 {
            return None;
        }
        let (a, b, c) = self.corners(self.tables.adjacent_edge(k));
        first_failing(
            self.tables.shape().n,
            |v| incircle(a, b, c, self.spot(v)) <= 0,
        )
    }
}
