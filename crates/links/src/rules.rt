//! The eight rules, clauses in order.
ghost use Rattle.std.specs.Prelude.{◌≡◌, ◌+◌, ◌<◌, ◌≤◌, ◌^◌, not, ◌&&◌, ◌==◌, length};
ghost use Rattle.std.specs.Option.{option_map};
ghost use Rattle.entry.specs.Placing.{spot_of};
ghost use Rattle.links.specs.Links.{halves as half_count};
ghost use Rattle.links.specs.Shelf.{spot_at};
ghost use Rattle.links.specs.declared.fault.Site.TheVariants.{Edge, Entry, Face, Half};
ghost use Rattle.links.specs.Tests.{along, around, half_named, implies, joined, parted, ended, shared, single, twins, undone};
ghost use Rattle.links.specs.Verdict.{broken, each, once, rule1, rule2, rule3, rule4, rule5, rule6, rule7, rule8, told, unplaced};
ghost use Rattle.links.specs.Sight.{links_of};
ghost use Rattle.links.specs.Views.{held_in};

use crate::fault::{CheckFault, Site};
use crate::half::rev;
use crate::rings::{Border, Rotation, first_broken};
use crate::search::{first_failing, first_pair};
use crate::seen::Seen;
use crate::shape::Shape;
use crate::tables::Tables;
use entry::{HasPosition, place};

/// The fault of a clause that fails at a record, if there is one. Rule and clause are the product's own numbers.
fn refuse(rule: u8, clause: u8, at: Option<Site>) -> Result<(), CheckFault>
    ensures { result ≡ told (option_map (broken rule clause) at) }
{
    at.map_or(Ok(()), |site| Err(CheckFault { rule, clause, site }))
}

/// The fault of a clause about no record, where it does not hold.
fn refuse_unless(rule: u8, clause: u8, holds: bool) -> Result<(), CheckFault>
    ensures { result ≡ told (once rule clause holds) }
{
    refuse(rule, clause, (!holds).then_some(Site::Whole))
}

/// Counts, and room for them in the tables and the slice.
pub fn rule_1(words: &[u32], s: Shape, count: usize) -> Result<(), CheckFault>
    ensures { result ≡ told (rule1 words.now s count) }
{
    refuse_unless(1, 1, s.n <= 4096 && s.e <= 12288 && s.f >= 1 && s.f <= 8192)?;
    refuse_unless(1, 2, count == s.n as usize)?;
    refuse_unless(1, 3, s.size() <= words.len())?;
    let roomy = s.n <= s.entries
        && s.e as u64 + s.n as u64 <= s.edges as u64
        && s.f as u64 + s.n as u64 <= s.faces as u64;
    refuse_unless(1, 4, roomy)
}

/// Entry v has a place.
fn try_place<E: HasPosition>(v: u32, entry: &E) -> Result<(), CheckFault>
    ensures { result ≡ told (unplaced v (spot_of E.Scalar.reading (E.across entry.now) (E.along entry.now))) }
{
    refuse(2, 1, place(entry).err().map(|why| Site::Unplaced(v, why)))
}

/// Every entry has a place.
pub fn rule_2<E: HasPosition>(entries: &[E]) -> Result<(), CheckFault>
    requires { length entries.now < 2 ^ 32 }
    ensures { result ≡ told (rule2 (length entries.now) (spot_at E.Scalar.reading E.across E.along entries.now)) }
{
    for (v, entry) in entries.iter().enumerate() {
        try_place(v as u32, entry)?;
    }
    Ok(())
}

/// Whether the four links of a half name existing records.
fn is_half_named(t: Tables<'_>, h: u32) -> bool
    ensures { result ≡ half_named (held_in t.entry) h }
{
    t.next(h) < t.halves()
        && t.prev(h) < t.halves()
        && t.face(h) < t.shape().f
        && t.origin(h) < t.shape().n
}

/// Links name existing records, and are present where they are due.
pub fn rule_3(t: Tables<'_>) -> Result<(), CheckFault>
    ensures { result ≡ told (rule3 (held_in t.entry)) }
{
    let s = t.shape();
    let stray = first_failing(s.n, |v| t.names(t.out_edge(v)));
    refuse(3, 1, stray.map(Site::Entry))?;
    let stray = first_failing(t.halves(), |h| is_half_named(t, h));
    refuse(3, 1, stray.map(Site::Half))?;
    let stray = first_failing(s.f, |k| t.names(t.adjacent_edge(k)));
    refuse(3, 1, stray.map(Site::Face))?;
    let stray = first_failing(s.n, |v| t.is_rooted(t.out_edge(v)));
    refuse(3, 2, stray.map(Site::Entry))?;
    let stray = first_failing(s.f, |k| t.is_rooted(t.adjacent_edge(k)));
    refuse(3, 2, stray.map(Site::Face))
}

// One function for a clause of rule 4: with all of them in one function its proof did not close.
/// `next` and `prev` undo each other.
fn try_undone(t: Tables<'_>) -> Result<(), CheckFault>
    ensures { result ≡ told (each 4 1 Half (half_count (held_in t.entry)) (undone (held_in t.entry))) }
{
    let stray = first_failing(
        t.halves(),
        |h| t.prev(t.next(h)) == h && t.next(t.prev(h)) == h,
    );
    refuse(4, 1, stray.map(Site::Half))
}

/// A half and its `next` share the face.
fn try_shared(t: Tables<'_>) -> Result<(), CheckFault>
    ensures { result ≡ told (each 4 2 Half (half_count (held_in t.entry)) (shared (held_in t.entry))) }
{
    let stray = first_failing(t.halves(), |h| t.face(t.next(h)) == t.face(h));
    refuse(4, 2, stray.map(Site::Half))
}

/// A half leads to the origin of its `next`.
fn try_joined(t: Tables<'_>) -> Result<(), CheckFault>
    ensures { result ≡ told (each 4 3 Half (half_count (held_in t.entry)) (joined (held_in t.entry))) }
{
    let stray = first_failing(t.halves(), |h| t.origin(rev(h)) == t.origin(t.next(h)));
    refuse(4, 3, stray.map(Site::Half))
}

/// The halves with one origin are one cycle from its `out_edge`.
fn try_around(t: Tables<'_>) -> Result<(), CheckFault>
    ensures { result ≡ told (each 4 4 Entry t.entry.shape.n (around (held_in t.entry))) }
{
    refuse(
        4,
        4,
        first_broken::<Rotation>(t, t.shape().n).map(Site::Entry),
    )
}

/// The halves of one face are one cycle from its `adjacent_edge`.
fn try_along(t: Tables<'_>) -> Result<(), CheckFault>
    ensures { result ≡ told (each 4 4 Face t.entry.shape.f (along (held_in t.entry))) }
{
    refuse(4, 4, first_broken::<Border>(t, t.shape().f).map(Site::Face))
}

/// If there is an inner face, an edge's halves lie in different faces.
fn try_parted(t: Tables<'_>) -> Result<(), CheckFault>
    ensures { result ≡ told (each 4 5 Edge t.entry.shape.e (parted (held_in t.entry))) }
{
    let s = t.shape();
    let stray = first_failing(s.e, |k| {
        let (left, right) = t.sides(k);
        s.f <= 1 || left != right
    });
    refuse(4, 5, stray.map(Site::Edge))
}

/// An edge's ends differ.
fn try_ended(t: Tables<'_>) -> Result<(), CheckFault>
    ensures { result ≡ told (each 4 6 Edge t.entry.shape.e (ended (held_in t.entry))) }
{
    let stray = first_failing(t.shape().e, |k| {
        let (from, to) = t.ends(k);
        from != to
    });
    refuse(4, 6, stray.map(Site::Edge))
}

/// Links fit together.
pub fn rule_4(t: Tables<'_>) -> Result<(), CheckFault>
    ensures { result ≡ told (rule4 (held_in t.entry)) }
{
    try_undone(t)?;
    try_shared(t)?;
    try_joined(t)?;
    try_around(t)?;
    try_along(t)?;
    try_parted(t)?;
    try_ended(t)?;
    refuse_unless(4, 7, t.is_euler())
}

/// Inner faces are triangles that turn left.
pub fn rule_5<E: HasPosition>(m: &Seen<'_, E>) -> Result<(), CheckFault>
    ensures { result ≡ told (rule5 (links_of m.now)) }
{
    let stray = first_failing(m.tables().shape().f, |k| m.is_turned(k));
    refuse(5, 1, stray.map(Site::Face))
}

/// Edges join different places, once, with no entry between.
pub fn rule_6<E: HasPosition>(m: &Seen<'_, E>) -> Result<(), CheckFault>
    ensures { result ≡ told (rule6 (links_of m.now)) }
{
    let e = m.tables().shape().e;
    let stray = first_failing(e, |k| m.is_apart(k));
    refuse(6, 1, stray.map(Site::Edge))?;
    let twins = first_pair(e, |k| m.first_twin(k));
    refuse(6, 2, twins.map(|(k, l)| Site::Edges(k, l)))?;
    let touch = first_pair(e, |k| m.first_on(k));
    refuse(6, 3, touch.map(|(k, v)| Site::EdgeEntry(k, v)))
}

/// No entry is outside the hull.
pub fn rule_7<E: HasPosition>(m: &Seen<'_, E>) -> Result<(), CheckFault>
    ensures { result ≡ told (rule7 (links_of m.now)) }
{
    let outside = first_pair(m.tables().halves(), |h| m.first_left(h));
    refuse(7, 1, outside.map(|(h, v)| Site::HalfEntry(h, v)))
}

/// No entry is inside the circle of a face.
pub fn rule_8<E: HasPosition>(m: &Seen<'_, E>) -> Result<(), CheckFault>
    ensures { result ≡ told (rule8 (links_of m.now)) }
{
    let inside = first_pair(m.tables().shape().f, |k| m.first_inside(k));
    refuse(8, 1, inside.map(|(k, v)| Site::FaceEntry(k, v)))
}
