//! The check of a draft's tables against a shelf. Slice and count of a shelf are the host's, lent to each call: they come as two parameters.
ghost use Rattle.std.specs.Prelude.{◌≡◌, ◌≤◌, ◌↔◌, None, length, take, Ok};
ghost use Rattle.std.specs.Option.{option_or};
ghost use Rattle.links.specs.Shelf.{answer, FitsShelf, seen, spot_at};
ghost use Rattle.links.specs.Tables.{size};
ghost use Rattle.links.specs.Verdict.{link_rules, place_rules, rule2, told};
ghost use Rattle.links.specs.Sight.{links_of};
ghost use Rattle.links.specs.Views.{seen_in};

use crate::fault::CheckFault;
use crate::rules::{rule_1, rule_2, rule_3, rule_4, rule_5, rule_6, rule_7, rule_8};
use crate::seen::Seen;
use crate::shape::Shape;
use crate::tables::Tables;
use entry::HasPosition;

/// The rules on places.
fn check_places<E: HasPosition>(m: &Seen<'_, E>) -> Result<(), CheckFault>
    ensures { result ≡ told (place_rules (links_of m.now)) }
{
    rule_5(m)?;
    rule_6(m)?;
    rule_7(m)?;
    rule_8(m)
}

/// The rules of links and places.
fn check_links<E: HasPosition>(t: Tables<'_>, entries: &[E]) -> Result<(), CheckFault>
    requires counted { length entries.now ≡ t.shape.n }
    requires placed { rule2 (length entries.now) (spot_at E.Scalar.reading E.across E.along entries.now) ≡ None }
    ensures { result ≡ told (link_rules (seen_in E.Scalar.reading E.across E.along t.entry entries.now)) }
{
    rule_3(t)?;
    rule_4(t)?;
    check_places(&Seen::new(t, entries))
}

/// The rules after the first, once there is room.
// What rule 1 found is asked here, just before the types that keep it are made.
fn check_entries<E: HasPosition>(
    words: &[u32],
    shape: Shape,
    entries: &[E],
) -> Result<(), CheckFault>
    requires holds { size shape ≤ length words.now }
    requires small { (shape.n ≤ 4096) × ((shape.e ≤ 12288) × (shape.f ≤ 8192)) }
    requires counted { length entries.now ≡ shape.n }
    ensures { result ≡ told (option_or (rule2 (length entries.now) (spot_at E.Scalar.reading E.across E.along entries.now)) (link_rules (seen E.Scalar.reading E.across E.along words.now shape entries.now))) }
{
    rule_2(entries)?;
    check_links(Tables::new(words, shape), entries)
}

/// The first n entries of a shelf.
pub fn first_entries<E>(shelf: &[E], n: usize) -> &[E]
    requires { n ≤ length shelf.now }
    ensures items { result.now ≡ take n shelf.now }
    ensures len { length result.now ≡ n }
{
    &shelf[..n]
}

/// The rules in order.
fn judge<E: HasPosition>(
    words: &[u32],
    shape: Shape,
    shelf: &[E],
    count: usize,
) -> Result<(), CheckFault>
    ensures { result ≡ told (answer E.Scalar.reading E.across E.along words.now shape shelf.now count) }
{
    rule_1(words, shape, count.min(shelf.len()))?;
    check_entries(words, shape, first_entries(shelf, shape.n as usize))
}

/// Judges link tables with a shelf: `Ok` exactly if they are sound, else the first clause that fails.
pub fn check<E: HasPosition>(
    words: &[u32],
    shape: Shape,
    shelf: &[E],
    count: usize,
) -> Result<(), CheckFault>
    ensures outcome { result ≡ told (answer E.Scalar.reading E.across E.along words.now shape shelf.now count) }
    ensures law { (result ≡ Ok tt) ↔ FitsShelf E.Scalar.reading E.across E.along words.now shape shelf.now count }
{
    judge(words, shape, shelf, count)
}
