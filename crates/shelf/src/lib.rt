//! A shelf: a lent slice of plain copied entries of any one kind, and a count beside it. Both are lent to each call, so they are two parameters.
#![tactic(auto)]

ghost use Rattle.std.specs.Prelude.{◌≡◌, ℕ, ◌<◌, ◌≤◌, true, false, length, if◌then◌else◌, MatchOption, nat_lt, slice_index_or, slice_set};
ghost use Rattle.shelf.specs.Removing.{below, count_after, counted, remaining, removal};

use entry::{Entry, NoRecord};

/// What a removal answers: the entry, and the number that took its place, if one moved.
#[derive(Clone, Copy)]
pub struct Removed<E> {
    pub entry: E,
    pub moved: Option<usize>,
}

/// How many entries are counted.
fn held<E>(shelf: &[E], count: usize) -> usize
    ensures { result ≡ counted shelf.now count }
{
    count.min(shelf.len())
}

/// Removes entry k: it changes places with the last counted entry, and the count falls by 1.
pub fn remove<E: Copy>(
    shelf: &mut [E],
    count: &mut usize,
    k: usize,
) -> Result<Removed<E>, NoRecord<usize>>
    ensures outcome { (d : E) → result ≡ removal shelf.old (counted shelf.old count.old) k d }
    ensures shelf { (d : E) → shelf.new ≡ remaining shelf.old (counted shelf.old count.old) k d }
    ensures count { count.new ≡ count_after count.old (counted shelf.old count.old) k }
{
    let total = held(shelf, *count);
    if k >= total {
        return Err(NoRecord { number: k });
    }
    let last = total - 1;
    let entry = shelf[k];
    shelf.swap(k, last);
    *count = last;
    Ok(Removed {
        entry,
        moved: (k != last).then_some(last),
    })
}

/// Puts a new entry under number k.
pub fn renew<E: Copy>(
    shelf: &mut [E],
    count: usize,
    k: usize,
    entry: E,
) -> Result<(), NoRecord<usize>>
    ensures outcome { result ≡ below k (counted shelf.old count) }
    ensures shelf { shelf.new ≡ (if nat_lt k (counted shelf.old count) then slice_set shelf.old k entry else shelf.old) }
{
    if k >= held(shelf, count) {
        return Err(NoRecord { number: k });
    }
    shelf[k] = entry;
    Ok(())
}

/// Some number of an unnamed entry; none exactly if there is none.
pub fn unnamed<E: Entry>(shelf: &[E], count: usize) -> Option<usize>
    ensures { MatchOption result ((k : ℕ) (d : E) → k < counted shelf.now count → E.is_named (slice_index_or shelf.now k d) ≡ true) (λ k. (k < counted shelf.now count) × ((d : E) → E.is_named (slice_index_or shelf.now k d) ≡ false)) }
{
    shelf[..held(shelf, count)]
        .iter()
        .position(|entry| !entry.is_named())
}
