// The shelf that a script fills, the count that goes with it, and what commands tell of them.
ghost use Rattle.std.specs.Prelude.{◌≡◌, ◌≤◌, ◌↔◌, [], ◌∷◌, ◌++◌, ℕ, length, OnOk};
ghost use Rattle.pad.specs.declared.script.Words.{Words};
ghost use Rattle.pad.specs.Counting.{count_or};
ghost use Rattle.pad.specs.Entries.{TakesWhere};
ghost use Rattle.pad.specs.Spelling.{WritesNumber};
ghost use Rattle.pad.specs.Troubles.{OnBadLine};

use crate::command::OnShelf;
use crate::complaint::{NoSpot, Trouble};
use crate::kind::Written;
use crate::script::Words;
use crate::shown::Outcome;
use entry::place;
use plane::{Place, contained_in_circumference, incircle, side, side_query};
use shelf::unnamed;
use std::{fmt, io};

/// A shelf of one kind of entry, with the count beside it where a script has set one.
#[derive(Drop)]
pub struct Bench<'r, E: Written> {
    rt: &'r HostRuntime,
    entries: Vec<E>,
    count: Option<usize>,
}

/// The place of an entry, and whether it is named.
#[derive(Clone, Copy)]
struct Placed {
    place: Place,
    is_named: bool,
}

impl fmt::Display for Placed {
    fn fmt<W: fmt::Write>(&self, f: &mut fmt::Formatter<W>) -> fmt::Result {
        let named = if self.is_named { "named" } else { "not named" };
        write!(f, "place {}, {named}", self.place)
    }
}

/// An entry in a list: its place or why it has none, and what else it has.
#[derive(Clone, Copy)]
struct Listed<E>(E);

impl<E: Written> fmt::Display for Listed<E> {
    fn fmt<W: fmt::Write>(&self, f: &mut fmt::Formatter<W>) -> fmt::Result {
        match place(&self.0) {
            Ok(spot) => write!(f, "place {spot}, ")?,
            Err(fault) => write!(f, "no place, {fault}, ")?,
        }
        self.0.details(f)
    }
}

impl<'r, E: Written> Bench<'r, E> {
    /// An empty shelf.
    pub fn new(rt: &'r HostRuntime) -> Bench<'r, E>
        ensures entries { result.entries.items ≡ [] }
        ensures count { result.count ≡ None }
    {
        Bench {
            rt,
            entries: Vec::new(rt.alloc()),
            count: None,
        }
    }

    pub fn entries(&self) -> &[E]
        ensures { result.now ≡ self.now.entries.items }
    {
        self.entries.as_slice()
    }

    /// The count that was set, or the number of entries.
    pub fn counted(&self) -> usize
        ensures { result ≡ count_or self.now.count (length self.now.entries.items) }
    {
        self.count.unwrap_or(self.entries.len())
    }

    /// Plays a command on the shelf.
    pub fn play<'a>(&mut self, command: OnShelf, words: &mut Words<'a>) -> Result<(), Trouble<'a>>
        ensures { OnBadLine result (self.new ≡ self.old) }
    {
        match command {
            OnShelf::Entry => self.add_entry(words)?,
            OnShelf::Side => self.tell_side(words)?,
            OnShelf::Circle => self.tell_circle(words)?,
            OnShelf::Count => self.set_count(words)?,
            OnShelf::List => {
                words.end()?;
                self.list()?;
            }
            OnShelf::Unnamed => {
                words.end()?;
                self.tell_unnamed()?;
            }
        }
        Ok(())
    }

    /// `entry ..`: puts an entry on the shelf, with a place or without one.
    fn add_entry<'a>(&mut self, words: &mut Words<'a>) -> Result<(), Trouble<'a>>
        ensures added { OnOk result ((entry : E) × (after : Words) × E.describes words.old entry after × (self.new.entries.items ≡ self.old.entries.items ++ entry ∷ [])) }
        ensures count { self.new.count ≡ self.old.count }
        ensures bad_line { OnBadLine result (self.new ≡ self.old) }
    {
        let entry = E::read(words)?;
        words.end()?;
        let number = self.entries.len();
        self.entries.push(entry)?;
        let placed = place(&entry).map(|place| Placed {
            place,
            is_named: entry.is_named(),
        });
        println!(self.rt; "entry {number}: {}", Outcome(placed))?;
        Ok(())
    }

    /// The place of the entry of this number.
    fn spot(&self, number: usize) -> Result<Place, NoSpot>
        ensures { (result ≡ Err (NoSpot.NoEntry number)) ↔ (length self.now.entries.items ≤ number) }
    {
        let entry = self.entries.get(number).ok_or(NoSpot::NoEntry(number))?;
        place(entry).map_err(|fault| NoSpot::NoPlace(number, fault))
    }

    /// `side A B Q`: where Q lies, seen along the way from A to B.
    fn tell_side<'a>(&self, words: &mut Words<'a>) -> Result<(), Trouble<'a>> {
        let i = words.read::<usize>("entry number")?;
        let j = words.read::<usize>("entry number")?;
        let k = words.read::<usize>("entry number")?;
        words.end()?;
        let [a, b, q] = [i, j, k].try_map(|number| self.spot(number))?;
        let info = side_query(a, b, q);
        let verdict = if info.is_on_line() {
            "on the line"
        } else if info.is_on_left_side() {
            "left"
        } else {
            "right"
        };
        println!(self.rt; "side {i} {j} {k}: {}, {verdict}", side(a, b, q))?;
        Ok(())
    }

    /// `circle A B C D`: whether D lies inside the circle of A, B, C.
    fn tell_circle<'a>(&self, words: &mut Words<'a>) -> Result<(), Trouble<'a>> {
        let i = words.read::<usize>("entry number")?;
        let j = words.read::<usize>("entry number")?;
        let k = words.read::<usize>("entry number")?;
        let l = words.read::<usize>("entry number")?;
        words.end()?;
        let [a, b, c, d] = [i, j, k, l].try_map(|number| self.spot(number))?;
        let verdict = if contained_in_circumference(a, b, c, d) {
            "inside"
        } else {
            "not inside"
        };
        println!(self.rt;
            "circle {i} {j} {k} {l}: {}, {verdict}",
            incircle(a, b, c, d)
        )?;
        Ok(())
    }

    /// `list`: every entry on the shelf.
    fn list(&self) -> io::Result<()> {
        println!(self.rt; "list: {} of kind {}", self.entries.len(), E::KIND)?;
        for (number, entry) in self.entries.iter().enumerate() {
            println!(self.rt; "  {number}: {}", Listed(*entry))?;
        }
        Ok(())
    }

    /// `unnamed`: some entry without a name.
    fn tell_unnamed(&self) -> io::Result<()> {
        match unnamed(self.entries(), self.counted()) {
            Some(number) => println!(self.rt; "unnamed: {number}"),
            None => println!(self.rt; "unnamed: none"),
        }
    }

    /// `count C`: the count beside the shelf, for check and settle.
    fn set_count<'a>(&mut self, words: &mut Words<'a>) -> Result<(), Trouble<'a>>
        ensures set { OnOk result ((count : ℕ) × (after : Words) × TakesWhere (WritesNumber 64 count) words.old after × (self.new.count ≡ Some count)) }
        ensures entries { self.new.entries ≡ self.old.entries }
        ensures bad_line { OnBadLine result (self.new ≡ self.old) }
    {
        let given = words.read::<usize>("count")?;
        words.end()?;
        self.count = Some(given);
        println!(self.rt; "count: {given}")?;
        Ok(())
    }
}
