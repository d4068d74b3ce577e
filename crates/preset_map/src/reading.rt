//! What the tables of a draft or a map hold, record by record.
ghost use Rattle.std.specs.Prelude.{◌≡◌, ℕ, ◌<◌, Bool};
ghost use Rattle.links.specs.Links.{Links};
ghost use Rattle.links.specs.Tables.{looked};
ghost use Rattle.links.specs.declared.shape.Shape.{Shape};
ghost use Rattle.preset_map.specs.Records.{Reads, of_entry, of_face, of_half};

use crate::draft::Draft;
use crate::map::Map;
use links::{Shape, look};

/// Link tables that can be read record by record. Any number may be asked for: what lies past its table reads none.
pub trait Records {
    ghost shape: { Self → Shape };

    // The number at a place of the memory, if it belongs to its table; else none.
    ghost number: { Self → Bool → ℕ → ℕ };

    // The links that the records hold.
    ghost links: { Self → Links };

    /// The counts and the lengths of the tables.
    fn shape(&self) -> Shape
        ensures { result ≡ shape self.now };

    /// The memory that is read: nothing of an empty map.
    fn words(&self) -> &[u32]
        ensures { (in_table : Bool) (at : ℕ) → looked result.now in_table at ≡ number self.now in_table at };

    // What is read of a record are its links.
    ghost reads: { (t : Self) → Reads (shape t) (number t) (links t) };

    /// A number of an entry's record: x, y and `out_edge` are 0, 1 and 2.
    // Any field may be asked for: an enum would take fewer numbers, and so ask more of callers.
    // Past the table it returns at once, here and below: with one `look` for both cases the place is made by a
    // conditional move, and each read waits for it.
    final fn entry_number(&self, field: u8, v: u32) -> u32
        ensures { result ≡ of_entry (shape self.now) (number self.now) field v }
    {
        let s = self.shape();
        if v >= s.entries {
            return look(self.words(), None);
        }
        let at = 3 * v as usize + field as usize;
        look(self.words(), Some(at))
    }

    /// A link of a half: `next`, `prev`, `face` and `origin` are 0, 1, 2 and 3; any number may be asked for, as at an entry.
    final fn half_number(&self, field: u8, h: u32) -> u32
        ensures { result ≡ of_half (shape self.now) (number self.now) field h }
    {
        let s = self.shape();
        if h as u64 >= 2 * s.edges as u64 {
            return look(self.words(), None);
        }
        let at = 3 * s.entries as usize + 4 * h as usize + field as usize;
        look(self.words(), Some(at))
    }

    /// The link of a face: its `adjacent_edge`.
    final fn adjacent_edge(&self, k: u32) -> u32
        ensures number { result ≡ of_face (shape self.now) (number self.now) k }
        ensures link { result ≡ (links self.now).adj k }
    {
        let s = self.shape();
        if k >= s.faces {
            return look(self.words(), None);
        }
        let at = 3 * s.entries as usize + 8 * s.edges as usize + k as usize;
        look(self.words(), Some(at))
    }

    /// The x of entry v.
    final fn x(&self, v: u32) -> u32
        ensures number { result ≡ of_entry (shape self.now) (number self.now) 0 v }
        ensures place { v < (shape self.now).n → result ≡ (links self.now).x v }
    {
        self.entry_number(0, v)
    }

    /// The y of entry v.
    final fn y(&self, v: u32) -> u32
        ensures number { result ≡ of_entry (shape self.now) (number self.now) 1 v }
        ensures place { v < (shape self.now).n → result ≡ (links self.now).y v }
    {
        self.entry_number(1, v)
    }

    /// The `out_edge` of entry v.
    final fn out_edge(&self, v: u32) -> u32
        ensures { result ≡ (links self.now).out v }
    {
        self.entry_number(2, v)
    }

    /// The `next` of half h.
    final fn next(&self, h: u32) -> u32
        ensures { result ≡ (links self.now).next h }
    {
        self.half_number(0, h)
    }

    /// The `prev` of half h.
    final fn prev(&self, h: u32) -> u32
        ensures { result ≡ (links self.now).prev h }
    {
        self.half_number(1, h)
    }

    /// The face of half h.
    final fn face(&self, h: u32) -> u32
        ensures { result ≡ (links self.now).face h }
    {
        self.half_number(2, h)
    }

    /// The origin of half h.
    final fn origin(&self, h: u32) -> u32
        ensures { result ≡ (links self.now).origin h }
    {
        self.half_number(3, h)
    }
}

impl<'a> Records for Draft<'a> {
    ghost use Rattle.preset_map.specs.Records.{listed, listed_reads};

    ghost shape = { λ d. d.shape };

    ghost number = { λ d. looked d.words.now };

    ghost links = { λ d. listed d.shape (looked d.words.now) };

    ghost reads = { λ d. listed_reads d.shape (looked d.words.now) };

    fn shape(&self) -> Shape {
        self.shape
    }

    fn words(&self) -> &[u32] {
        self.words
    }
}

impl<'a> Records for Map<'a> {
    ghost use Rattle.preset_map.specs.MapLinks.{links_of, number_of};
    ghost use Rattle.preset_map.specs.MapReads.{map_reads};

    ghost shape = { λ m. m.shape };

    ghost number = { number_of };

    ghost links = { links_of };

    ghost reads = { map_reads };

    fn shape(&self) -> Shape {
        self.shape
    }

    fn words(&self) -> &[u32] {
        if self.shape.n == 0 { &[] } else { self.words }
    }
}
