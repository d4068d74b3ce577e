//! The link tables, lent to be read.
ghost use Rattle.std.specs.Prelude.{◌≡◌, ◌≤◌, length};
ghost use Rattle.links.specs.Tables.{looked_at, size};

use crate::shape::Shape;

/// A link that leads nowhere. It is a number, and no option, since the tables hold it: memory is lent, and as it stands.
pub const NONE: u32 = 4294967295;

/// The number at a place of the slice; none where there is no such place.
pub fn look(words: &[u32], at: Option<usize>) -> u32
    ensures { result ≡ looked_at words.now at }
{
    at.and_then(|at| words.get(at)).copied().unwrap_or(NONE)
}

/// A slice that holds the tables of a shape whose counts a map may have.
// Slice and shape: the memory is the host's, and there is no heap.
#[derive(Clone, Copy)]
pub struct Tables<'a> {
    words: &'a [u32],
    shape: Shape,
    ghost holds: { size shape ≤ length words.now },
    ghost small: { (shape.n ≤ 4096) × ((shape.e ≤ 12288) × (shape.f ≤ 8192)) },
}

impl<'a> Tables<'a> {
    ghost use Rattle.std.specs.Prelude.{◌≡◌, ◌+◌, ◌*◌, ◌<◌, ◌≤◌, length};
    ghost use Rattle.links.specs.Links.{halves as half_count};
    ghost use Rattle.links.specs.Tables.{of_half};
    ghost use Rattle.links.specs.Tests.{euler, named, rooted};
    ghost use Rattle.links.specs.Views.{held_in};

    /// The tables, if the slice holds them and the counts are small enough.
    pub fn new(words: &'a [u32], shape: Shape) -> Tables<'a>
        requires holds { size shape ≤ length words.now }
        requires small { (shape.n ≤ 4096) × ((shape.e ≤ 12288) × (shape.f ≤ 8192)) }
        ensures words { result.words.now ≡ words.now }
        ensures shape { result.shape ≡ shape }
    {
        Tables { words, shape }
    }

    pub fn shape(self) -> Shape
        ensures { result ≡ self.entry.shape }
    {
        self.shape
    }

    /// How many halves there are.
    pub fn halves(self) -> u32
        ensures { result ≡ half_count (held_in self.entry) }
    {
        2 * self.shape.e
    }

    /// A number of a half's record, by its place among the four there; none past the table.
    fn half(self, field: usize, h: u32) -> u32
        requires { field < 4 }
        ensures { result ≡ of_half self.entry.words.now self.entry.shape field h }
    {
        if (h as usize) < 2 * self.shape.edges as usize {
            self.words[3 * self.shape.entries as usize + 4 * h as usize + field]
        } else {
            NONE
        }
    }

    pub fn next(self, h: u32) -> u32
        ensures { result ≡ (held_in self.entry).next h }
    {
        self.half(0, h)
    }

    pub fn prev(self, h: u32) -> u32
        ensures { result ≡ (held_in self.entry).prev h }
    {
        self.half(1, h)
    }

    pub fn face(self, h: u32) -> u32
        ensures { result ≡ (held_in self.entry).face h }
    {
        self.half(2, h)
    }

    pub fn origin(self, h: u32) -> u32
        ensures { result ≡ (held_in self.entry).origin h }
    {
        self.half(3, h)
    }

    pub fn out_edge(self, v: u32) -> u32
        ensures { result ≡ (held_in self.entry).out v }
    {
        if v < self.shape.entries {
            self.words[3 * v as usize + 2]
        } else {
            NONE
        }
    }

    pub fn adjacent_edge(self, k: u32) -> u32
        ensures { result ≡ (held_in self.entry).adj k }
    {
        if k < self.shape.faces {
            let edges = 8 * self.shape.edges as usize;
            self.words[3 * self.shape.entries as usize + edges + k as usize]
        } else {
            NONE
        }
    }

    /// A number of both halves of an edge, by its place among the four of a half; none past the table.
    fn edge(self, field: usize, k: u32) -> (u32, u32)
        requires { field < 4 }
        ensures first { result.0 ≡ of_half self.entry.words.now self.entry.shape field (2 * k) }
        ensures second { result.1 ≡ of_half self.entry.words.now self.entry.shape field (2 * k + 1) }
    {
        if k < self.shape.edges {
            let at = 3 * self.shape.entries as usize + 8 * k as usize + field;
            (self.words[at], self.words[at + 4])
        } else {
            (NONE, NONE)
        }
    }

    /// The origins of an edge's halves.
    pub fn ends(self, k: u32) -> (u32, u32)
        ensures first { result.0 ≡ (held_in self.entry).origin (2 * k) }
        ensures second { result.1 ≡ (held_in self.entry).origin (2 * k + 1) }
    {
        self.edge(3, k)
    }

    /// The faces of an edge's halves.
    pub fn sides(self, k: u32) -> (u32, u32)
        ensures first { result.0 ≡ (held_in self.entry).face (2 * k) }
        ensures second { result.1 ≡ (held_in self.entry).face (2 * k + 1) }
    {
        self.edge(2, k)
    }

    /// Whether the counts are those of a map in the plane.
    pub fn is_euler(self) -> bool
        ensures { result ≡ euler (held_in self.entry) }
    {
        let s = self.shape;
        if s.n == 0 {
            s.e == 0 && s.f == 1
        } else {
            s.n + s.f == s.e + 2
        }
    }

    /// Whether a link that may be none names an existing half.
    pub fn names(self, link: u32) -> bool
        ensures { result ≡ named (held_in self.entry) link }
    {
        link == NONE || link < self.halves()
    }

    /// Whether a link is present just where n is 2 or more.
    pub fn is_rooted(self, link: u32) -> bool
        ensures { result ≡ rooted (held_in self.entry) link }
    {
        (link != NONE) == (self.shape.n >= 2)
    }
}
