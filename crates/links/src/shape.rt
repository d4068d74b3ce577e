//! How many records there are, and how many the tables can hold.
ghost use Rattle.std.specs.Prelude.{◌≡◌, ◌++◌, codes, decimal, Some};
ghost use Rattle.links.specs.Kept.{emptied as empty_of};
ghost use Rattle.links.specs.Tables.{size as words};

use std::fmt;

/// Counts of entries, edges and faces, and the length of each table in records.
#[derive(Clone, Copy, PartialEq, Eq)]
pub struct Shape {
    pub n: u32,
    pub e: u32,
    pub f: u32,
    pub entries: u32,
    pub edges: u32,
    pub faces: u32,
}

impl Shape {
    /// How many numbers the tables take.
    pub fn size(self) -> usize
        ensures { result ≡ words self }
    {
        3 * self.entries as usize + 8 * self.edges as usize + self.faces as usize
    }

    /// The shape of an empty map over the same tables: no record in use but the outer face.
    pub fn emptied(self) -> Shape
        ensures { result ≡ empty_of self }
    {
        let (n, e, f) = (0, 0, 1);
        Shape { n, e, f, ..self }
    }
}

impl fmt::Display for Shape {
    ghost output = { λ s. Some (codes "n " ++ (decimal s.n ++ (codes " e " ++ (decimal s.e ++ (codes " f " ++ decimal s.f))))) };

    fn fmt<W: fmt::Write>(&self, f: &mut fmt::Formatter<W>) -> fmt::Result {
        write!(f, "n {} e {} f {}", self.n, self.e, self.f)
    }
}
