//! What a check answers of a draft that is not sound.
ghost use Rattle.std.specs.Prelude.{◌≡◌};
ghost use Rattle.links.specs.Numbers.{numbers_of};

use entry::EntryFault;
use std::fmt;

/// The records at which a clause fails.
#[derive(Clone, Copy)]
pub enum Site {
    /// The clause is about no record.
    Whole,
    Entry(u32),
    Half(u32),
    Edge(u32),
    Face(u32),
    /// An entry without a place, and why it has none.
    Unplaced(u32, EntryFault),
    Edges(u32, u32),
    EdgeEntry(u32, u32),
    HalfEntry(u32, u32),
    FaceEntry(u32, u32),
}

/// The first clause that fails, at the lowest record.
// Rule and clause are numbers, and no enum: they are the product's own numbers, by which a host knows them.
#[derive(Clone, Copy)]
pub struct CheckFault {
    pub rule: u8,
    pub clause: u8,
    pub site: Site,
}

/// A fault in numbers: none is kind 0, an entry 1, a half 2, an edge 3, a face 4; what is not named is 0.
// All in numbers, for a host that has none of these types.
#[derive(Clone, Copy)]
pub struct FaultNumbers {
    pub rule: u8,
    pub clause: u8,
    pub kind: u8,
    pub index: u32,
    pub other_kind: u8,
    pub other_index: u32,
    pub axis: u8,
    pub cause: u8,
}

impl From<CheckFault> for FaultNumbers {
    ghost from_gives = { λ fault numbers. numbers ≡ numbers_of fault };

    fn from(fault: CheckFault) -> FaultNumbers {
        let (kind, index, other_kind, other_index) = match fault.site {
            Site::Whole => (0, 0, 0, 0),
            Site::Entry(v) => (1, v, 0, 0),
            Site::Half(h) => (2, h, 0, 0),
            Site::Edge(k) => (3, k, 0, 0),
            Site::Face(k) => (4, k, 0, 0),
            Site::Unplaced(v, _) => (1, v, 0, 0),
            Site::Edges(k, l) => (3, k, 3, l),
            Site::EdgeEntry(k, v) => (3, k, 1, v),
            Site::HalfEntry(h, v) => (2, h, 1, v),
            Site::FaceEntry(k, v) => (4, k, 1, v),
        };
        let (axis, cause) = match fault.site {
            Site::Unplaced(_, why) => (why.axis.into(), why.cause.into()),
            _ => (0, 0),
        };
        FaultNumbers {
            rule: fault.rule,
            clause: fault.clause,
            kind,
            index,
            other_kind,
            other_index,
            axis,
            cause,
        }
    }
}

impl fmt::Display for Site {
    fn fmt<W: fmt::Write>(&self, f: &mut fmt::Formatter<W>) -> fmt::Result {
        match self {
            Site::Whole => Ok(()),
            Site::Entry(v) => write!(f, " entry {v}"),
            Site::Half(h) => write!(f, " half {h}"),
            Site::Edge(k) => write!(f, " edge {k}"),
            Site::Face(k) => write!(f, " face {k}"),
            Site::Unplaced(v, why) => write!(f, " entry {v} {why}"),
            Site::Edges(k, l) => write!(f, " edge {k} edge {l}"),
            Site::EdgeEntry(k, v) => write!(f, " edge {k} entry {v}"),
            Site::HalfEntry(h, v) => write!(f, " half {h} entry {v}"),
            Site::FaceEntry(k, v) => write!(f, " face {k} entry {v}"),
        }
    }
}

impl fmt::Display for CheckFault {
    fn fmt<W: fmt::Write>(&self, f: &mut fmt::Formatter<W>) -> fmt::Result {
        write!(f, "fault {} clause {}{}", self.rule, self.clause, self.site)
    }
}
