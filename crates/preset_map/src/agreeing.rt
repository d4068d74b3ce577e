//! Whether a shelf is that of a map.
ghost use Rattle.std.specs.Prelude.{Some};
ghost use Rattle.preset_map.specs.Agreeing.{differs_text};

use std::fmt;

/// How a shelf differs from a map: by its count, or at an entry whose place differs or is missing.
#[derive(Clone, Copy, PartialEq, Eq, Debug)]
pub enum Differs {
    Count(usize),
    Place(u32),
}

impl fmt::Display for Differs {
    ghost output = { λ d. Some (differs_text d) };

    fn fmt<W: fmt::Write>(&self, f: &mut fmt::Formatter<W>) -> fmt::Result {
        match self {
            Differs::Count(count) => write!(f, "fault 10 count {count}"),
            Differs::Place(v) => write!(f, "fault 10 entry {v}"),
        }
    }
}
