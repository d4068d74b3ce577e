// How answers show links, what settle accepts, and what was refused.
use links::{NONE, Shape};
use std::fmt;
use std::num::ParseIntError;
use std::str::FromStr;

/// What settle answers of the tables that it accepts.
#[derive(Clone, Copy)]
pub struct Settled(pub Shape);

impl fmt::Display for Settled {
    fn fmt<W: fmt::Write>(&self, f: &mut fmt::Formatter<W>) -> fmt::Result {
        write!(f, "accepted, {}", self.0)
    }
}

/// A link as a script writes it: a number, or `-` for none.
#[derive(Clone, Copy)]
pub struct Link(pub u32);

impl FromStr for Link {
    type Err = ParseIntError;

    ghost use Rattle.pad.specs.Spelling.{ReadsLink};

    ghost from_str_gives = { ReadsLink };

    fn from_str(word: &str) -> Result<Link, ParseIntError> {
        if word == "-" {
            return Ok(Link(NONE));
        }
        Ok(Link(word.parse::<u32>()?))
    }
}

impl fmt::Display for Link {
    fn fmt<W: fmt::Write>(&self, f: &mut fmt::Formatter<W>) -> fmt::Result {
        if self.0 == NONE {
            write!(f, "-")
        } else {
            write!(f, "{}", self.0)
        }
    }
}

/// What came of a command: what it did, or why it was refused.
#[derive(Clone, Copy)]
pub struct Outcome<T, E>(pub Result<T, E>);

impl<T: fmt::Display, E: fmt::Display> fmt::Display for Outcome<T, E> {
    fn fmt<W: fmt::Write>(&self, f: &mut fmt::Formatter<W>) -> fmt::Result {
        match &self.0 {
            Ok(done) => write!(f, "{done}"),
            Err(why) => write!(f, "refused, {why}"),
        }
    }
}
