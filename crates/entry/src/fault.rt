//! Why an entry has no place, and that a number has no record.
ghost use Rattle.std.specs.Prelude.{◌≡◌, codes, Some};
ghost use Rattle.std.specs.Fmt.{◌++?◌};
ghost use Rattle.entry.specs.Faults.{axis_number, axis_text, cause_number, cause_text, fault_text};

use std::fmt;

/// Why a scalar has no number of the grid. The first cause that fits counts.
#[derive(Clone, Copy, PartialEq, Eq, Debug)]
pub enum Cause {
    NotANumber = 1,
    BelowZero = 2,
    AboveMost = 3,
    Fraction = 4,
}

/// The cause's number in answers.
impl From<Cause> for u8 {
    ghost from_gives = { λ cause number. number ≡ cause_number cause };

    fn from(cause: Cause) -> u8 {
        cause as u8
    }
}

impl Cause {
    /// The cause in words.
    pub fn text(self) -> &'static str
        ensures { result.now ≡ cause_text self }
    {
        match self {
            Cause::NotANumber => "not a number",
            Cause::BelowZero => "below 0",
            Cause::AboveMost => "above 16383",
            Cause::Fraction => "a fraction",
        }
    }
}

impl fmt::Display for Cause {
    ghost output = { λ c. Some (cause_text c) };

    fn fmt<W: fmt::Write>(&self, f: &mut fmt::Formatter<W>) -> fmt::Result {
        f.write_str(self.text())
    }
}

/// Which of the two scalars.
#[derive(Clone, Copy, PartialEq, Eq, Debug)]
pub enum Axis {
    X = 1,
    Y = 2,
}

/// The axis's number in answers.
impl From<Axis> for u8 {
    ghost from_gives = { λ axis number. number ≡ axis_number axis };

    fn from(axis: Axis) -> u8 {
        axis as u8
    }
}

impl Axis {
    /// The axis's letter.
    pub fn text(self) -> &'static str
        ensures { result.now ≡ axis_text self }
    {
        match self {
            Axis::X => "x",
            Axis::Y => "y",
        }
    }
}

impl fmt::Display for Axis {
    ghost output = { λ a. Some (axis_text a) };

    fn fmt<W: fmt::Write>(&self, f: &mut fmt::Formatter<W>) -> fmt::Result {
        f.write_str(self.text())
    }
}

/// An entry has no place: on which axis, and why.
#[derive(Clone, Copy, PartialEq, Eq, Debug)]
pub struct EntryFault {
    pub axis: Axis,
    pub cause: Cause,
}

impl fmt::Display for EntryFault {
    ghost output = { λ e. Some (fault_text e) };

    fn fmt<W: fmt::Write>(&self, f: &mut fmt::Formatter<W>) -> fmt::Result {
        write!(f, "{} {}", self.axis, self.cause)
    }
}

/// No record has this number.
#[derive(Clone, Copy, PartialEq, Eq, Debug)]
pub struct NoRecord<N> {
    pub number: N,
}

impl<N: fmt::Display> fmt::Display for NoRecord<N> {
    ghost output = { λ e. Some (codes "fault 9 number ") ++? N.output e.number };

    fn fmt<W: fmt::Write>(&self, f: &mut fmt::Formatter<W>) -> fmt::Result {
        write!(f, "fault 9 number {}", self.number)
    }
}
