// What is wrong with a line of a script, and what else can stop it.
use entry::EntryFault;
use std::alloc::{AllocError, AllocFailed};
use std::{fmt, io};

/// A word that stands for nothing of the kind that is read.
#[derive(Clone, Copy)]
pub struct Misspelled;

/// What is wrong with a line.
#[derive(Clone, Copy)]
pub enum Complaint<'a> {
    /// The line is no text in UTF-8.
    NoText,
    /// No command has this name.
    Unknown(&'a str),
    /// The line ends before this word.
    Missing(&'static str),
    /// The word does not stand for this.
    Unread(&'static str, &'a str),
    /// The line goes on after its last word.
    Extra(&'a str),
    /// The line speaks of a place that is not there.
    NoSpot(NoSpot),
    /// The command needs a draft.
    NoDraft,
    /// The command needs a map.
    NoMap,
    /// The tables would take more numbers than a script may ask for.
    TooLong(usize),
}

/// Why there is no place to speak of.
#[derive(Clone, Copy)]
pub enum NoSpot {
    /// No entry has this number.
    NoEntry(usize),
    /// The entry of this number has no place.
    NoPlace(usize, EntryFault),
}

impl fmt::Display for NoSpot {
    fn fmt<W: fmt::Write>(&self, f: &mut fmt::Formatter<W>) -> fmt::Result {
        match self {
            NoSpot::NoEntry(number) => write!(f, "there is no entry {number}"),
            NoSpot::NoPlace(number, fault) => write!(f, "entry {number} has no place, {fault}"),
        }
    }
}

impl fmt::Display for Complaint<'_> {
    fn fmt<W: fmt::Write>(&self, f: &mut fmt::Formatter<W>) -> fmt::Result {
        match self {
            Complaint::NoText => write!(f, "not text in UTF-8"),
            Complaint::Unknown(word) => write!(f, "unknown command '{word}'"),
            Complaint::Missing(what) => write!(f, "the {what} is missing"),
            Complaint::Unread(what, word) => write!(f, "'{word}' is no {what}"),
            Complaint::Extra(word) => write!(f, "'{word}' is one word too many"),
            Complaint::NoSpot(why) => write!(f, "{why}"),
            Complaint::NoDraft => write!(f, "there is no draft"),
            Complaint::NoMap => write!(f, "there is no map"),
            Complaint::TooLong(len) => write!(f, "{len} numbers are too many for a script"),
        }
    }
}

/// What ends a line before it is done: the line itself, or the world outside.
#[derive(Drop)]
pub enum Trouble<'a> {
    Line(Complaint<'a>),
    Outside(io::Error),
}

impl<'a> From<Complaint<'a>> for Trouble<'a> {
    ghost use Rattle.std.specs.Prelude.{◌≡◌};
    ghost use Rattle.pad.specs.declared.complaint.Trouble.TheVariants.{Line};

    ghost from_gives = { λ complaint t. t ≡ Line complaint };

    fn from(complaint: Complaint<'a>) -> Trouble<'a> {
        Trouble::Line(complaint)
    }
}

impl From<NoSpot> for Trouble<'_> {
    ghost use Rattle.std.specs.Prelude.{◌≡◌};
    ghost use Rattle.pad.specs.declared.complaint.Complaint.TheVariants.{NoSpot as no_spot};
    ghost use Rattle.pad.specs.declared.complaint.Trouble.TheVariants.{Line};

    ghost from_gives = { λ why t. t ≡ Line (no_spot why) };

    fn from(why: NoSpot) -> Self {
        Trouble::Line(Complaint::NoSpot(why))
    }
}

impl From<io::Error> for Trouble<'_> {
    ghost use Rattle.std.specs.Prelude.{◌≡◌};
    ghost use Rattle.pad.specs.declared.complaint.Trouble.TheVariants.{Outside};

    ghost from_gives = { λ error t. t ≡ Outside error };

    fn from(error: io::Error) -> Self {
        Trouble::Outside(error)
    }
}

impl<T: Drop> From<AllocFailed<T>> for Trouble<'_> {
    ghost use Rattle.std.specs.Prelude.{◌≡◌};
    ghost use Rattle.std.specs.declared.io.Error.{Error};
    ghost use Rattle.pad.specs.declared.complaint.Trouble.TheVariants.{Outside};

    ghost from_gives = { λ _ t. (error : Error) × (t ≡ Outside error) };

    fn from(_: AllocFailed<T>) -> Self {
        Trouble::Outside(AllocError.into())
    }
}
