// The kinds of entry that a script can put on the shelf: how each is written and shown.
ghost use Rattle.std.specs.Prelude.{◌≡◌, ◌≢◌, ◌↔◌, codes, IfErr, IfOk, IsErr};
ghost use Rattle.entry.specs.Naming.{packed_name};
ghost use Rattle.pad.specs.Entries.{IsName};
ghost use Rattle.pad.specs.Reading.{Text};

use crate::complaint::{Complaint, Misspelled};
use crate::script::Words;
use entry::{Entry, Name, Point2, Preset, Setting, pack_name};
use std::fmt;
use std::str::FromStr;

/// The kinds by name.
#[derive(Clone, Copy)]
pub enum Kind {
    Point,
    Preset,
}

impl FromStr for Kind {
    type Err = Misspelled;

    ghost use Rattle.pad.specs.Kinds.{ReadsKind};

    ghost from_str_gives = { ReadsKind };

    fn from_str(word: &str) -> Result<Kind, Misspelled> {
        match word {
            "point" => Ok(Kind::Point),
            "preset" => Ok(Kind::Preset),
            _ => Err(Misspelled),
        }
    }
}

impl fmt::Display for Kind {
    ghost use Rattle.std.specs.Prelude.{Some};
    ghost use Rattle.pad.specs.Kinds.{kind_word};

    ghost output = { λ kind. Some (kind_word kind) };

    fn fmt<W: fmt::Write>(&self, f: &mut fmt::Formatter<W>) -> fmt::Result {
        match self {
            Kind::Point => write!(f, "point"),
            Kind::Preset => write!(f, "preset"),
        }
    }
}

/// An entry that a script can write down.
pub trait Written: Entry + Copy {
    /// The kind's name.
    const KIND: Kind;

    ghost use Rattle.pad.specs.declared.script.Words.{Words};

    // The words that describe an entry, and those after them.
    ghost describes: { Words → Self → Words → Type 0 };

    /// The entry that the words after `entry` describe.
    fn read<'a>(words: &mut Words<'a>) -> Result<Self, Complaint<'a>>
        ensures { IfOk result (λ entry. describes words.old entry words.new) };

    /// Writes what the entry has beside its place.
    fn details<W: fmt::Write>(&self, f: &mut fmt::Formatter<W>) -> fmt::Result;
}

impl Written for Point2 {
    ghost use Rattle.pad.specs.Entries.{DescribesPoint};

    ghost describes = { DescribesPoint };

    const KIND: Kind = Kind::Point;

    fn read<'a>(words: &mut Words<'a>) -> Result<Point2, Complaint<'a>> {
        let x = words.read("x")?;
        let y = words.read("y")?;
        Ok(Point2 { x, y })
    }

    fn details<W: fmt::Write>(&self, f: &mut fmt::Formatter<W>) -> fmt::Result {
        write!(f, "written as {} {}", self.x, self.y)
    }
}

/// The name that a word spells; `-` is none.
fn read_name<'a>(word: &'a str) -> Result<u64, Complaint<'a>>
    ensures named { IfOk result (λ name. IsName name word.now) }
    ensures refused { IsErr result ↔ ((word.now ≢ codes "-") × (packed_name word.now ≡ None)) }
    ensures complaint { IfErr result (λ c. (what : Text) × (what.now ≡ codes "name of at most eight bytes") × (c ≡ Complaint.Unread what word.entry)) }
{
    if word == "-" {
        return Ok(0);
    }
    pack_name(word.as_bytes()).ok_or(Complaint::Unread("name of at most eight bytes", word))
}

/// A setting as a script spells it: `dial:0.5`, `switch:yes`, `switch:no` or `unset`.
#[derive(Clone, Copy)]
struct Spelled(Setting);

impl FromStr for Spelled {
    type Err = Misspelled;

    ghost use Rattle.pad.specs.Spelling.{ReadsSetting};

    ghost from_str_gives = { ReadsSetting };

    fn from_str(word: &str) -> Result<Spelled, Misspelled> {
        if let Some(turn) = word.strip_prefix("dial:") {
            let turn = turn.parse::<f32>().map_err(|_| Misspelled)?;
            return Ok(Spelled(Setting::Dial(turn)));
        }
        match word {
            "switch:yes" => Ok(Spelled(Setting::Switch(true))),
            "switch:no" => Ok(Spelled(Setting::Switch(false))),
            "unset" => Ok(Spelled(Setting::Unset)),
            _ => Err(Misspelled),
        }
    }
}

impl fmt::Display for Spelled {
    fn fmt<W: fmt::Write>(&self, f: &mut fmt::Formatter<W>) -> fmt::Result {
        match self.0 {
            Setting::Dial(turn) => write!(f, "dial:{turn}"),
            Setting::Switch(true) => write!(f, "switch:yes"),
            Setting::Switch(false) => write!(f, "switch:no"),
            Setting::Unset => write!(f, "unset"),
        }
    }
}

impl Written for Preset {
    ghost use Rattle.pad.specs.Entries.{DescribesPreset};

    ghost describes = { DescribesPreset };

    const KIND: Kind = Kind::Preset;

    fn read<'a>(words: &mut Words<'a>) -> Result<Preset, Complaint<'a>> {
        let x = words.read("x")?;
        let y = words.read("y")?;
        let name = read_name(words.word("name")?)?;
        let Spelled(setting) = words.read("setting")?;
        Ok(Preset {
            x,
            y,
            name,
            setting,
        })
    }

    fn details<W: fmt::Write>(&self, f: &mut fmt::Formatter<W>) -> fmt::Result {
        if self.name != 0 {
            write!(f, "'{}', ", Name(self.name))?;
        }
        write!(f, "{}", Spelled(self.setting))
    }
}
