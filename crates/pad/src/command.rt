// The commands of a script, by what they work on.
use crate::complaint::Misspelled;
use std::fmt;
use std::str::FromStr;

/// What a line asks for.
#[derive(Clone, Copy)]
pub enum Command {
    /// `kind`: to start afresh with a kind of entry.
    Kind,
    /// `draft`: to start a draft.
    Draft,
    /// Something of the shelf.
    OnShelf(OnShelf),
    /// Something of a draft.
    OnDraft(OnDraft),
    /// Something of a map.
    OnMap(OnMap),
    /// `show`: to show a draft or a map.
    Show,
}

/// A command on the shelf, which needs neither a draft nor a map.
#[derive(Clone, Copy)]
pub enum OnShelf {
    Entry,
    Side,
    Circle,
    Count,
    List,
    Unnamed,
}

/// A command that needs a draft.
#[derive(Clone, Copy)]
pub enum OnDraft {
    Write(Record),
    Check,
    Settle,
}

/// A record of a draft, by the command that writes it.
#[derive(Clone, Copy)]
pub enum Record {
    Out,
    Half,
    Face,
}

/// A command that needs a map.
#[derive(Clone, Copy)]
pub enum OnMap {
    Walk,
    Hull,
    Reopen,
}

impl FromStr for Command {
    type Err = Misspelled;

    ghost use Rattle.pad.specs.Commands.{ReadsCommand};

    ghost from_str_gives = { ReadsCommand };

    fn from_str(word: &str) -> Result<Command, Misspelled> {
        match word {
            "kind" => Ok(Command::Kind),
            "draft" => Ok(Command::Draft),
            "entry" => Ok(Command::OnShelf(OnShelf::Entry)),
            "side" => Ok(Command::OnShelf(OnShelf::Side)),
            "circle" => Ok(Command::OnShelf(OnShelf::Circle)),
            "count" => Ok(Command::OnShelf(OnShelf::Count)),
            "list" => Ok(Command::OnShelf(OnShelf::List)),
            "unnamed" => Ok(Command::OnShelf(OnShelf::Unnamed)),
            "out" => Ok(Command::OnDraft(OnDraft::Write(Record::Out))),
            "half" => Ok(Command::OnDraft(OnDraft::Write(Record::Half))),
            "face" => Ok(Command::OnDraft(OnDraft::Write(Record::Face))),
            "check" => Ok(Command::OnDraft(OnDraft::Check)),
            "settle" => Ok(Command::OnDraft(OnDraft::Settle)),
            "walk" => Ok(Command::OnMap(OnMap::Walk)),
            "hull" => Ok(Command::OnMap(OnMap::Hull)),
            "reopen" => Ok(Command::OnMap(OnMap::Reopen)),
            "show" => Ok(Command::Show),
            _ => Err(Misspelled),
        }
    }
}

impl fmt::Display for Record {
    ghost use Rattle.std.specs.Prelude.{Some};
    ghost use Rattle.pad.specs.Commands.{record_word};

    ghost output = { λ r. Some (record_word r) };

    fn fmt<W: fmt::Write>(&self, f: &mut fmt::Formatter<W>) -> fmt::Result {
        match self {
            Record::Out => write!(f, "out"),
            Record::Half => write!(f, "half"),
            Record::Face => write!(f, "face"),
        }
    }
}
