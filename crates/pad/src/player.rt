// Plays a script: a shelf of one kind of entry at a time, with a draft or a map beside it.
ghost use Rattle.std.specs.Prelude.{◌≡◌, ◌≤◌, IfOk, MatchResult};
ghost use Rattle.pad.specs.Beside.{IsDraft, IsMap};
ghost use Rattle.pad.specs.Troubles.{asked, OnBadLine};
ghost use Rattle.pad.specs.Turns.{bytes, Left, to_play};

use crate::bench::Bench;
use crate::command::{Command, OnDraft, OnMap};
use crate::complaint::{Complaint, Trouble};
use crate::kind::{Kind, Written};
use crate::script::{Script, Words, read_line};
use crate::shown::{Outcome, Settled};
use crate::tables::{Request, read_request, show, tell_check, write_record};
use crate::walks::{tell_entry, tell_hull};
use entry::{Point2, Preset};
use links::NONE;
use preset_map::{Draft, Map, Records, Refused};
use std::{io, mem};

/// What lies beside the shelf.
#[derive(Drop)]
enum Beside<'m> {
    Nothing,
    Draft(Draft<'m>),
    Map(Map<'m>),
}

/// A new start that a line asks for.
#[derive(Clone, Copy)]
enum Start {
    /// Over an empty shelf of this kind.
    Kind(Kind),
    /// With a new draft beside the shelf.
    Draft(Request),
}

/// A script that is played over a shelf of one kind.
#[derive(Drop)]
struct Player<'r, 't, E: Written> {
    rt: &'r HostRuntime,
    script: Script<'t>,
    bench: Bench<'r, E>,
}

impl<'r, 't, E: Written> Player<'r, 't, E> {
    /// Over an empty shelf.
    fn new(rt: &'r HostRuntime, script: Script<'t>) -> Player<'r, 't, E>
        ensures { result.script ≡ script.entry }
    {
        Player {
            rt,
            script,
            bench: Bench::new(rt),
        }
    }

    /// Settles a draft and tells the outcome; there is a map after either.
    // What lies beside is changed in place: taken by value and given back it gets no proof.
    fn settle(&self, beside: &mut Beside<'_>) -> io::Result<()>
        ensures { IsDraft beside.old → IsMap beside.new }
    {
        if let Beside::Draft(draft) = mem::replace(beside, Beside::Nothing) {
            let (map, settled) = match draft.settle(self.bench.entries(), self.bench.counted()) {
                Ok(map) => {
                    let settled = Settled(map.shape());
                    (map, Ok(settled))
                }
                Err(Refused { fault, map }) => (map, Err(fault)),
            };
            *beside = Beside::Map(map);
            println!(self.rt; "settle: {}", Outcome(settled))?;
        }
        Ok(())
    }

    /// Makes a map a draft again.
    fn reopen(&self, beside: &mut Beside<'_>) -> io::Result<()>
        ensures { IsMap beside.old → IsDraft beside.new }
    {
        if let Beside::Map(map) = mem::replace(beside, Beside::Nothing) {
            *beside = Beside::Draft(map.reopen());
            println!(self.rt; "reopen: a draft again")?;
        }
        Ok(())
    }

    /// Plays a command on a draft.
    fn play_on_draft<'a>(
        &self,
        command: OnDraft,
        words: &mut Words<'a>,
        beside: &mut Beside<'_>,
    ) -> Result<(), Trouble<'a>>
        ensures no_draft { ¬ (IsDraft beside.old) → result ≡ Err (Trouble.Line Complaint.NoDraft) }
        ensures bad_line { OnBadLine result (beside.new ≡ beside.old) }
    {
        let Beside::Draft(draft) = beside else {
            return Err(Complaint::NoDraft.into());
        };
        match command {
            OnDraft::Write(record) => write_record(self.rt, record, words, draft)?,
            OnDraft::Check => {
                words.end()?;
                let verdict = draft.check(self.bench.entries(), self.bench.counted());
                tell_check(self.rt, verdict)?;
            }
            OnDraft::Settle => {
                words.end()?;
                self.settle(beside)?;
            }
        }
        Ok(())
    }

    /// Plays a command on a map.
    fn play_on_map<'a>(
        &self,
        command: OnMap,
        words: &mut Words<'a>,
        beside: &mut Beside<'_>,
    ) -> Result<(), Trouble<'a>>
        ensures no_map { ¬ (IsMap beside.old) → result ≡ Err (Trouble.Line Complaint.NoMap) }
        ensures bad_line { OnBadLine result (beside.new ≡ beside.old) }
    {
        let Beside::Map(map) = beside else {
            return Err(Complaint::NoMap.into());
        };
        match command {
            OnMap::Walk => tell_entry(self.rt, words, map)?,
            OnMap::Hull => tell_hull(self.rt, words, map)?,
            OnMap::Reopen => {
                words.end()?;
                self.reopen(beside)?;
            }
        }
        Ok(())
    }

    /// `show`: shows the draft or the map.
    fn play_show<'a>(&self, words: &mut Words<'a>, beside: &Beside<'_>) -> Result<(), Trouble<'a>>
        ensures { ¬ (IsDraft beside.now) → ¬ (IsMap beside.now) → result ≡ Err (Trouble.Line Complaint.NoMap) }
    {
        match beside {
            Beside::Nothing => return Err(Complaint::NoMap.into()),
            Beside::Draft(draft) => {
                words.end()?;
                show(self.rt, draft)?;
            }
            Beside::Map(map) => {
                words.end()?;
                show(self.rt, map)?;
            }
        }
        Ok(())
    }

    /// Plays a line, or tells of the new start that it asks for.
    fn play_line<'a>(
        &mut self,
        line: &'a [u8],
        beside: &mut Beside<'_>,
    ) -> Result<Option<Start>, Trouble<'a>>
        ensures script { self.new.script ≡ self.old.script }
        ensures bad_line { OnBadLine result ((self.new ≡ self.old) × (beside.new ≡ beside.old)) }
    {
        let Some((command, mut words)) = read_line(line)? else {
            return Ok(None);
        };
        let words = &mut words;
        match command {
            Command::Kind => {
                let kind = words.read("kind")?;
                words.end()?;
                return Ok(Some(Start::Kind(kind)));
            }
            Command::Draft => return Ok(Some(Start::Draft(read_request(words)?))),
            Command::OnShelf(command) => self.bench.play(command, words)?,
            Command::OnDraft(command) => self.play_on_draft(command, words, beside)?,
            Command::OnMap(command) => self.play_on_map(command, words, beside)?,
            Command::Show => self.play_show(words, beside)?,
        }
        Ok(None)
    }

    /// Tells what is wrong with a line; the script goes on.
    fn told(&self, played: Result<Option<Start>, Trouble<'_>>) -> io::Result<Option<Start>>
        ensures { IfOk result (λ start. start ≡ asked played.entry) }
    {
        // A match: of the two kinds of trouble one is told here, and one goes on.
        match played {
            Ok(start) => Ok(start),
            Err(Trouble::Line(complaint)) => {
                println!(self.rt; "line {}: {complaint}", self.script.line())?;
                Ok(None)
            }
            Err(Trouble::Outside(error)) => Err(error),
        }
    }

    /// Plays lines over the shelf and what lies beside it, up to a new start or the end.
    fn play_lines(&mut self, beside: &mut Beside<'_>) -> io::Result<Option<Start>>
        ensures { MatchResult result (λ start. Left start self.old.script self.new.script) (λ _. bytes self.new.script ≤ bytes self.old.script) }
    {
        while let Some(line) = self.script.next_line() {
            let played = self.play_line(line, beside);
            if let Some(start) = self.told(played)? {
                return Ok(Some(start));
            }
        }
        Ok(None)
    }

    /// Plays lines with nothing beside the shelf.
    fn play_bare(&mut self) -> io::Result<Option<Start>>
        ensures { MatchResult result (λ start. Left start self.old.script self.new.script) (λ _. bytes self.new.script ≤ bytes self.old.script) }
    {
        self.play_lines(&mut Beside::Nothing)
    }

    /// Plays lines with a draft over new memory beside the shelf.
    fn play_draft(&mut self, request: Request) -> io::Result<Option<Start>>
        ensures { MatchResult result (λ start. Left start self.old.script self.new.script) (λ _. bytes self.new.script ≤ bytes self.old.script) }
    {
        println!(self.rt; "draft: {}", request.shape)?;
        let mut words = vec![in self.rt.alloc(); NONE; request.len]?;
        let draft = Draft::new(words.as_mut_slice(), request.shape);
        self.play_lines(&mut Beside::Draft(draft))
    }

    /// Plays to the end, or up to a line that turns to a kind, with what is left after it.
    fn play(mut self) -> io::Result<Option<(Kind, Script<'t>)>>
        ensures { IfOk result (λ next. to_play next ≤ bytes self.entry.script) }
    {
        println!(self.rt; "kind {}: the shelf is empty", E::KIND)?;
        let mut start = self.play_bare()?;
        while let Some(Start::Draft(request)) = start {
            start = self.play_draft(request)?;
        }
        match start {
            Some(Start::Kind(kind)) => Ok(Some((kind, self.script))),
            _ => Ok(None),
        }
    }
}

/// Plays a whole script, from a shelf of points on.
pub fn play(rt: &HostRuntime, text: &[u8]) -> io::Result<()> {
    let mut next = Some((Kind::Point, Script::new(text)));
    while let Some((kind, script)) = next {
        next = match kind {
            Kind::Point => Player::<Point2>::new(rt, script).play()?,
            Kind::Preset => Player::<Preset>::new(rt, script).play()?,
        };
    }
    Ok(())
}
