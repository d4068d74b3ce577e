// A script: its lines, and the words of a line.
ghost use Rattle.std.specs.Prelude.{◌≡◌, ◌+◌, ◌<◌, length, min, IfSome, MatchOption, MatchResult};
ghost use Rattle.pad.specs.Lines.{CutsLine};
ghost use Rattle.pad.specs.Reading.{EndsLine, IsAtEnd, IsWordsOf, Reads, ReadsAs, ReadsLine, ReadsOr, Takes};

use crate::command::Command;
use crate::complaint::Complaint;
use std::str::{FromStr, SplitWhitespace, from_utf8};

/// What is still to be read of a script, and the number of the line that was read last.
#[derive(Drop)]
pub struct Script<'a> {
    rest: &'a [u8],
    line: u64,
}

impl<'a> Script<'a> {
    /// The whole text is still to be read.
    pub fn new(text: &'a [u8]) -> Script<'a>
        ensures rest { result.rest.now ≡ text.now }
        ensures line { result.line ≡ 0 }
    {
        Script {
            rest: text,
            line: 0,
        }
    }

    /// The number of the line that was read last, from 1.
    pub fn line(&self) -> u64
        ensures { result ≡ self.now.line }
    {
        self.line
    }

    /// The next line without its line feed, or none at the end.
    pub fn next_line(&mut self) -> Option<&'a [u8]>
        ensures shorter { MatchOption result ((length self.old.rest.now ≡ 0) × (length self.new.rest.now ≡ 0)) (λ _. length self.new.rest.now < length self.old.rest.now) }
        ensures cut { MatchOption result (self.new ≡ self.old) (λ line. CutsLine self.old.rest.now line.now self.new.rest.now) }
        ensures number { IfSome result (λ _. self.new.line ≡ min (self.old.line + 1) u64.MAX) }
    {
        let rest = self.rest;
        if rest.is_empty() {
            return None;
        }
        self.line = self.line.saturating_add(1);
        match rest.iter().position(|byte| *byte == b'\n') {
            Some(end) => {
                self.rest = &rest[end + 1..];
                Some(&rest[..end])
            }
            None => {
                self.rest = &rest[rest.len()..];
                Some(rest)
            }
        }
    }
}

/// The words of a line, from left to right, up to a comment.
#[derive(Drop)]
pub struct Words<'a> {
    rest: SplitWhitespace<'a>,
}

/// The value that a word stands for.
fn read<'a, T: FromStr>(word: &'a str, what: &'static str) -> Result<T, Complaint<'a>>
where
    T::Err: Drop,
    ensures { ReadsAs T.from_str_gives word.entry what.entry result }
{
    word.parse::<T>().map_err(|_| Complaint::Unread(what, word))
}

impl<'a> Words<'a> {
    pub fn new(line: &'a str) -> Words<'a>
        ensures { IsWordsOf line.now result }
    {
        Words {
            rest: line.split_whitespace(),
        }
    }

    /// The next word, or none at the end of the line or at a comment.
    pub fn next_word(&mut self) -> Option<&'a str>
        ensures { MatchOption result (IsAtEnd self.old) (λ w. Takes self.old w self.new) }
    {
        let word = self.rest.next()?;
        if word.starts_with('#') {
            self.rest = "".split_whitespace();
            return None;
        }
        Some(word)
    }

    /// The next word, which stands for `what`.
    pub fn word(&mut self, what: &'static str) -> Result<&'a str, Complaint<'a>>
        ensures { MatchResult result (λ w. Takes self.old w self.new) (λ c. IsAtEnd self.old × (c ≡ Complaint.Missing what.entry)) }
    {
        self.next_word().ok_or(Complaint::Missing(what))
    }

    /// The value that the next word stands for.
    pub fn read<T: FromStr>(&mut self, what: &'static str) -> Result<T, Complaint<'a>>
    where
        T::Err: Drop,
        ensures { Reads T.from_str_gives what.entry self.old result self.new }
    {
        read(self.word(what)?, what)
    }

    /// The same, with a value for where the line ends before.
    pub fn read_or<T: FromStr + Drop>(
        &mut self,
        what: &'static str,
        other: T,
    ) -> Result<T, Complaint<'a>>
    where
        T::Err: Drop,
        ensures { ReadsOr T.from_str_gives what.entry other self.old result self.new }
    {
        // A match: in `map_or` the closure would need the contract of `read` once more.
        match self.next_word() {
            Some(word) => read(word, what),
            None => Ok(other),
        }
    }

    /// Whether the line ends here.
    pub fn end(&mut self) -> Result<(), Complaint<'a>>
        ensures { EndsLine self.old result self.new }
    {
        self.next_word()
            .map_or(Ok(()), |word| Err(Complaint::Extra(word)))
    }
}

/// The command of a line, and the words after it; none where the line has no word.
pub fn read_line<'a>(line: &'a [u8]) -> Result<Option<(Command, Words<'a>)>, Complaint<'a>>
    ensures { ReadsLine line.now result }
{
    let text = from_utf8(line).map_err(|_| Complaint::NoText)?;
    let mut words = Words::new(text);
    let Some(word) = words.next_word() else {
        return Ok(None);
    };
    let command = word
        .parse::<Command>()
        .map_err(|_| Complaint::Unknown(word))?;
    Ok(Some((command, words)))
}
