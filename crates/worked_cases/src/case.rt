//! A case: its title, and its lines by their keys.

use crate::expressions::{Names, number};
use anyhow::{Result, bail};
use command_line::Word;
use std::alloc::Global;

/// What a line may begin with. Those from `status` on say what is wanted.
const KEYS: [&str; 33] = [
    "words",
    "sizes",
    "file",
    "input",
    "feed",
    "doors",
    "caller",
    "nobody",
    "starved",
    "fail-open",
    "fail-read",
    "fail-take",
    "fail-put",
    "fail-append",
    "fail-accept",
    "fail-link-take",
    "fail-link-put",
    "disk",
    "fail-open-disk",
    "fail-disk",
    "stop-disk",
    "status",
    "output",
    "prints",
    "kept",
    "records",
    "opened",
    "reached",
    "held",
    "asked",
    "back",
    "disks",
    "on-disk",
];

/// A line of a case: its key, and what stands behind it.
#[derive(Clone, Copy)]
pub struct Line<'a> {
    pub key: &'a str,
    pub rest: &'a str,
}

/// The lines of a group and behind them those of a case.
#[derive(Drop)]
pub struct Case<'a> {
    title: Option<&'a str>,
    lines: Vec<Line<'a>>,
    /// How many of the lines are the group's.
    shared: usize,
}

impl<'a> Case<'a> {
    pub fn new(alloc: Global) -> Case<'a> {
        Case {
            title: None,
            lines: Vec::new(alloc),
            shared: 0,
        }
    }

    /// Begins a group: neither it nor a case has a line.
    pub fn begin_group(&mut self) {
        self.title = None;
        self.lines.clear();
        self.shared = 0;
    }

    /// Begins a case of the group.
    pub fn begin(&mut self, title: &'a str) {
        self.title = Some(title);
        self.lines.truncate(self.shared);
    }

    /// Adds a line, to the group where no case has begun.
    pub fn add(&mut self, key: &'a str, rest: &'a str) -> Result<()> {
        if !KEYS.contains(&key) {
            bail!("{key} is no key of a line");
        }
        self.lines.push(Line { key, rest })?;
        if self.title.is_none() {
            self.shared = self.lines.len();
        }
        Ok(())
    }

    pub fn title(&self) -> Option<&'a str> {
        self.title
    }

    pub fn lines(&self) -> &[Line<'a>] {
        &self.lines
    }

    /// What stands behind the key in the last line that has it.
    pub fn last(&self, key: &str) -> Option<&'a str> {
        for line in self.lines.iter().rev() {
            if line.key == key {
                return Some(line.rest);
            }
        }
        None
    }

    /// The numbers behind the key, or none.
    pub fn numbers(&self, alloc: Global, key: &str) -> Result<Vec<u64>> {
        numbers(alloc, self.last(key).unwrap_or(""))
    }

    /// The words that are run, with a blank between two of them; `$NAME` is a name's bytes in hex.
    pub fn words(&self, alloc: Global, names: &Names) -> Result<Vec<Word>> {
        let mut words = Vec::new(alloc);
        let Some(line) = self.last("words") else {
            return Ok(words);
        };
        for word in line.split(' ') {
            let text = match word.strip_prefix("$") {
                Some(name) => hex::encode(alloc, names.named(name)?)?,
                None => String::from_str(alloc, word)?,
            };
            words.push(Word::of(text))?;
        }
        Ok(words)
    }
}

/// Numbers with blanks between them.
pub fn numbers(alloc: Global, text: &str) -> Result<Vec<u64>> {
    let mut numbers = Vec::new(alloc);
    for word in text.split_whitespace() {
        numbers.push(number(word)?)?;
    }
    Ok(numbers)
}
