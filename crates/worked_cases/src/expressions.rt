//! Bytes by their digits and by names.

use anyhow::{Context, Result, bail};
use std::alloc::Global;

/// Bytes that have a name.
#[derive(Drop)]
struct Named {
    name: String,
    bytes: Vec<u8>,
}

/// What names stand for. Each is given once.
#[derive(Drop)]
pub struct Names {
    alloc: Global,
    items: Vec<Named>,
}

impl Names {
    pub fn new(alloc: Global) -> Names {
        Names {
            alloc,
            items: Vec::new(alloc),
        }
    }

    /// `NAME EXPRESSION`: the name stands for the bytes.
    pub fn add_bytes(&mut self, line: &str) -> Result<()> {
        let (name, expression) = line.split_once(' ').unwrap_or((line, ""));
        let bytes = self.bytes_of(expression)?;
        self.add(name, bytes)
    }

    /// `NAME TEXT`: the name stands for the bytes of the text, in which `\n` is a line's end.
    pub fn add_text(&mut self, line: &str) -> Result<()> {
        let (name, text) = line.split_once(' ').unwrap_or((line, ""));
        let bytes = self.text_of(text)?;
        self.add(name, bytes)
    }

    fn add(&mut self, name: &str, bytes: Vec<u8>) -> Result<()> {
        if self.named(name).is_ok() {
            bail!("{name} is given twice");
        }
        let name = String::from_str(self.alloc, name)?;
        self.items.push(Named { name, bytes })?;
        Ok(())
    }

    /// The bytes of a text in which `\n` is a line's end.
    pub fn text_of(&self, text: &str) -> Result<Vec<u8>> {
        let mut bytes = Vec::new(self.alloc);
        let mut is_first = true;
        for part in text.split("\\n") {
            if !is_first {
                bytes.push(b'\n')?;
            }
            is_first = false;
            bytes.extend_from_slice(part.as_bytes())?;
        }
        Ok(bytes)
    }

    /// What a name stands for.
    pub fn named(&self, name: &str) -> Result<&[u8]> {
        for item in &self.items {
            if item.name.as_str() == name {
                return Ok(&item.bytes);
            }
        }
        bail!("no bytes have the name {name}")
    }

    /// The bytes that an expression spells.
    pub fn bytes_of(&self, expression: &str) -> Result<Vec<u8>> {
        let mut bytes = Vec::new(self.alloc);
        for word in expression.split_whitespace() {
            self.add_word(&mut bytes, word)?;
        }
        Ok(bytes)
    }

    /// Adds to bytes what a word of an expression stands for.
    pub fn add_word(&self, bytes: &mut Vec<u8>, word: &str) -> Result<()> {
        if let Some(name) = word.strip_prefix("$") {
            bytes.extend_from_slice(self.named(name)?)?;
        } else if let Some(length) = word.strip_prefix("..") {
            bytes.truncate(number(length)? as usize);
        } else if let Some((place, pattern)) = word.split_once('^') {
            self.change(bytes, number(place)? as usize, pattern)?;
        } else if let Some((digits, count)) = word.split_once('*') {
            let run = hex::decode(self.alloc, digits)?;
            for _ in 0..number(count)? {
                bytes.extend_from_slice(&run)?;
            }
        } else {
            bytes.extend_from_slice(&hex::decode(self.alloc, word)?)?;
        }
        Ok(())
    }

    /// Changes the bits of a byte that a pattern has.
    fn change(&self, bytes: &mut Vec<u8>, place: usize, pattern: &str) -> Result<()> {
        let pattern = hex::decode(self.alloc, pattern)?;
        let Some((byte, pattern)) = bytes.get_mut(place).zip(pattern.first()) else {
            bail!("no byte {place} is there to change");
        };
        *byte ^= *pattern;
        Ok(())
    }
}

/// A number in decimal digits.
pub fn number(text: &str) -> Result<u64> {
    text.parse().context("a number")
}
