//! What is found in a case, as it is told.

use std::alloc::Global;
use std::fmt::{Debug, Display, Write};

/// What is found in a case. Where memory lacks, the rest is lost, and told to be so.
#[derive(Drop)]
pub struct Found {
    alloc: Global,
    text: String,
    is_lost: bool,
}

/// Bytes, and where each of the words begins that spell them.
#[derive(Drop)]
pub struct Spelling {
    pub bytes: Vec<u8>,
    pub begins: Vec<usize>,
}

impl Spelling {
    /// How many of the words begin up to a place.
    pub fn words_begun(&self, place: usize) -> usize {
        self.begins.iter().filter(|begin| **begin <= place).count()
    }

    /// Where the word begins in which a place stands.
    pub fn word_begin(&self, place: usize) -> usize {
        let begun = self.begins.iter().rev().find(|begin| **begin <= place);
        begun.copied().unwrap_or(0)
    }
}

impl Found {
    /// Nothing yet.
    pub fn new(alloc: Global) -> Found {
        Found {
            alloc,
            text: String::new(alloc),
            is_lost: false,
        }
    }

    /// Where memory is taken.
    pub fn alloc(&self) -> Global {
        self.alloc
    }

    /// What was told.
    pub fn text(&self) -> &str {
        if self.is_lost {
            "out of memory"
        } else {
            self.text.as_str().trim()
        }
    }

    /// Forgets what was told.
    pub fn clear(&mut self) {
        self.text.clear();
    }

    /// Whether a call was done that takes memory.
    pub fn done(&mut self, is_done: bool) {
        self.is_lost |= !is_done;
    }

    /// Tells a text.
    pub fn say(&mut self, text: &str) {
        self.is_lost |= self.text.push_str(text).is_err();
    }

    /// Tells a value.
    pub fn tell(&mut self, value: &impl Display) {
        self.is_lost |= write!(self.text, "{value}").is_err();
    }

    /// Tells a value by the names of its parts.
    pub fn debug(&mut self, value: &impl Debug) {
        self.is_lost |= write!(self.text, "{value:?}").is_err();
    }

    /// Tells the digits of bytes.
    pub fn hex(&mut self, bytes: &[u8]) {
        for byte in bytes {
            self.is_lost |= write!(self.text, "{byte:02x}").is_err();
        }
    }

    /// Tells bytes as words spell them: those that are all alike by their count.
    pub fn bytes(&mut self, bytes: &[u8]) {
        match bytes {
            [] => self.say("-"),
            [first, ..] if bytes.len() > 4 && bytes.iter().all(|byte| byte == first) => {
                self.is_lost |= write!(self.text, "{first:02x}*{}", bytes.len()).is_err();
            }
            _ => self.hex(bytes),
        }
    }

    /// The number that a word spells.
    pub fn number(&mut self, word: &str) -> u64 {
        match word.parse() {
            Ok(number) => number,
            Err(_) => {
                self.say("no number ");
                0
            }
        }
    }

    /// The number of at most 32 bits that a word spells.
    pub fn short_number(&mut self, word: &str) -> u32 {
        u32::try_from(self.number(word)).unwrap_or(u32::MAX)
    }

    /// The number that a word spells in hexadecimal digits.
    pub fn hex_number(&mut self, word: &str) -> u32 {
        match u32::from_str_radix(word, 16) {
            Ok(number) => number,
            Err(_) => {
                self.say("no number ");
                0
            }
        }
    }

    /// The hash that words spell, as its bytes stand.
    pub fn hash_of(&mut self, words: &str) -> [u8; 32] {
        let bytes = self.bytes_of(words);
        match bytes.as_slice().try_into() {
            Ok(hash) => hash,
            Err(_) => {
                self.say("no hash ");
                [0; 32]
            }
        }
    }

    /// The hash that a word spells in the order in which it is displayed.
    pub fn displayed(&mut self, word: &str) -> [u8; 32] {
        let mut hash = self.hash_of(word);
        hash.reverse();
        hash
    }

    /// Tells a hash in the order in which it is displayed.
    pub fn display(&mut self, hash: &[u8; 32]) {
        let mut bytes = *hash;
        bytes.reverse();
        self.hex(&bytes);
    }

    /// The bytes that words spell: hexadecimal digits each, maybe with a `*` and how often they come.
    /// The word `-` spells nothing.
    pub fn spelled(&mut self, words: &str) -> Spelling {
        let mut spelling = Spelling {
            bytes: Vec::new(self.alloc),
            begins: Vec::new(self.alloc),
        };
        for word in words.split_whitespace() {
            self.is_lost |= spelling.begins.push(spelling.bytes.len()).is_err();
            if word != "-" {
                self.put_word(&mut spelling.bytes, word);
            }
        }
        spelling
    }

    fn put_word(&mut self, bytes: &mut Vec<u8>, word: &str) {
        let (digits, times) = word.split_once('*').unwrap_or((word, "1"));
        let times = self.number(times);
        match hex::decode(self.alloc, digits) {
            Ok(once) => self.put_often(bytes, &once, times),
            Err(_) => self.say("no digits "),
        }
    }

    fn put_often(&mut self, bytes: &mut Vec<u8>, once: &[u8], times: u64) {
        for _ in 0..times {
            self.is_lost |= bytes.extend_from_slice(once).is_err();
        }
    }

    /// The bytes that words spell.
    pub fn bytes_of(&mut self, words: &str) -> Vec<u8> {
        self.spelled(words).bytes
    }
}
