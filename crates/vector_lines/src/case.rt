//! A row, and the answer to it.

use crate::reading::{bytes, link, numbers};
use at_cid::{Cid, Memory, Octets, Words, cid_of};
use std::alloc::Global;
use std::mem;

/// What is left of a row to read, and the answer so far. Whether each part could be read, and whether there was memory for the
/// answer, is told at the end, once: so no call here has an error, and what makes the calls is proved quickly.
#[derive(Drop)]
pub struct Case<'a> {
    /// The allocator.
    pub alloc: Global,
    pub(crate) rest: &'a str,
    pub(crate) answer: String,
    pub(crate) is_whole: bool,
}

impl<'a> Case<'a> {
    /// A row of which nothing is read, without an answer yet.
    pub fn new(alloc: Global, input: &'a str) -> Case<'a> {
        Case {
            alloc,
            rest: input,
            answer: String::new(alloc),
            is_whole: true,
        }
    }

    /// The next part, up to a mark or to the end.
    pub fn part(&mut self, mark: &str) -> &'a str {
        self.is_whole &= !self.rest.is_empty();
        let (part, rest) = match self.rest.split_once(mark) {
            Some(parted) => parted,
            None => (self.rest, ""),
        };
        self.rest = rest;
        part
    }

    /// Turns to a part of the row, whose own parts are read next, and gives what was left. `back` leads back to that.
    pub fn turn(&mut self, part: &'a str) -> &'a str {
        mem::replace(&mut self.rest, part)
    }

    /// Turns back from a part, which has to be read to its end.
    pub fn back(&mut self, rest: &'a str) {
        self.is_whole &= self.rest.is_empty();
        self.rest = rest;
    }

    /// The next part, or none for `-`.
    pub fn part_or_none(&mut self, mark: &str) -> Option<&'a str> {
        let part = self.part(mark);
        if part == "-" { None } else { Some(part) }
    }

    /// The next part, a text.
    pub fn words(&mut self, mark: &str) -> Words {
        match Words::from_str(self.alloc, self.part(mark)) {
            Ok(words) => words,
            Err(Memory) => {
                self.is_whole = false;
                Words::new(self.alloc)
            }
        }
    }

    /// The next part, a number.
    pub fn number(&mut self, mark: &str) -> u64 {
        let number = self.part(mark).parse::<u64>().ok();
        self.is_whole &= number.is_some();
        number.unwrap_or(0)
    }

    /// The next part, a number that may be below zero.
    pub fn integer(&mut self, mark: &str) -> i64 {
        let number = self.part(mark).parse::<i64>().ok();
        self.is_whole &= number.is_some();
        number.unwrap_or(0)
    }

    /// The next part, a number of bytes or of things.
    pub fn size(&mut self, mark: &str) -> usize {
        self.number(mark) as usize
    }

    /// The next part, numbers with a comma between two, or `-` for none.
    pub fn numbers(&mut self, mark: &str) -> Vec<u64> {
        match numbers(self.alloc, self.part(mark)) {
            Ok(numbers) => numbers,
            Err(_) => {
                self.is_whole = false;
                Vec::new(self.alloc)
            }
        }
    }

    /// The next part, bytes.
    pub fn bytes(&mut self, mark: &str) -> Vec<u8> {
        match bytes(self.alloc, self.part(mark)) {
            Ok(bytes) => bytes,
            Err(_) => {
                self.is_whole = false;
                Vec::new(self.alloc)
            }
        }
    }

    /// The next part, bytes.
    pub fn octets(&mut self, mark: &str) -> Octets {
        Octets::from_vec(self.bytes(mark))
    }

    /// The next part, a link or `-` for none.
    pub fn link_or_none(&mut self, mark: &str) -> Option<Cid> {
        let part = self.part(mark);
        let found = link(part);
        self.is_whole &= found.is_some() || part == "-";
        found
    }

    /// The next part, a link.
    pub fn link(&mut self, mark: &str) -> Cid {
        let found = self.link_or_none(mark);
        self.is_whole &= found.is_some();
        found.unwrap_or(cid_of(&[]))
    }

    /// The answer, where each part could be read, nothing is left, and there was memory.
    pub fn end(self) -> Option<String> {
        if self.is_whole && self.rest.is_empty() {
            Some(self.answer)
        } else {
            None
        }
    }
}
