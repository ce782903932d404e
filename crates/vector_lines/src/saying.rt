//! The words of an answer.

use crate::adding::{add, add_bytes, add_link, add_named, add_number};
use crate::case::Case;
use at_cid::Cid;
use std::fmt::Debug;

impl Case<'_> {
    /// Answers some words.
    pub fn say(&mut self, words: &str) {
        self.is_whole &= add(&mut self.answer, words).is_ok();
    }

    /// Answers a number.
    pub fn say_number(&mut self, number: u64) {
        self.is_whole &= add_number(&mut self.answer, number).is_ok();
    }

    /// Answers bytes in hexadecimal, or `-` where there are none.
    pub fn say_bytes(&mut self, bytes: &[u8]) {
        self.is_whole &= add_bytes(&mut self.answer, bytes).is_ok();
    }

    /// Answers the text of a link.
    pub fn say_link(&mut self, link: &Cid) {
        self.is_whole &= add_link(&mut self.answer, link).is_ok();
    }

    /// Answers the text of a link, or `-` for none.
    pub fn say_link_or_none(&mut self, link: Option<&Cid>) {
        match link {
            Some(link) => self.say_link(link),
            None => self.say("-"),
        }
    }

    /// Answers links with a mark between two, or `-` where there are none.
    pub fn say_links(&mut self, links: &[Cid], mark: &str) {
        if links.is_empty() {
            self.say("-");
        }
        for (i, link) in links.iter().enumerate() {
            self.say(if i > 0 { mark } else { "" });
            self.say_link(link);
        }
    }

    /// Answers what a value is by its names, as a fault.
    pub fn say_named<T: Debug>(&mut self, value: &T) {
        self.is_whole &= add_named(&mut self.answer, value).is_ok();
    }

    /// Answers some words where something isn't so.
    pub fn must(&mut self, is: bool, words: &str) {
        if !is {
            self.say(words);
        }
    }

    /// Answers yes or no.
    pub fn say_yes(&mut self, is: bool) {
        self.say(if is { "yes" } else { "no" });
    }

    /// What a call gave; a fault is answered by its name.
    pub fn gave<T: Drop, F: Debug + Drop>(&mut self, given: Result<T, F>) -> Option<T> {
        match given {
            Ok(value) => Some(value),
            Err(fault) => {
                self.say_named(&fault);
                None
            }
        }
    }

    /// Notes that a call did what it was to do; a fault is answered by its name.
    pub fn did<F: Debug + Drop>(&mut self, given: Result<(), F>) -> bool {
        self.gave(given).is_some()
    }
}
