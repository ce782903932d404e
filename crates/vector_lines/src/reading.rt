//! The parts of a row.

use anyhow::{Context, Result};
use at_cid::{Cid, parse_text};
use std::alloc::Global;

/// The bytes that a text in hexadecimal stands for; `-` is none.
pub fn bytes(alloc: Global, text: &str) -> Result<Vec<u8>> {
    if text == "-" {
        return Ok(Vec::new(alloc));
    }
    hex::decode(alloc, text).context("hexadecimal")
}

/// The numbers with a comma between two, or `-` for none.
pub fn numbers(alloc: Global, text: &str) -> Result<Vec<u64>> {
    let mut numbers = Vec::new(alloc);
    if text == "-" {
        return Ok(numbers);
    }
    for word in text.split(',') {
        numbers.push(word.parse::<u64>()?)?;
    }
    Ok(numbers)
}

/// The link of a text of 59 characters.
pub fn link(text: &str) -> Option<Cid> {
    parse_text(text.as_bytes())
}
