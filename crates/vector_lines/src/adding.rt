//! Words that are added to a text. No clause says what they add, which a proof would carry along.

use anyhow::Result;
use at_cid::{Cid, TEXT_LEN};
use std::fmt::Debug;

/// Adds words.
pub fn add(text: &mut String, words: &str) -> Result<()> {
    text.push_str(words)?;
    Ok(())
}

/// Adds a number.
pub fn add_number(text: &mut String, number: u64) -> Result<()> {
    write!(text, "{number}")?;
    Ok(())
}

/// Adds the bytes in hexadecimal, or `-` where there are none.
pub fn add_bytes(text: &mut String, bytes: &[u8]) -> Result<()> {
    if bytes.is_empty() {
        text.push('-')?;
    }
    for byte in bytes {
        write!(text, "{byte:02x}")?;
    }
    Ok(())
}

/// Adds the text of a link.
pub fn add_link(text: &mut String, link: &Cid) -> Result<()> {
    let mut letters = [0; TEXT_LEN];
    link.write_text(&mut letters);
    text.push_str(str::from_utf8(&letters)?)?;
    Ok(())
}

/// Adds what a value is by its names.
pub fn add_named<T: Debug>(text: &mut String, value: &T) -> Result<()> {
    write!(text, "{value:?}")?;
    Ok(())
}
