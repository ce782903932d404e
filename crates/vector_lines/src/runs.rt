//! Runs of equal bytes.

use anyhow::{Context, Result};
use std::alloc::Global;

/// The text with the digits of each run `<XX x N>` written out.
pub fn expanded(alloc: Global, text: &str) -> Result<String> {
    let mut whole = String::new(alloc);
    let mut pieces = text.split('<');
    if let Some(front) = pieces.next() {
        whole.push_str(front)?;
    }
    for piece in pieces {
        let (run, after) = piece.split_once('>').context("a run ends with >")?;
        add_run(&mut whole, run)?;
        whole.push_str(after)?;
    }
    Ok(whole)
}

// Adds the digits of a run.
fn add_run(text: &mut String, run: &str) -> Result<()> {
    let (byte, count) = run.split_once(" x ").context("a run is <XX x N>")?;
    for _ in 0..count.parse::<u32>()? {
        text.push_str(byte)?;
    }
    Ok(())
}
