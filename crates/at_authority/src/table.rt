//! What an authority knows, as lines of text.

ghost use Rattle.std.specs.Prelude.{◌≡◌, ℕ, List, [], ◌∷◌, ◌++◌, length, MatchOption, IfOk, OnOk};
ghost use Rattle.std.specs.List.{position_or_len, before_first};
ghost use Rattle.at_authority.specs.Queries.{Query, asks_home, asks_verdict};
ghost use Rattle.at_authority.specs.Tables.{IsTable, IsBadAt, is_line_feed, told_by};
ghost use Rattle.at_authority.specs.Standing.{StandsFor, IsRead, answer_of};

use crate::TableFault;
use crate::line::{Line, read};
use at_cid::Memory;
use std::alloc::Global;
use std::collections::{BTreeMap, BTreeSet};

/// Homes of DIDs, and the signatures that are good for them, read from a text of lines. Each line ends in a line feed, and one
/// blank separates two fields.
///
/// - `home DID HOST`: the last such line of a DID names its home.
/// - `trust DID`: every verdict on the DID is good.
/// - `good DID DIGEST SIG`: that digest (64 hexadecimal digits in lower case) with that signature (an even number of them, at
///   least two) is good.
///
/// A question costs the logarithm of the number of lines.
#[derive(Drop)]
pub struct Table {
    alloc: Global,
    homes: BTreeMap<String, String>,
    trusted: BTreeSet<String>,
    good: BTreeSet<String>,
}

/// The text before the first line feed, and the text behind it.
fn around_line_feed(text: &str) -> Option<(&str, &str)>
    ensures { MatchOption result (position_or_len is_line_feed text.now ≡ length text.now)
        (λ parts. (parts.0.now ≡ before_first is_line_feed text.now)
        × (text.now ≡ parts.0.now ++ 10 ∷ parts.1.now)) }
{
    text.split_once('\n')
}

impl Table {
    fn empty(alloc: Global) -> Table
        ensures { StandsFor [] result }
    {
        Table {
            alloc,
            homes: BTreeMap::new(alloc),
            trusted: BTreeSet::new(alloc),
            good: BTreeSet::new(alloc),
        }
    }

    /// Adds what one more line says.
    fn add(&mut self, line: Line<'_>) -> Result<(), Memory>
        ensures { OnOk result ((text : List ℕ) (lines : List (List ℕ)) → IsRead text line.entry
            → StandsFor lines self.old → StandsFor (lines ++ text ∷ []) self.new) }
    {
        match line {
            Line::Home { did, host } => {
                let did = String::from_str(self.alloc, did)?;
                let host = String::from_str(self.alloc, host)?;
                self.homes.insert(did, host)?;
            }
            Line::Trust(did) => {
                let did = String::from_str(self.alloc, did)?;
                self.trusted.insert(did)?;
            }
            Line::Good(part) => {
                let part = String::from_str(self.alloc, part)?;
                self.good.insert(part)?;
            }
        }
        Ok(())
    }

    /// The table of a text, read in one pass. `BadLine` names the first line that is none of a table: an empty one too, and a
    /// last one without its line feed.
    pub fn parse(alloc: Global, text: &str) -> Result<Table, TableFault>
        ensures table { IfOk result (λ table. (lines : List (List ℕ))
            × IsTable text.now lines × ((q : Query) → answer_of table q ≡ told_by lines q)) }
        ensures bad { (number : ℕ) → result ≡ Err (TableFault.BadLine number)
            → IsBadAt number text.now }
    {
        let mut table = Table::empty(alloc);
        let mut rest = text;
        let mut number = 1u64;
        while let Some((line, others)) = around_line_feed(rest) {
            let Some(line) = read(line) else {
                return Err(TableFault::BadLine(number));
            };
            table.add(line)?;
            rest = others;
            number += 1;
        }
        if rest.is_empty() {
            Ok(table)
        } else {
            Err(TableFault::BadLine(number))
        }
    }

    /// Whether the host is the home of the DID.
    pub fn home(&self, did: &str, host: &str) -> bool
        ensures { result ≡ answer_of self.now (asks_home did.now host.now) }
    {
        match self.homes.get(did) {
            Some(home) => home.as_str() == host,
            None => false,
        }
    }

    /// Whether the signature under the digest is good for the DID.
    pub fn verdict(&self, did: &str, digest: &[u8; 32], sig: &[u8]) -> Result<bool, Memory>
        ensures { IfOk result
            (λ good. good ≡ answer_of self.now (asks_verdict did.now digest.now sig.now)) }
    {
        if self.trusted.contains(did) {
            return Ok(true);
        }
        let digest = hex::encode(self.alloc, digest.as_slice())?;
        let sig = hex::encode(self.alloc, sig)?;
        let part = format!(in self.alloc; "{did} {digest} {sig}")?;
        Ok(self.good.contains(part.as_str()))
    }
}
