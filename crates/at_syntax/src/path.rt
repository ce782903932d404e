//! Paths of records in a repository.

ghost use Rattle.std.specs.Prelude.{◌≡◌, ◌↔◌, IsTrue};
ghost use Rattle.std.specs.List.{list_all};
ghost use Rattle.at_syntax.specs.Path.{IsPath, is_path, is_collection, is_record_key, is_collection_character, is_record_key_character};

use crate::characters::is_alphanumeric;

/// How many bytes a collection has at most.
pub const LONGEST_COLLECTION: usize = 317;
/// How many bytes a record key has at most.
pub const LONGEST_RECORD_KEY: usize = 512;

fn is_collection_character(byte: u8) -> bool
    ensures { result ≡ is_collection_character byte }
{
    is_alphanumeric(byte) || byte == b'.' || byte == b'-'
}

fn is_record_key_character(byte: u8) -> bool
    ensures { result ≡ is_record_key_character byte }
{
    is_alphanumeric(byte) || matches!(byte, b'_' | b'~' | b'.' | b':' | b'-')
}

fn are_collection_characters(bytes: &[u8]) -> bool
    ensures { result ≡ list_all is_collection_character bytes.now }
{
    bytes.iter().all(|byte| is_collection_character(*byte))
}

fn are_record_key_characters(bytes: &[u8]) -> bool
    ensures { result ≡ list_all is_record_key_character bytes.now }
{
    bytes.iter().all(|byte| is_record_key_character(*byte))
}

/// Whether the text is a collection: 1 to 317 bytes of `A-Za-z0-9.-`.
pub fn collection_ok(text: &str) -> bool
    ensures { result ≡ is_collection text.now }
{
    !text.is_empty()
        && text.len() <= LONGEST_COLLECTION
        && are_collection_characters(text.as_bytes())
}

fn is_record_key(text: &str) -> bool
    ensures { result ≡ is_record_key text.now }
{
    !text.is_empty()
        && text.len() <= LONGEST_RECORD_KEY
        && are_record_key_characters(text.as_bytes())
        && text != "."
        && text != ".."
}

#[tactic(auto, unfolding(crate::specs::Path::is_path), using(crate::proofs::Paths::no_slash))]
fn is_path(text: &str) -> bool
    ensures { result ≡ is_path text.now }
{
    let Some((collection, record_key)) = text.split_once('/') else {
        return false;
    };
    collection_ok(collection) && is_record_key(record_key)
}

/// Whether the text is a path: a collection of 1 to 317 bytes of `A-Za-z0-9.-`, `/`, and a
/// record key of 1 to 512 bytes of `A-Za-z0-9_~.:-` that isn't `.` or `..`.
#[tactic(auto, using(crate::proofs::Paths::path_grammar))]
pub fn path_ok(text: &str) -> bool
    ensures grammar { IsTrue result ↔ IsPath text.now }
    ensures test { result ≡ is_path text.now }
{
    is_path(text)
}
