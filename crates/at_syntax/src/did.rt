//! DIDs.

ghost use Rattle.std.specs.Prelude.{◌≡◌, ◌≢◌, ◌↔◌, ◌++◌, ℕ, List, IsTrue, MatchOption, codes, length};
ghost use Rattle.std.specs.List.{list_all, position_or_len, before_first, after_first};
ghost use Rattle.at_syntax.specs.Characters.{is_lower};
ghost use Rattle.at_syntax.specs.Did.{IsDid, is_did, is_method, is_identifier, is_final_character, is_identifier_character, is_colon, method_of};

use crate::characters::{is_alphanumeric, is_lower};

/// How many bytes a DID has at most.
pub const LONGEST_DID: usize = 2048;

fn is_final_character(byte: u8) -> bool
    ensures { result ≡ is_final_character byte }
{
    is_alphanumeric(byte) || matches!(byte, b'.' | b'_' | b'-')
}

fn is_identifier_character(byte: u8) -> bool
    ensures { result ≡ is_identifier_character byte }
{
    is_final_character(byte) || byte == b':' || byte == b'%'
}

fn are_lower(bytes: &[u8]) -> bool
    ensures { result ≡ list_all is_lower bytes.now }
{
    bytes.iter().all(|byte| is_lower(*byte))
}

fn are_identifier_characters(bytes: &[u8]) -> bool
    ensures { result ≡ list_all is_identifier_character bytes.now }
{
    bytes.iter().all(|byte| is_identifier_character(*byte))
}

fn is_method(bytes: &[u8]) -> bool
    ensures { result ≡ is_method bytes.now }
{
    !bytes.is_empty() && are_lower(bytes)
}

fn is_identifier(bytes: &[u8]) -> bool
    ensures { result ≡ is_identifier bytes.now }
{
    let Some((last, front)) = bytes.split_last() else {
        return false;
    };
    are_identifier_characters(front) && is_final_character(*last)
}

/// The text before the first colon, and the text behind it.
fn around_colon(text: &str) -> Option<(&str, &str)>
    ensures { MatchOption result (position_or_len is_colon text.now ≡ length text.now)
        (λ parts. (parts.0.now ≡ before_first is_colon text.now)
        × (parts.1.now ≡ after_first is_colon text.now)) }
{
    text.split_once(':')
}

/// The bytes behind `did:`.
fn behind_scheme(bytes: &[u8]) -> Option<&[u8]>
    ensures { MatchOption result ((rest : List ℕ) → bytes.now ≢ codes "did:" ++ rest)
        (λ rest. bytes.now ≡ codes "did:" ++ rest.now) }
{
    bytes.strip_prefix(b"did:")
}

/// The bytes before the first colon, which are a method, and those behind it, an identifier.
fn parts_of(bytes: &[u8]) -> Option<(&[u8], &[u8])>
    ensures { MatchOption result (position_or_len is_colon bytes.now ≡ length bytes.now)
        (λ parts. (parts.0.now ≡ before_first is_colon bytes.now)
        × (parts.1.now ≡ after_first is_colon bytes.now)) }
{
    match bytes.iter().position(|&byte| byte == b':') {
        Some(place) => Some((&bytes[..place], &bytes[place + 1..])),
        None => None,
    }
}

#[tactic(auto, unfolding(crate::specs::Did::is_did))]
fn is_did(text: &str) -> bool
    ensures { result ≡ is_did text.now }
{
    if text.len() > LONGEST_DID {
        return false;
    }
    let Some(rest) = behind_scheme(text.as_bytes()) else {
        return false;
    };
    let Some((method, identifier)) = parts_of(rest) else {
        return false;
    };
    is_method(method) && is_identifier(identifier)
}

/// Whether the text is a DID: `did:`, one or more of `a-z`, `:`, then one or more of
/// `A-Za-z0-9._:%-`, the last not `:` or `%`; at most 2,048 bytes.
#[tactic(auto, using(crate::proofs::Dids::did_grammar))]
pub fn did_ok(text: &str) -> bool
    ensures grammar { IsTrue result ↔ IsDid text.now }
    ensures test { result ≡ is_did text.now }
{
    is_did(text)
}

/// The method of a DID, which stands between its first two colons.
pub fn method(did: &str) -> &str
    requires { IsTrue (is_did did.now) }
    ensures value { result.now ≡ method_of did.now }
    ensures part { (named : IsDid did.now) → result.now ≡ named.method }
{
    let Some((_, rest)) = around_colon(did) else {
        unreachable!()
    };
    let Some((method, _)) = around_colon(rest) else {
        unreachable!()
    };
    method
}
