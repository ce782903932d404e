//! A link as text.

ghost use Rattle.std.specs.Prelude.{◌≡◌, ◌≢◌, ◌<◌, ℕ, List, length, map, IsTrue, MatchOption};
ghost use Rattle.std.specs.List.{range_with_len};
ghost use Rattle.at_cid.specs.Link.{is_link, IsBytes};
ghost use Rattle.at_cid.specs.Text.{letter_of, digit_of, five_bits, bits_of_pair, letter_at, text_of, octet_at, octets_of};

use crate::cid::{Cid, LINK_LEN, parse_binary};
use crate::ghost_facts::ghost_bytes;
use std::str;

/// How many bytes a link's text has.
pub const TEXT_LEN: usize = 59;

/// How many of them are letters of five bits, behind the `b`.
const LETTERS: usize = 58;

fn letter(bits: u8) -> u8
    requires { bits < 32 }
    ensures { result ≡ letter_of bits }
{
    if bits < 26 { b'a' + bits } else { bits + 24 }
}

fn digit(letter: u8) -> u8
    ensures value { result ≡ digit_of letter }
    ensures below { result < 32 }
{
    match letter {
        b'a'..=b'z' => letter - b'a',
        b'2'..=b'7' => letter - 24,
        _ => 0,
    }
}

// The five bits from the bit at 5 * k on, which lie in two bytes.
#[tactic(auto, unfolding(crate::specs::Text::bits_of_pair))]
fn bits_of_pair(bytes: &[u8; LINK_LEN], k: usize) -> u8
    requires { k < LETTERS }
    ensures value { result ≡ bits_of_pair bytes.now k }
    ensures below { result < 32 }
{
    let at = 5 * k / 8;
    let low = if at < LINK_LEN - 1 { bytes[at + 1] } else { 0 };
    let pair = u32::from(bytes[at]) * 256 + u32::from(low);
    ((pair >> (11 - 5 * k % 8) as u32) % 32) as u8
}

#[tactic(auto, using(crate::proofs::Bits::bits_in_two))]
fn bits_at(bytes: &[u8; LINK_LEN], k: usize) -> u8
    requires { k < LETTERS }
    ensures value { result ≡ five_bits bytes.now k }
    ensures below { result < 32 }
{
    ghost_bytes(bytes);
    bits_of_pair(bytes, k)
}

#[tactic(auto, unfolding(crate::specs::Text::letter_at))]
fn letter_of_place(bytes: &[u8; LINK_LEN], k: usize) -> u8
    requires { k < LETTERS }
    ensures { result ≡ letter_at bytes.now k }
{
    letter(bits_at(bytes, k))
}

fn letters(bytes: &[u8; LINK_LEN]) -> [u8; LETTERS]
    ensures { result ≡ map (letter_at bytes.now) (range_with_len 0 LETTERS) }
{
    let mut letters = [0; LETTERS];
    for k in 0..LETTERS {
        letters[k] = letter_of_place(bytes, k);
    }
    letters
}

// The eight bits from the bit at 8 * i on, of those that the letters stand for.
#[tactic(auto, unfolding(crate::specs::Text::octet_at))]
fn octet(text: &[u8], i: usize) -> u8
    requires long { length text.now ≡ TEXT_LEN }
    requires within { i < LINK_LEN }
    ensures { result ≡ octet_at text.now i }
{
    let at = 8 * i / 5 + 1;
    let third = if at < LETTERS - 1 {
        digit(text[at + 2])
    } else {
        0
    };
    let bits = u32::from(digit(text[at])) * 1024
        + u32::from(digit(text[at + 1])) * 32
        + u32::from(third);
    ((bits >> (7 - 8 * i % 5) as u32) % 256) as u8
}

fn octets(text: &[u8]) -> [u8; LINK_LEN]
    requires { length text.now ≡ TEXT_LEN }
    ensures { result ≡ octets_of text.now }
{
    let mut octets = [0; LINK_LEN];
    for i in 0..LINK_LEN {
        octets[i] = octet(text, i);
    }
    octets
}

impl Cid {
    /// Writes the text: `b`, and the base32 of the 36 bytes in lower case without padding (RFC 4648). Takes no memory.
    pub fn write_text(&self, out: &mut [u8; TEXT_LEN])
        ensures { out.new ≡ text_of self.now }
    {
        out[0] = b'b';
        out[1..].copy_from_slice(&letters(self.as_bytes()));
    }
}

/// The text of a link, as a text, which is written into the room. Takes no memory.
pub fn link_text<'a>(link: &Cid, room: &'a mut [u8; TEXT_LEN]) -> &'a str
    ensures { result.now ≡ text_of link.now }
{
    link.write_text(room);
    let Ok(text) = str::from_utf8(room) else {
        unreachable!()
    };
    text
}

/// The link that the bytes are the text of. Each link has one text: upper case, padding or a last letter whose two
/// unused bits aren't 0 encode none.
pub fn parse_text(text: &[u8]) -> Option<Cid>
    ensures { MatchOption result
        ((link : List ℕ) → IsTrue (is_link link) → IsBytes link → text.now ≢ text_of link)
        (λ link. text.now ≡ text_of link) }
{
    if text.len() != TEXT_LEN {
        return None;
    }
    let Some(link) = parse_binary(&octets(text)) else {
        return None;
    };
    let mut encoded = [0; TEXT_LEN];
    link.write_text(&mut encoded);
    if encoded.as_slice() == text {
        Some(link)
    } else {
        None
    }
}
