//! Timestamp identifiers.

ghost use Rattle.std.specs.Prelude.{◌≡◌, ◌<◌, ◌^◌, List, ℕ, length, map, IsTrue, MatchOption};
ghost use Rattle.std.specs.List.{list_all};
ghost use Rattle.at_syntax.specs.Tid.{IsTid, is_tid, is_tid_character, is_first_character, character_of, digit_of, tid_value, character_at, digits_of, tid_of};

use std::marker::Model;

/// How many characters a TID has.
pub const TID_LEN: usize = 13;

/// A timestamp identifier, seen in contracts as its value, a number below 2^64: microseconds
/// since 1970 times 1,024, and a clock id below 1,024. Ordered as the values are.
#[derive(Clone, Copy, Debug, PartialEq, Eq, PartialOrd, Ord)]
pub struct Tid {
    value: u64,
}

impl Model for Tid {
    ghost use Rattle.std.specs.Prelude.{ℕ};

    ghost Value = { ℕ };

    ghost view = { λ a. a.value };

    ghost inverse = { λ n. record { value = n } };
}

fn is_tid_character(byte: u8) -> bool
    ensures { result ≡ is_tid_character byte }
{
    matches!(byte, b'2'..=b'7' | b'a'..=b'z')
}

fn is_first_character(byte: u8) -> bool
    ensures { result ≡ is_first_character byte }
{
    matches!(byte, b'2'..=b'7' | b'a'..=b'j')
}

fn character(digit: u8) -> u8
    requires { digit < 32 }
    ensures { result ≡ character_of digit }
{
    if digit < 6 { b'2' + digit } else { digit + 91 }
}

fn digit(character: u8) -> u8
    requires { IsTrue (is_tid_character character) }
    ensures value { result ≡ digit_of character }
    ensures below { result < 32 }
{
    if character < b'a' {
        character - b'2'
    } else {
        character - 91
    }
}

fn are_tid_characters(bytes: &[u8]) -> bool
    ensures { result ≡ list_all is_tid_character bytes.now }
{
    bytes.iter().all(|byte| is_tid_character(*byte))
}

#[tactic(auto, unfolding(crate::specs::Tid::is_tid))]
fn is_tid(text: &[u8]) -> bool
    ensures { result ≡ is_tid text.now }
{
    text.len() == TID_LEN && is_first_character(text[0]) && are_tid_characters(text)
}

fn value(text: &[u8]) -> u64
    requires { IsTrue (is_tid text.now) }
    ensures { result ≡ tid_value text.now }
{
    let mut value = 0;
    for byte in text {
        value = value * 32 + u64::from(digit(*byte));
    }
    value
}

#[tactic(auto, unfolding(crate::specs::Tid::character_at))]
fn character_at(value: u64, place: usize) -> u8
    requires { place < TID_LEN }
    ensures { result ≡ character_at value place }
{
    character(((value >> (60 - 5 * place) as u32) % 32) as u8)
}

impl Tid {
    /// The TID that the text encodes.
    #[tactic(auto, unfolding(crate::specs::Tid::tid_of))]
    pub fn parse(text: &str) -> Option<Tid>
        ensures value { result ≡ tid_of text.now }
        ensures encoded { MatchOption result (¬ IsTid text.now) (λ tid. text.now ≡ digits_of tid) }
    {
        let bytes = text.as_bytes();
        if is_tid(bytes) {
            Some(Tid {
                value: value(bytes),
            })
        } else {
            None
        }
    }

    /// The TID of a value.
    pub fn from_value(value: u64) -> Tid
        ensures { result ≡ value }
    {
        Tid { value }
    }

    /// Its value. Divided by 1,024, it is microseconds since 1970; the rest is a clock id.
    pub fn value(&self) -> u64
        ensures value { result ≡ self.now }
        ensures below { self.now < 2 ^ 64 }
    {
        self.value
    }

    /// Does nothing when it runs: its value has 64 bits, for the prover.
    #[inline]
    pub fn ghost_value(&self)
        ensures { self.now < 2 ^ 64 }
    {
        let _value = self.value();
    }

    /// Writes its 13 characters.
    pub fn write(&self, out: &mut [u8; TID_LEN])
        ensures { out.new ≡ digits_of self.now }
    {
        for place in 0..TID_LEN {
            out[place] = character_at(self.value, place);
        }
    }

    /// Writes its 13 characters, which are the text that it gives.
    pub fn write_text<'a>(&self, out: &'a mut [u8; TID_LEN]) -> &'a str
        ensures { result.now ≡ digits_of self.now }
    {
        self.write(out);
        let Ok(text) = str::from_utf8(out) else {
            unreachable!()
        };
        text
    }
}
