//! The lines of a table.

ghost use Rattle.std.specs.Prelude.{◌≡◌, true, false, MatchOption, length};
ghost use Rattle.std.specs.List.{list_all, position_or_len, before_first, after_first};
ghost use Rattle.at_authority.specs.Tables.{is_line, is_blank, is_digit, is_digest, is_signature, first_field, other_fields, is_home_rest, is_signed_rest, is_good_rest};
ghost use Rattle.at_authority.specs.Standing.{IsRead};

use at_syntax::{did_ok, host_ok};

/// What a line says.
#[derive(Clone, Copy, Debug)]
pub(crate) enum Line<'a> {
    /// The home of a DID is a host.
    Home { did: &'a str, host: &'a str },
    /// Every verdict on a DID is good.
    Trust(&'a str),
    /// A DID, a digest and a signature, with a blank between two: that signature is good.
    Good(&'a str),
}

/// The text before the first blank, and the text behind it.
fn around_blank(text: &str) -> Option<(&str, &str)>
    ensures { MatchOption result (position_or_len is_blank text.now ≡ length text.now)
        (λ parts. (parts.0.now ≡ before_first is_blank text.now)
        × (parts.1.now ≡ after_first is_blank text.now)) }
{
    text.split_once(' ')
}

fn is_digit(byte: u8) -> bool
    ensures { result ≡ is_digit byte }
{
    matches!(byte, b'0'..=b'9' | b'a'..=b'f')
}

fn are_digits(bytes: &[u8]) -> bool
    ensures { result ≡ list_all is_digit bytes.now }
{
    bytes.iter().all(|byte| is_digit(*byte))
}

#[tactic(auto, unfolding(crate::specs::Tables::is_digest))]
fn is_digest(text: &str) -> bool
    ensures { result ≡ is_digest text.now }
{
    text.len() == 64 && are_digits(text.as_bytes())
}

#[tactic(auto, unfolding(crate::specs::Tables::is_signature))]
fn is_signature(text: &str) -> bool
    ensures { result ≡ is_signature text.now }
{
    !text.is_empty() && text.len() % 2 == 0 && are_digits(text.as_bytes())
}

/// Whether it is a digest and a signature with a blank between.
#[tactic(auto, using(crate::proofs::Lines::too_few_blanks))]
fn is_signed(rest: &str) -> bool
    ensures { result ≡ is_signed_rest rest.now }
{
    let Some((digest, sig)) = around_blank(rest) else {
        return false;
    };
    is_digest(digest) && is_signature(sig)
}

/// Whether it is a DID, a digest and a signature with a blank between two.
#[tactic(auto, using(crate::proofs::Lines::too_few_blanks))]
fn is_good(rest: &str) -> bool
    ensures { result ≡ is_good_rest rest.now }
{
    let Some((did, signed)) = around_blank(rest) else {
        return false;
    };
    did_ok(did) && is_signed(signed)
}

/// The DID and the host of a home line, which stand behind its kind.
#[tactic(auto, using(crate::proofs::Lines::too_few_blanks))]
fn home(rest: &str) -> Option<(&str, &str)>
    ensures { MatchOption result
        (is_home_rest rest.now ≡ false) (λ parts. (is_home_rest rest.now ≡ true)
        × (parts.0.now ≡ first_field rest.now) × (parts.1.now ≡ other_fields rest.now)) }
{
    let (did, host) = around_blank(rest)?;
    if did_ok(did) && host_ok(host) {
        Some((did, host))
    } else {
        None
    }
}

/// What a line says, without its line feed; `None` where it is none of a table.
pub(crate) fn read(text: &str) -> Option<Line<'_>>
    ensures { MatchOption result (is_line text.now ≡ false) (IsRead text.now) }
{
    let (kind, rest) = around_blank(text)?;
    if kind == "home" {
        let (did, host) = home(rest)?;
        return Some(Line::Home { did, host });
    }
    if kind == "trust" && did_ok(rest) {
        return Some(Line::Trust(rest));
    }
    if kind == "good" && is_good(rest) {
        return Some(Line::Good(rest));
    }
    None
}
