//! The parameters of queries.

ghost use Rattle.std.specs.Prelude.{◌≡◌, ◌<◌, Some, None, IfSome, option_map, if◌then◌else◌};
ghost use Rattle.std.specs.Cow.{cow_str_bytes};
ghost use Rattle.at_syntax.specs.Did.{is_did};
ghost use Rattle.relay_query.specs.Replies.{cursor_param, did_param, limit_in};

use at_syntax::did_ok;
use std::borrow::CowStr;
use web_request::number_in;

/// How many accounts a page has at most where the request doesn't say.
const DEFAULT_LIMIT: usize = 500;

/// The greatest limit.
const GREATEST_LIMIT: u64 = 1000;

/// The most digits of a limit.
const LONGEST_LIMIT: usize = 4;

/// How many accounts a page has at most, from 1 to 1,000, by the parameter `limit`.
pub(crate) fn limit_in(value: &Option<CowStr<'_>>) -> Option<usize>
    ensures limit { result ≡ limit_in (option_map cow_str_bytes value.now) }
    ensures some { IfSome result (λ limit. 0 < limit) }
{
    let Some(text) = value else {
        return Some(DEFAULT_LIMIT);
    };
    match number_in(text.as_str(), LONGEST_LIMIT) {
        Some(number) if number >= 1 && number <= GREATEST_LIMIT => Some(number as usize),
        _ => None,
    }
}

/// The DID behind which a page begins, by the parameter `cursor`; the empty text where it is
/// absent.
pub(crate) fn cursor_in<'a>(value: &'a Option<CowStr<'a>>) -> Option<&'a str>
    ensures { option_map (λ text. text.now) result
        ≡ cursor_param (option_map cow_str_bytes value.now) }
{
    match value {
        None => Some(""),
        Some(text) => some_did(text.as_str()),
    }
}

/// The DID of the parameter `did`.
pub(crate) fn did_in<'a>(value: &'a Option<CowStr<'a>>) -> Option<&'a str>
    ensures { option_map (λ text. text.now) result
        ≡ did_param (option_map cow_str_bytes value.now) }
{
    match value {
        None => None,
        Some(text) => some_did(text.as_str()),
    }
}

// The text, where it is a DID.
fn some_did(text: &str) -> Option<&str>
    ensures { option_map (λ text. text.now) result
        ≡ (if is_did text.now then Some text.now else None) }
{
    if did_ok(text) { Some(text) } else { None }
}
