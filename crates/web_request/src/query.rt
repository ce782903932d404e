//! The values that a query names.

ghost use Rattle.std.specs.Prelude.{◌≡◌, IfOk, option_map};
ghost use Rattle.std.specs.Cow.{cow_str_bytes};
ghost use Rattle.form_urlencoded.specs.Form.{raw_pairs as pairs_in};
ghost use Rattle.web_request.specs.Requests.{first_named};

use form_urlencoded::{decode, raw_pairs};
use std::alloc::{AllocError, Global};
use std::borrow::CowStr;

/// The value of the first pair of a query that has this name, decoded; names are compared decoded.
///
/// A query is a form (URL Standard, section 5). A pair without `=` has the empty value, and what
/// isn't UTF-8 becomes U+FFFD. An error says that there was no memory to decode a name or the
/// value.
pub fn value_of<'a>(
    alloc: Global,
    query: &'a [u8],
    name: &str,
) -> Result<Option<CowStr<'a>>, AllocError>
    ensures { IfOk result (λ found. option_map cow_str_bytes found
        ≡ first_named name.now (pairs_in query.now)) }
{
    for (one, value) in raw_pairs(query) {
        if decode(alloc, one)?.as_str() == name {
            return Ok(Some(decode(alloc, value)?));
        }
    }
    Ok(None)
}
