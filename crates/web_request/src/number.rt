//! Numbers in texts.

ghost use Rattle.std.specs.Prelude.{◌≡◌, ◌≤◌};
ghost use Rattle.web_request.specs.Requests.{are_digits, decimal_in};

/// The number that a text of 1 to `most` decimal digits is, which may begin with zeros; none of
/// every other text.
///
/// The most digits are at most 19, each number of which fits 64 bits.
pub fn number_in(text: &str, most: usize) -> Option<u64>
    requires { most ≤ 19 }
    ensures { result ≡ decimal_in most text.now }
{
    if text.len() > most || !are_digits(text.as_bytes()) {
        return None;
    }
    text.parse::<u64>().ok()
}

// Whether a text is decimal digits alone.
fn are_digits(text: &[u8]) -> bool
    ensures { result ≡ are_digits text.now }
{
    text.iter().all(|byte| byte.is_ascii_digit())
}
