//! How a time is written.

use os_edge::Reporter;

/// The front of a time: what stands for a digit is `0`.
const FORM: &[u8; 19] = b"0000-00-00T00:00:00";

// Whether bytes are of a form, in which `0` stands for any digit.
fn is_of_form(bytes: &[u8], form: &[u8]) -> bool {
    bytes.len() == form.len()
        && bytes.iter().zip(form.iter()).all(|(byte, wanted)| match *wanted {
            b'0' => byte.is_ascii_digit(),
            other => *byte == other,
        })
}

// Whether bytes are a fraction of a second, or nothing.
fn is_fraction(bytes: &[u8]) -> bool {
    match bytes {
        [] => true,
        [b'.', digits @ ..] => !digits.is_empty()
            && digits.iter().all(|byte| byte.is_ascii_digit()),
        _ => false,
    }
}

// Whether a text is a time as events have it: `2026-01-31T12:00:00Z`, perhaps with a fraction of a
// second, or with an offset such as `+01:00` in place of `Z`.
fn is_time(text: &str) -> bool {
    let Some((front, rest)) = text.as_bytes().split_at_checked(FORM.len()) else {
        return false;
    };
    if !is_of_form(front, FORM) {
        return false;
    }
    if let Some(fraction) = rest.strip_suffix(b"Z") {
        return is_fraction(fraction);
    }
    let Some(at) = rest.len().checked_sub(6) else {
        return false;
    };
    let (fraction, offset) = rest.split_at(at);
    is_fraction(fraction) && (is_of_form(offset, b"+00:00") || is_of_form(offset, b"-00:00"))
}

/// Says so where the time of an operator's command isn't one that consumers can read. It is taken as
/// it stands all the same.
pub fn remark_on_time(reporter: Reporter, time: &str) {
    if !is_time(time) {
        let why =
            "this is no time such as 2026-01-31T12:00:00Z, and consumers may refuse the event";
        reporter.remark(time, &why);
    }
}
