//! The head of a request.

ghost use Rattle.std.specs.Prelude.{◌≡◌, MatchOption};
ghost use Rattle.httparse.specs.Grammar.{RequestHead};
ghost use Rattle.web_request.specs.Requests.{BeginsWith, BeginsWithNone, path_of, query_of};

use httparse::Status;
use httparse::spans::{EMPTY_HEADER_SPAN, parse_request};

/// How many header fields a request has at most.
pub const MOST_HEADERS: usize = 64;

/// The request line of a request (RFC 9112, section 3), but for its version.
#[derive(Clone, Copy, Debug)]
pub struct RequestLine<'a> {
    /// The method, which is case-sensitive.
    pub method: &'a [u8],
    /// The request target as it came: nothing in it is decoded.
    pub target: &'a [u8],
}

/// The request line of a request that begins with a whole head of at most [`MOST_HEADERS`] header
/// fields, by the grammar of `httparse` in its default configuration: HTTP/1.0 or 1.1, lines that
/// end in CR LF or in LF alone, empty lines in front, no folded lines. What stands behind the head
/// isn't looked at. None of every other request. Takes no memory.
pub fn request_line(request: &[u8]) -> Option<RequestLine<'_>>
    ensures { MatchOption result
        (BeginsWithNone 64 request.now)
        (λ line. (head : RequestHead) × BeginsWith 64 request.now head
        × (line.method.now ≡ head.method) × (line.target.now ≡ head.target)) }
{
    let mut headers = [EMPTY_HEADER_SPAN; MOST_HEADERS];
    match parse_request(request, &mut headers) {
        Ok(Status::Complete(head)) => Some(RequestLine {
            method: head.method.of(request),
            target: head.path.of(request),
        }),
        _ => None,
    }
}

/// The path of a request target, and the query behind its first `?`, which is empty where there is
/// none.
pub fn parts_of(target: &[u8]) -> (&[u8], &[u8])
    ensures path { result.0.now ≡ path_of target.now }
    ensures query { result.1.now ≡ query_of target.now }
{
    match target.iter().position(|&byte| byte == b'?') {
        Some(place) => (&target[..place], &target[place + 1..]),
        None => (target, &[]),
    }
}
