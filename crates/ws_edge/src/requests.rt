//! Requests that are read up to their empty line.
ghost use Rattle.std.specs.Prelude.{◌≤◌, length, IfSome};
ghost use Rattle.relay_io.specs.declared.wire.TheConstants.{LONGEST_REQUEST};

use at_cid::{Memory, Octets};
use relay_io::LONGEST_REQUEST;
use std::io::Read;

/// Reads a request, in place of what is in the room: up to and with the first empty line or the last
/// byte that it may have, or what has come where no more comes.
pub(crate) fn read_request<S: Read>(stream: &mut S, request: &mut Octets) -> Result<(), Memory>
    ensures within { length request.new ≤ LONGEST_REQUEST }
{
    request.clear();
    let mut room = [0; LONGEST_REQUEST];
    'pieces: for _ in 0..LONGEST_REQUEST {
        let left = LONGEST_REQUEST - request.len();
        if left == 0 {
            break;
        }
        match stream.read(&mut room[..left]) {
            Ok(0) => break,
            Ok(count) => request.extend(&room[..count])?,
            Err(_) => break,
        }
        if let Some(place) = behind_empty_line(request.as_slice()) {
            request.truncate(place);
            break;
        }
    }
    Ok(())
}

// The place behind the first empty line.
fn behind_empty_line(bytes: &[u8]) -> Option<usize>
    ensures within { IfSome result (λ place. place ≤ length bytes.now) }
{
    let mut rest = bytes;
    let mut begins = true;
    for _ in 0..bytes.len() {
        if begins {
            if let Some(behind) = behind_line_end(rest) {
                return Some(bytes.len().saturating_sub(behind.len()));
            }
        }
        let Some((first, others)) = rest.split_first() else {
            return None;
        };
        begins = *first == b'\n';
        rest = others;
    }
    None
}

// What stands behind the end of a line: a line feed, with or without a carriage return before it.
fn behind_line_end(bytes: &[u8]) -> Option<&[u8]> {
    match bytes {
        [b'\n', behind @ ..] => Some(behind),
        [b'\r', b'\n', behind @ ..] => Some(behind),
        _ => None,
    }
}
