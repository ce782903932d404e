//! Requests over HTTP and the replies to them, and the lines of the operations of messages.

use at_cid::Octets;
use at_event::{Frame, read_frame};
use json_lines::{lines as lines_of, message_lines};
use relay_core::Core;
use relay_query::answer;
use std::mem;
use vector_lines::Case;
use web_request::{number_in, parts_of, request_line, value_of};

// The most digits that a number is asked for in.
const MOST_DIGITS: usize = 19;

/// Answers `REQUEST = METHOD TARGET`, or `none` of a request that begins with no head.
pub fn request_line_of(case: &mut Case<'_>) {
    let request = case.bytes(" ");
    match request_line(request.as_slice()) {
        Some(line) => {
            case.say_bytes(line.method);
            case.say(" ");
            case.say_bytes(line.target);
        }
        None => case.say("none"),
    }
}

/// Answers `TARGET ; NAME ; MOST = PATH ; QUERY ; VALUE ; NUMBER`: the parts of a target, the value of a name in its query, and the
/// number that the value is in at most so many digits, the last two `none` where there are none.
pub fn parameters(case: &mut Case<'_>) {
    let target = case.bytes(" ; ");
    let (path, query) = parts_of(target.as_slice());
    case.say_bytes(path);
    case.say(" ; ");
    case.say_bytes(query);
    say_value(case, query);
}

fn say_value(case: &mut Case<'_>, query: &[u8]) {
    let name = case.bytes(" ; ");
    let most = case.size(" ; ").min(MOST_DIGITS);
    if let Ok(name) = str::from_utf8(name.as_slice()) {
        match case.gave(value_of(case.alloc, query, name)) {
            Some(Some(value)) => {
                case.say(" ; ");
                case.say_bytes(value.as_str().as_bytes());
                say_number(case, number_in(value.as_str(), most));
            }
            _ => case.say(" ; none ; none"),
        }
    }
}

fn say_number(case: &mut Case<'_>, number: Option<u64>) {
    case.say(" ; ");
    match number {
        Some(number) => case.say_number(number),
        None => case.say("none"),
    }
}

/// Answers `REQUEST = REPLY`, by the state behind a journal.
pub fn reply(case: &mut Case<'_>, core: &Core) {
    let request = case.bytes(" ");
    if let Some(reply) = case.gave(answer(case.alloc, core, request.as_slice())) {
        case.say_bytes(reply.as_slice());
    }
}

/// Answers `COLLECTION ; MESSAGE = LINES`: the lines of the operations of a message in a collection, or in all for `-`.
pub fn lines(case: &mut Case<'_>) {
    let collection = case.part_or_none(" ; ");
    let message = case.bytes(" ; ");
    let mut out = Octets::new(case.alloc);
    case.did(message_lines(case.alloc, message.as_slice(), collection, &mut out));
    case.say_bytes(out.as_slice());
    let frame = read_frame(case.alloc, message.as_slice());
    lines_of_event(case, frame.as_ref().ok(), collection, &out);
    mem::drop(frame);
}

// Notes whether the event of a message has other lines.
fn lines_of_event(
    case: &mut Case<'_>,
    frame: Option<&Frame>,
    collection: Option<&str>,
    wanted: &Octets,
) {
    if let Some(Frame::Event(event)) = frame {
        let mut out = Octets::new(case.alloc);
        case.did(lines_of(case.alloc, event, collection, &mut out));
        case.must(out == *wanted, ", but others of the event");
    }
}
