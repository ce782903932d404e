//! Streams of memory.

use at_cid::Octets;
use relay_io::{
    Feed, LONGEST_FEED_MESSAGE, MemoryFeed, MemorySink, MemorySource, read_to_end, write_all,
};
use vector_lines::Case;

/// The host whose stream is opened.
const HOST: &str = "a.example";

/// Answers `BYTES ; STEP ; LIMIT ; FAILING = the bytes that are read to the end, of at most so many, or the fault`: the source gives
/// at most STEP bytes at a call, and its calls with those numbers, from 1 on, fail.
pub fn source(case: &mut Case<'_>) {
    let content = case.bytes(" ; ");
    let step = case.size(" ; ").max(1);
    let limit = case.size(" ; ");
    let failing = case.numbers(" ; ");
    let source = MemorySource::new(case.alloc, content.as_slice(), step, failing.as_slice());
    if let Some(mut source) = case.gave(source) {
        case.did(source.reserve(1, content.len()));
        if let Some(read) = case.gave(read_to_end(case.alloc, &mut source, limit)) {
            case.say_bytes(read.as_slice());
        }
    }
}

/// Answers `BYTES ; STEP ; ROOM ; FAILING = what is written, and whether all is`: the sink takes at most STEP bytes at a call, has
/// room for ROOM, and its calls with those numbers, from 1 on, fail.
pub fn sink(case: &mut Case<'_>) {
    let content = case.bytes(" ; ");
    let step = case.size(" ; ").max(1);
    let room = case.size(" ; ");
    let failing = case.numbers(" ; ");
    let sink = MemorySink::new(case.alloc, 0, step, failing.as_slice());
    if let Some(mut sink) = case.gave(sink) {
        case.did(sink.reserve(0, room));
        let is_whole = write_all(&mut sink, content.as_slice()).is_ok();
        case.say_bytes(sink.content());
        case.say(if is_whole { " all" } else { " a front" });
    }
}

/// Answers `NUMBER MESSAGE CURSOR = the message that comes behind a cursor, and end`.
pub fn feed(case: &mut Case<'_>) {
    let number = case.number(" ");
    let message = case.octets(" ");
    if let Some(mut feed) = case.gave(MemoryFeed::new(case.alloc, &[])) {
        case.did(feed.reserve(1, 1));
        if message.len() <= LONGEST_FEED_MESSAGE {
            case.did(feed.push(number, message));
        }
        let cursor = case.number(" ");
        case.did(feed.open(HOST, cursor));
        let mut room = Octets::new(case.alloc);
        say_next(case, &mut feed, &mut room);
        case.say(" ");
        say_next(case, &mut feed, &mut room);
    }
}

fn say_next(case: &mut Case<'_>, feed: &mut MemoryFeed, room: &mut Octets) {
    match case.gave(feed.next(room)) {
        Some(true) => case.say_bytes(room.as_slice()),
        Some(false) => case.say("end"),
        None => {}
    }
}
