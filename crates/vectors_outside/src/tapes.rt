//! Tapes.

use relay_io::MemorySource;
use tape::{Record, Tape, TapeFault};
use vector_lines::Case;

/// So many bytes of a tape come at a call.
const STEP: usize = 7;

/// More bytes than the tape of any row has.
const MANY: u64 = 1 << 40;

/// More records than the tape of any row has.
const RECORDS: u32 = 1000;

/// Answers `BYTES = HOST:MESSAGE .. and end, or the fault`; `-` stands for no record.
pub fn records(case: &mut Case<'_>) {
    let content = case.bytes(" ");
    let source = MemorySource::new(case.alloc, content.as_slice(), STEP, &[]);
    if let Some(mut source) = case.gave(source) {
        let mut tape = Tape::new(case.alloc, MANY);
        for i in 0..RECORDS {
            let next = tape.next(&mut source);
            if !has_said(case, i, &next) {
                return;
            }
        }
    }
}

// Answers a record, or what is in its place behind so many, and tells whether it was one.
fn has_said(case: &mut Case<'_>, records: u32, next: &Result<Option<Record>, TapeFault>) -> bool {
    if let Ok(Some(record)) = next {
        case.say(record.host.as_str());
        case.say(":");
        case.say_bytes(record.message.as_slice());
        case.say(" ");
        return true;
    }
    case.say(if records == 0 { "- " } else { "" });
    match next {
        Err(fault) => case.say_named(fault),
        _ => case.say("end"),
    }
    false
}
