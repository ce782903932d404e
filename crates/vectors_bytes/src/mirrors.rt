//! Streams that are mirrored: messages, each behind its length in four bytes.

use mirror_run::mirror;
use relay_io::{MemoryRepos, MemorySink, MemorySource, Repository};
use vector_lines::Case;

/// How many bytes are read or written at a call.
const STEP: usize = 61;

/// The most bytes that are written.
const ROOM: usize = 1 << 16;

/// As many bytes at most are taken where a row names no limit.
const LIMIT: u64 = 1 << 40;

/// Answers `STREAM ; LIMIT or - ; REPOSITORIES = how the command ends | each line that it writes`: of the stream at most so many
/// bytes are taken; the repositories are `DID BYTES` with commas between two, or `-`.
pub fn mirrored(case: &mut Case<'_>) {
    let stream = case.bytes(" ; ");
    let limit = match case.part_or_none(" ; ") {
        Some(limit) => limit.parse::<u64>().ok().unwrap_or(0),
        None => LIMIT,
    };
    if let Some(mut repos) = repositories(case) {
        let input = MemorySource::new(case.alloc, stream.as_slice(), STEP, &[]);
        if let Some(mut input) = case.gave(input) {
            if let Some(mut out) = case.gave(MemorySink::new(case.alloc, ROOM, STEP, &[])) {
                let limit = limit.min(LIMIT);
                let end = mirror(case.alloc, limit, &mut input, &mut repos, &mut out);
                case.say_named(&end);
                say_written(case, out.content());
            }
        }
    }
}

fn repositories(case: &mut Case<'_>) -> Option<MemoryRepos> {
    let mut all = Vec::new(case.alloc);
    let words = case.part(" ; ");
    if words != "-" {
        for word in words.split(", ") {
            let rest = case.turn(word);
            let did = case.words(" ");
            let bytes = case.octets(" ");
            case.back(rest);
            case.did(all.push(Repository { did, bytes }));
        }
    }
    case.gave(MemoryRepos::new(case.alloc, all, STEP, &[]))
}

fn say_written(case: &mut Case<'_>, written: &[u8]) {
    if let Ok(text) = str::from_utf8(written) {
        for line in text.lines() {
            case.say(" | ");
            case.say(line);
        }
    }
}
