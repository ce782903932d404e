//! Runs of `query` and `lines` on a disk that has the log of a journal, or other bytes. The calls of the disk, of the output and of
//! the wire with listed numbers, from 1 on, fail.

ghost use Rattle.std.specs.Prelude.{◌≤◌, All, IfOk, length};
ghost use Rattle.relay_io.specs.declared.wire.TheConstants.{LONGEST_REQUEST};

use at_authority::TrustAll;
use at_cid::{Memory, Octets};
use read_run::Reads;
use relay_disk::MemoryDisk;
use relay_io::{Exchange, LONGEST_REQUEST, ListClock, MemoryRepos, MemorySink, MemoryWire};
use relay_store::LONGEST;
use run_base::{Asked, Outside, Pair};
use std::alloc::Global;
use std::fs;
use vector_lines::Case;

// How a log of the first format begins.
const MARK: &[u8] = b"\x01atrelay\x01";

// The calls of a disk, and the bytes of its writes, for which there is room.
const CALLS: usize = 400;

const BYTES: usize = 4_000;

// The bytes that an output has room for, and those that it takes at a call.
const ROOM: usize = 10_000;

const STEP: usize = 200;

// The replies of a wire for which there is room, and the bytes of each.
const REPLIES: usize = 20;

const REPLY: usize = 4_000;

/// The log of the bodies of a file, which has them in hexadecimal, one a line; a line that begins with `#` is a remark.
pub fn log_of_file(rt: &HostRuntime, path: &str) -> Octets {
    let mut log = Octets::new(rt.alloc());
    let _ = log.extend(MARK);
    if let Ok(text) = fs::read_to_string(rt, path) {
        for line in text.lines() {
            if !line.starts_with('#') {
                add_record(rt.alloc(), &mut log, line);
            }
        }
    }
    let _ = log.push(0);
    log
}

fn add_record(alloc: Global, log: &mut Octets, line: &str) {
    let mut case = Case::new(alloc, line);
    let body = case.bytes(" ");
    if let Ok(length) = u32::try_from(body.len()) {
        case.did(log.push(1));
        case.did(log.extend(&length.to_be_bytes()));
        case.did(log.extend(body.as_slice()));
    }
}

// A disk with these bytes, and with room for calls.
fn disk_with(case: &mut Case<'_>, content: &[u8], failing: &[u64]) -> Option<MemoryDisk> {
    match case.gave(MemoryDisk::new(case.alloc, content, failing)) {
        Some(mut disk) => {
            case.did(disk.reserve(CALLS, BYTES));
            Some(disk)
        }
        None => None,
    }
}

// A disk with the bytes of a row's next part, or with the log for `log`, and with the failing calls of the part behind.
fn disk_of(case: &mut Case<'_>, log: &[u8]) -> Option<MemoryDisk> {
    let word = case.part(" ; ");
    let failing = case.numbers(" ; ");
    if word == "log" {
        return disk_with(case, log, failing.as_slice());
    }
    let content = Case::new(case.alloc, word).bytes(" ");
    disk_with(case, content.as_slice(), failing.as_slice())
}

// An output, with the failing writes of a row's next part.
fn sink_of(case: &mut Case<'_>) -> Option<MemorySink> {
    let failing = case.numbers(" ; ");
    case.gave(MemorySink::new(case.alloc, ROOM, STEP, failing.as_slice()))
}

// All that a command uses: a row's disk and output, an empty second disk, a clock that stands at 0, and no repositories.
#[derive(Drop)]
struct Parts {
    one: MemoryDisk,
    two: MemoryDisk,
    judges: TrustAll,
    repos: MemoryRepos,
    clock: ListClock,
    out: MemorySink,
}

impl Parts {
    // The parts as a command is handed them.
    fn outside(
        &mut self,
    ) -> Outside<'_, '_, '_, '_, '_, '_, MemoryDisk, TrustAll, MemoryRepos, ListClock, MemorySink> {
        Outside {
            pair: Pair {
                one: &mut self.one,
                two: &mut self.two,
            },
            asked: Asked {
                judges: &mut self.judges,
                repos: &mut self.repos,
                clock: &mut self.clock,
            },
            out: &mut self.out,
        }
    }
}

// The parts with this disk, and with the output of a row's next part.
fn parts_with(case: &mut Case<'_>, one: MemoryDisk) -> Option<Parts> {
    let out = sink_of(case);
    let two = disk_with(case, &[], &[]);
    let repos = case.gave(MemoryRepos::new(case.alloc, Vec::new(case.alloc), 1, &[]));
    let clock = case.gave(ListClock::new(case.alloc, &[0], &[]));
    match (two, repos, clock, out) {
        (Some(two), Some(repos), Some(clock), Some(out)) => Some(Parts {
            one,
            two,
            judges: TrustAll,
            repos,
            clock,
            out,
        }),
        (_, _, _, _) => None,
    }
}

/// Answers `DISK ; FAILING CALLS ; CURSOR ; COLLECTION or - ; FAILING WRITES = END ; LINES`.
pub fn lines_run(case: &mut Case<'_>, log: &[u8]) {
    if let Some(disk) = disk_of(case, log) {
        let cursor = case.number(" ; ");
        let collection = case.part_or_none(" ; ");
        if let Some(mut parts) = parts_with(case, disk) {
            let end = parts
                .outside()
                .lines(case.alloc, LONGEST, cursor, collection);
            case.say_named(&end);
            case.say(" ; ");
            say_written(case, parts.out.content());
        }
    }
}

/// Answers `DISK ; FAILING CALLS ; COUNT ; FAILING WRITES ; FAILING NEXTS ; FAILING SENDS ; REQUESTS = END ; LINES ; EXCHANGES`.
pub fn query_run(case: &mut Case<'_>, log: &[u8]) {
    if let Some(disk) = disk_of(case, log) {
        let count = case.number(" ; ");
        let parts = parts_with(case, disk);
        let wire = wire_of(case);
        if let (Some(mut parts), Some(mut wire)) = (parts, wire) {
            let end = parts.outside().query(case.alloc, LONGEST, count, &mut wire);
            case.say_named(&end);
            case.say(" ; ");
            say_written(case, parts.out.content());
            case.say(" ;");
            for exchange in wire.exchanges() {
                say_exchange(case, exchange);
            }
        }
    }
}

// The requests with a comma between two, or `none`.
fn requests(alloc: Global, text: &str) -> Result<Vec<Octets>, Memory>
    ensures { IfOk result (λ requests. All (λ request. length request ≤ LONGEST_REQUEST)
        requests.items) }
{
    let mut requests = Vec::new(alloc);
    if text == "none" {
        return Ok(requests);
    }
    for word in text.split(',') {
        let request = Case::new(alloc, word).octets(" ");
        if request.len() > LONGEST_REQUEST {
            return Err(Memory);
        }
        requests.push(request)?;
    }
    Ok(requests)
}

// A wire with the failing calls and the requests of a row's next parts, and with room for replies.
fn wire_of(case: &mut Case<'_>) -> Option<MemoryWire> {
    let failing = case.numbers(" ; ");
    let sends = case.numbers(" ; ");
    match requests(case.alloc, case.part(" ; ")) {
        Ok(requests) => wire_with(
            case,
            MemoryWire::new(case.alloc, requests, failing.as_slice(), sends.as_slice()),
        ),
        Err(Memory) => None,
    }
}

fn wire_with(case: &mut Case<'_>, wire: Result<MemoryWire, Memory>) -> Option<MemoryWire> {
    match case.gave(wire) {
        Some(mut wire) => {
            case.did(wire.reserve(REPLIES, REPLY));
            Some(wire)
        }
        None => None,
    }
}

// Answers the text that was written, in which `|` stands for the end of each line, or `-` for none.
fn say_written(case: &mut Case<'_>, written: &[u8]) {
    if written.is_empty() {
        return case.say("-");
    }
    if let Ok(text) = str::from_utf8(written) {
        for (i, line) in text.split('\n').enumerate() {
            case.say(if i == 0 { "" } else { "|" });
            case.say(line);
        }
    }
}

// Answers what happened on a wire: of a request its bytes, of a reply its last line.
fn say_exchange(case: &mut Case<'_>, exchange: &Exchange) {
    match exchange {
        Exchange::Came(request) => {
            case.say(" came:");
            case.say_bytes(request.as_slice());
        }
        Exchange::Sent(reply) => {
            case.say(" sent:");
            if let Ok(text) = str::from_utf8(reply.as_slice()) {
                case.say(text.rsplit('\n').next().unwrap_or(""));
            }
        }
    }
}
