//! Disks in memory, and logs on them.

use at_cid::NUMBERS;
use gate_log::{BODY_LENGTHS, Build, LAST_END, Log, pick};
use os_edge::{Journal, JournalFile, Reporter};
use relay_disk::{Disk, Failed, FileDisk, MemoryDisk, SIZES, WORST_CASES};
use vector_lines::Case;

/// The calls of a disk, and the bytes of its writes, for which there is room.
const ROOM: usize = 200;

/// More bodies than any log of a row has.
const MANY: u32 = 1000;

/// A disk over a file that stands in memory.
pub type FileInMemory = FileDisk<JournalFile>;

/// Two empty disks.
pub fn two_disks(rt: &HostRuntime, case: &mut Case<'_>) -> Option<(FileInMemory, FileInMemory)> {
    match case.gave(Reporter::new(*rt, "vectors_store")) {
        Some(reporter) => {
            let journal = Journal::in_memory(case.alloc, reporter);
            Some((FileDisk::on(journal.log), FileDisk::on(journal.other)))
        }
        None => None,
    }
}

/// Writes a row's next part to a disk.
pub fn fill(case: &mut Case<'_>, disk: &mut FileInMemory, mark: &str) {
    let content = case.bytes(mark);
    if (content.len() as u64) < SIZES {
        case.did(disk.write_at(0, content.as_slice()));
    }
}

// A disk with the content of a row's next part.
fn disk_of(rt: &HostRuntime, case: &mut Case<'_>, mark: &str) -> Option<FileInMemory> {
    match two_disks(rt, case) {
        Some((mut disk, _)) => {
            fill(case, &mut disk, mark);
            Some(disk)
        }
        None => None,
    }
}

// Answers the content of a disk.
fn say_content(case: &mut Case<'_>, disk: &mut FileInMemory) {
    if let Some(size) = case.gave(disk.size()) {
        if let Some(mut room) = case.gave(vec![in case.alloc; 0; size as usize]) {
            case.did(disk.read(0, room.as_mut_slice()));
            case.say_bytes(room.as_slice());
        }
    }
}

/// Answers `BYTES = ok first PLACE generation N end PLACE bodies PLACE:BODY .., or BadLog(PLACE)`: what bytes of a disk hold as a
/// log, which is made where they are a part of its front.
pub fn log(rt: &HostRuntime, case: &mut Case<'_>) {
    if let Some(mut disk) = disk_of(rt, case, " ; ") {
        if let Some(log) = case.gave(Log::open(case.alloc, &mut disk, LAST_END)) {
            case.say("ok first ");
            case.say_number(log.first());
            case.say(" generation ");
            case.say_number(log.generation());
            case.say(" end ");
            case.say_number(log.end());
            say_bodies(case, &log, &mut disk);
        }
    }
}

fn say_bodies(case: &mut Case<'_>, log: &Log, disk: &mut FileInMemory) {
    let mut next = log.first();
    case.say(if next < log.end() {
        " bodies"
    } else {
        " bodies -"
    });
    for _ in 0..MANY {
        if next >= log.end() {
            return;
        }
        let mut body = Vec::new(case.alloc);
        let Some(behind) = case.gave(log.read_into(disk, next, &mut body)) else {
            return;
        };
        case.say(" ");
        case.say_number(next);
        case.say(":");
        case.say_bytes(body.as_slice());
        next = behind;
    }
}

/// Answers `ONE TWO = One, Two or BadLog(0)`: the disk that has the log.
pub fn picked(rt: &HostRuntime, case: &mut Case<'_>) {
    if let Some((mut one, mut two)) = two_disks(rt, case) {
        fill(case, &mut one, " ");
        fill(case, &mut two, " ");
        if let Some(side) = case.gave(pick(&mut one, &mut two)) {
            case.say_named(&side);
        }
    }
}

/// Answers `CONTENT ; MOST ; BODY .. = PLACE or Full(END) .. end PLACE content BYTES`: bodies that are appended to a log, of which no
/// record is to end past MOST.
pub fn appended(rt: &HostRuntime, case: &mut Case<'_>) {
    if let Some(mut disk) = disk_of(rt, case, " ; ") {
        let most = case.number(" ; ").min(LAST_END);
        if let Some(mut log) = case.gave(Log::open(case.alloc, &mut disk, most)) {
            for word in case.part(" ; ").split(' ') {
                let rest = case.turn(word);
                append(case, &mut log, &mut disk);
                case.back(rest);
            }
            case.say("end ");
            case.say_number(log.end());
            case.say(" content ");
            say_content(case, &mut disk);
        }
    }
}

fn append(case: &mut Case<'_>, log: &mut Log, disk: &mut FileInMemory) {
    let body = case.bytes(" ");
    let Ok(len) = u32::try_from(body.len()) else {
        return case.say("too long ");
    };
    if log.reserve(len).is_err() || !log.is_open() {
        return case.say("Memory ");
    }
    if let Some(place) = case.gave(log.append(disk, body.as_slice())) {
        case.say_number(place);
    }
    case.say(" ");
}

/// Answers `GENERATION ; BODY = CONTENT`: a log that is built with one body.
pub fn built(rt: &HostRuntime, case: &mut Case<'_>) {
    let generation = case.number(" ; ");
    let body = case.bytes(" ; ");
    if let Some((mut disk, _)) = two_disks(rt, case) {
        if generation < NUMBERS && (body.len() as u64) < BODY_LENGTHS {
            let build = Build::begin(case.alloc, &mut disk, generation, LAST_END);
            if let Some(mut build) = case.gave(build) {
                case.gave(build.add(&mut disk, body.as_slice()));
                case.gave(build.finish(&mut disk));
            }
        }
        say_content(case, &mut disk);
    }
}

fn write<D: Disk>(disk: &mut D, place: u64, piece: &[u8]) -> Result<(), Failed> {
    if disk.size()? < place || place > ROOM as u64 || piece.len() > ROOM {
        return Err(Failed);
    }
    disk.write_at(place, piece)
}

/// Answers `CONTENT ; PLACE ; PIECE = IMAGE IMAGE IMAGE`: the worst cases of a crash behind a write.
pub fn worst(case: &mut Case<'_>) {
    let content = case.bytes(" ; ");
    let place = case.number(" ; ");
    let piece = case.bytes(" ; ");
    if let Some(mut disk) = case.gave(MemoryDisk::new(case.alloc, content.as_slice(), &[])) {
        case.did(disk.reserve(ROOM, ROOM));
        case.did(write(&mut disk, place, piece.as_slice()));
        for i in 0..WORST_CASES {
            case.say(if i > 0 { " " } else { "" });
            if let Some(Some(image)) = case.gave(disk.worst(case.alloc, i)) {
                case.say_bytes(image.content());
            }
        }
    }
}
