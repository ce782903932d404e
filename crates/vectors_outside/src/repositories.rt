//! Repositories in the files of a folder.

use os_edge::{FileRepos, Reporter};
use relay_io::Repos;
use vector_lines::Case;

/// More calls than any row makes.
const MANY: u32 = 10_000;

/// Bytes that are read at once, at most.
const ROOM: usize = 4096;

/// Answers `FOLDER ; DID = the bytes of the repository of a DID`, `none` where there is no file, or the fault.
pub fn file(rt: &HostRuntime, case: &mut Case<'_>) {
    let folder = case.part(" ; ").to_string(case.alloc);
    let did = case.part(" ; ");
    if let Some(reporter) = case.gave(Reporter::new(*rt, "vectors_outside")) {
        if let Some(folder) = case.gave(folder) {
            let mut repos = FileRepos::new(reporter, case.alloc, folder);
            match case.gave(repos.open(did)) {
                Some(true) => read_out(case, &mut repos),
                Some(false) => case.say("none"),
                None => {}
            }
        }
    }
}

// Answers what is read of the repository that is open.
fn read_out(case: &mut Case<'_>, repos: &mut FileRepos) {
    let mut room = [0; ROOM];
    for i in 0..MANY {
        let Some(count) = case.gave(repos.read(&mut room)) else {
            return;
        };
        if count == 0 {
            return case.say(if i == 0 { "-" } else { "" });
        }
        case.say_bytes(room.get(..count).unwrap_or(&[]));
    }
}
