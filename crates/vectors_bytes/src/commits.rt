//! Commit objects.

use at_commit::{Commit, read};
use at_syntax::TID_LEN;
use vector_lines::Case;

/// Answers what a commit object says, as a copy has it, or the fault.
pub fn commit(case: &mut Case<'_>) {
    let given = case.bytes(" ");
    if let Some(commit) = case.gave(read(case.alloc, given.as_slice())) {
        if let Some(copy) = case.gave(commit.try_clone()) {
            say_commit(case, &copy);
        }
    }
}

fn say_commit(case: &mut Case<'_>, commit: &Commit) {
    let mut letters = [0; TID_LEN];
    case.say("ok did ");
    case.say(commit.did.as_str());
    case.say(" rev ");
    case.say(commit.rev.write_text(&mut letters));
    case.say(" data ");
    case.say_link(&commit.data_root);
    case.say(" sig ");
    case.say_bytes(commit.sig.as_slice());
    case.say(" digest ");
    case.say_bytes(&commit.digest());
}
