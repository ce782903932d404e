//! Tables of authorities.

use at_authority::Table;
use vector_lines::Case;

const DIDS: [&str; 2] = ["did:plc:ada", "did:plc:bob"];

const HOSTS: [&str; 3] = ["a.example", "b.example", "c.example:80"];

/// The table of the next part of a row.
pub fn table_of(case: &mut Case<'_>, mark: &str) -> Option<Table> {
    let bytes = case.bytes(mark);
    match str::from_utf8(bytes.as_slice()) {
        Ok(text) => case.gave(Table::parse(case.alloc, text)),
        Err(_) => None,
    }
}

/// Answers `TEXT = ok with the answers to some questions`, or the fault. A signature under a digest is named: `0001` is the number 1
/// in 32 bytes, `abab` 32 bytes `ab`, `00` one byte and `ff` 64 bytes.
pub fn answers(case: &mut Case<'_>) {
    if let Some(table) = table_of(case, " ") {
        case.say("ok");
        for did in DIDS {
            say_homes(case, &table, did);
            say_verdicts(case, &table, did);
        }
    }
}

fn say_homes(case: &mut Case<'_>, table: &Table, did: &str) {
    for host in HOSTS {
        case.say(" home ");
        case.say(did);
        case.say(" ");
        case.say(host);
        case.say(if table.home(did, host) {
            " yes,"
        } else {
            " no,"
        });
    }
}

fn say_verdicts(case: &mut Case<'_>, table: &Table, did: &str) {
    let mut one = [0; 32];
    one[31] = 1;
    say_verdict(case, table, did, " 0001 00 ", &one, &[0]);
    say_verdict(case, table, did, " abab ff ", &[0xab; 32], &[0xff; 64]);
    say_verdict(case, table, did, " 0001 ff ", &one, &[0xff; 64]);
}

fn say_verdict(
    case: &mut Case<'_>,
    table: &Table,
    did: &str,
    name: &str,
    digest: &[u8; 32],
    sig: &[u8],
) {
    case.say(" verdict ");
    case.say(did);
    case.say(name);
    if let Some(is_good) = case.gave(table.verdict(did, digest, sig)) {
        case.say(if is_good { "good," } else { "bad," });
    }
}
