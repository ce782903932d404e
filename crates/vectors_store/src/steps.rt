//! Steps that are made on a store: `take HOST BYTES`, `group HOST BYTES , ..`, `down DID TIME`, `up DID TIME`, `sync DID TIME`,
//! `after NUMBER`, and what is told between two: `account DID`, `hosts`, `side` and `end`. Each answers lines, with ` / ` between
//! two.

ghost use Rattle.std.specs.Prelude.{◌≡◌, ◌≤◌, length, IsTrue};
ghost use Rattle.std.specs.List.{list_all};
ghost use Rattle.at_form.specs.declared.forms.TheConstants.{LONGEST_SHORT_TEXT};
ghost use Rattle.at_syntax.specs.Did.{is_did};
ghost use Rattle.at_syntax.specs.Host.{is_host};
ghost use Rattle.relay_store.specs.Store.{IsKept, seen_in};

use crate::disks::FileInMemory;
use crate::states::say_account;
use at_authority::Panel;
use at_cid::Octets;
use at_form::LONGEST_SHORT_TEXT;
use at_syntax::{did_ok, host_ok};
use event_window::{Events, EventsFault};
use relay_disk::Disk;
use relay_io::{ListClock, MemoryRepos};
use relay_row::MOST_ROWS;
use relay_step::Asked;
use relay_store::{Store, StoreFault};
use report_lines::add_refusal;
use store_read::events;
use store_take::{Batch, Done, Fetch, Message, Outcome, end_line, line, take_all};
use vector_lines::Case;

/// An open store, and what it asks; whether a line was answered, and the counts of the messages since the last line of an end.
#[derive(Drop)]
pub struct Sitting {
    pub store: Store,
    pub repos: MemoryRepos,
    pub clock: ListClock,
    pub panel: Panel,
    pub is_behind: bool,
    pub messages: u64,
    pub events: u64,
    pub refused: u64,
}

/// Makes a step.
pub fn make(case: &mut Case<'_>, sitting: &mut Sitting, disk: &mut FileInMemory) {
    match case.part(" ") {
        "take" => take(case, sitting, disk),
        "group" => take_group(case, sitting, disk),
        "down" => operate(case, sitting, disk, true),
        "up" => operate(case, sitting, disk, false),
        "sync" => sync_now(case, sitting, disk),
        "after" => read_next(case, sitting, disk),
        word => show(case, sitting, word),
    }
}

fn show(case: &mut Case<'_>, sitting: &mut Sitting, word: &str) {
    match word {
        "account" => account(case, sitting),
        "hosts" => hosts(case, sitting),
        "side" => {
            begin(case, sitting);
            case.say_named(&sitting.store.side());
        }
        _ => end(case, sitting),
    }
}

// Begins a line.
fn begin(case: &mut Case<'_>, sitting: &mut Sitting) {
    case.say(if sitting.is_behind { " / " } else { "" });
    sitting.is_behind = true;
}

// Answers lines that the store writes.
fn say_lines(case: &mut Case<'_>, sitting: &mut Sitting, lines: &Octets) {
    if let Ok(text) = str::from_utf8(lines.as_slice()) {
        for line in text.lines() {
            begin(case, sitting);
            case.say(line);
        }
    }
}

fn say_fault(case: &mut Case<'_>, sitting: &mut Sitting, fault: StoreFault) {
    begin(case, sitting);
    case.say_number(u64::from(fault.number()));
    case.say(" ");
    case.say_named(&fault);
}

// Whether it gives a number, and whether it is a refusal.
fn counts_of(outcome: &Outcome) -> (bool, bool) {
    match outcome {
        Outcome::Event(..) => (true, false),
        Outcome::Refused(_, _, Fetch::Whole(..)) => (true, true),
        Outcome::Refused(..) => (false, true),
        _ => (false, false),
    }
}

fn say_outcome(case: &mut Case<'_>, sitting: &mut Sitting, host: &str, outcome: &Outcome) {
    let (gives, is_refused) = counts_of(outcome);
    sitting.messages = sitting.messages.saturating_add(1);
    sitting.events = sitting.events.saturating_add(u64::from(gives));
    sitting.refused = sitting.refused.saturating_add(u64::from(is_refused));
    let mut out = Octets::new(case.alloc);
    case.did(line(case.alloc, host, outcome, &mut out));
    say_lines(case, sitting, &out);
}

fn take(case: &mut Case<'_>, sitting: &mut Sitting, disk: &mut FileInMemory) {
    let host = case.part(" ");
    let bytes = case.bytes(" ");
    if sitting.store.is_open() && host_ok(host) {
        let mut asked = Asked {
            judges: &mut sitting.panel,
            repos: &mut sitting.repos,
            clock: &mut sitting.clock,
        };
        let taken = store_take::take(
            &mut sitting.store,
            case.alloc,
            disk,
            host,
            bytes.as_slice(),
            &mut asked,
        );
        match taken {
            Ok(outcome) => say_outcome(case, sitting, host, &outcome),
            Err(fault) => say_fault(case, sitting, fault),
        }
    }
}

fn are_of_hosts(group: &[Message]) -> bool
    ensures { result ≡ list_all (λ m. is_host m.host) group.now }
{
    group.iter().all(|message| host_ok(message.host.as_str()))
}

fn messages_of(case: &mut Case<'_>) -> Vec<Message> {
    let mut messages = Vec::new(case.alloc);
    for words in case.part("\n").split(" , ") {
        let rest = case.turn(words);
        let host = case.words(" ");
        let bytes = case.octets(" ");
        case.back(rest);
        case.did(messages.push(Message { host, bytes }));
    }
    messages
}

fn take_group(case: &mut Case<'_>, sitting: &mut Sitting, disk: &mut FileInMemory) {
    let messages = messages_of(case);
    let group = &messages.as_slice()[..messages.len().min(MOST_ROWS)];
    if sitting.store.is_open() && !group.is_empty() && are_of_hosts(group) {
        let mut asked = Asked {
            judges: &mut sitting.panel,
            repos: &mut sitting.repos,
            clock: &mut sitting.clock,
        };
        let batch = take_all(&mut sitting.store, case.alloc, disk, group, &mut asked);
        say_batch(case, sitting, group, &batch);
    }
}

fn say_batch(case: &mut Case<'_>, sitting: &mut Sitting, messages: &[Message], batch: &Batch) {
    for (message, outcome) in messages.iter().zip(batch.outcomes.iter()) {
        say_outcome(case, sitting, message.host.as_str(), outcome);
    }
    if let Some(fault) = batch.fault {
        say_fault(case, sitting, fault);
    }
}

// Whether an operator may say this of an account.
fn may_be_said(did: &str, time: &str) -> bool
    ensures did { IsTrue result → IsTrue (is_did did.now) }
    ensures time { IsTrue result → length time.now ≤ LONGEST_SHORT_TEXT }
{
    did_ok(did) && time.len() <= LONGEST_SHORT_TEXT
}

fn operate(case: &mut Case<'_>, sitting: &mut Sitting, disk: &mut FileInMemory, down: bool) {
    let did = case.part(" ");
    let time = case.part(" ");
    if sitting.store.is_open() && may_be_said(did, time) {
        let clock = &mut sitting.clock;
        let done = store_take::operate(
            &mut sitting.store,
            case.alloc,
            disk,
            did,
            down,
            time,
            clock,
        );
        say_done(case, sitting, done);
    }
}

fn sync_now(case: &mut Case<'_>, sitting: &mut Sitting, disk: &mut FileInMemory) {
    let did = case.part(" ");
    let time = case.part(" ");
    if sitting.store.is_open() && may_be_said(did, time) {
        let mut asked = Asked {
            judges: &mut sitting.panel,
            repos: &mut sitting.repos,
            clock: &mut sitting.clock,
        };
        let done = store_take::sync_now(
            &mut sitting.store,
            case.alloc,
            disk,
            did,
            time,
            &mut asked,
        );
        say_done(case, sitting, done);
    }
}

fn say_done(case: &mut Case<'_>, sitting: &mut Sitting, done: Result<Done, StoreFault>) {
    match done {
        Ok(Done::Event(seq)) => {
            begin(case, sitting);
            case.say("event ");
            case.say_number(seq);
        }
        Ok(Done::Synced(seq, records)) => {
            begin(case, sitting);
            case.say("synced ");
            case.say_number(seq);
            case.say(" records ");
            case.say_number(records);
        }
        Ok(Done::Refused(refusal)) => {
            let mut out = Octets::new(case.alloc);
            case.did(add_refusal(&mut out, &refusal));
            say_lines(case, sitting, &out);
        }
        Err(fault) => say_fault(case, sitting, fault),
    }
}

fn read_next(case: &mut Case<'_>, sitting: &mut Sitting, disk: &mut FileInMemory) {
    let seq = case.number(" ");
    begin(case, sitting);
    next_of(case, &sitting.store, disk, seq);
}

// Answers the next event above a number, and between which numbers there are some.
fn next_of<D: Disk>(case: &mut Case<'_>, store: &Store, disk: &mut D, seq: u64)
    requires { IsTrue D.tells → IsKept (seen_in store.now) (D.view disk.old) }
{
    if !store.is_open() {
        return case.say("closed");
    }
    let mut room = Octets::new(case.alloc);
    let mut reader = events(store, case.alloc, disk);
    let ends = (reader.oldest(), reader.last_seq());
    let found = reader.next_after(seq, &mut room);
    say_next(case, ends, found, room.as_slice());
}

fn say_next(
    case: &mut Case<'_>,
    ends: (u64, u64),
    found: Result<Option<u64>, EventsFault>,
    message: &[u8],
) {
    case.say("oldest ");
    case.say_number(ends.0);
    case.say(" last ");
    case.say_number(ends.1);
    match found {
        Ok(None) => case.say(" none"),
        Ok(Some(seq)) => {
            case.say(" next ");
            case.say_number(seq);
            case.say(" ");
            case.say_bytes(message);
        }
        Err(fault) => {
            case.say(" ");
            case.say_named(&fault);
        }
    }
}

fn account(case: &mut Case<'_>, sitting: &mut Sitting) {
    begin(case, sitting);
    let did = case.part(" ");
    case.say(did);
    case.say(" ");
    match sitting.store.account(did) {
        Some(account) => say_account(case, account),
        None => case.say("active none up none"),
    }
}

// Answers each host with its cursor, in first-seen order, and how many there are.
fn hosts(case: &mut Case<'_>, sitting: &mut Sitting) {
    begin(case, sitting);
    let hosts = sitting.store.hosts();
    for place in 0..hosts.len() {
        if let Some((host, cursor)) = hosts.at(place) {
            case.say(host);
            case.say(" ");
            case.say_number(cursor);
            case.say(" / ");
        }
    }
    case.say("end ");
    case.say_number(hosts.len() as u64);
}

// Answers the last line of a report of the messages since the one before.
fn end(case: &mut Case<'_>, sitting: &mut Sitting) {
    let mut out = Octets::new(case.alloc);
    let (messages, events, refused) = (sitting.messages, sitting.events, sitting.refused);
    let last = sitting.store.last_seq();
    case.did(end_line(case.alloc, messages, events, refused, last, &mut out));
    sitting.messages = 0;
    sitting.events = 0;
    sitting.refused = 0;
    say_lines(case, sitting, &out);
}
