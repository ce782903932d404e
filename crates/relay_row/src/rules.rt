//! Which rows are well formed.

ghost use Rattle.std.specs.Prelude.{◌≡◌};
ghost use Rattle.at_event.specs.Refusals.{code_of};
ghost use Rattle.relay_row.specs.Rules.{is_number, is_positive, is_moment, is_node, is_head, names_host, names_did, is_message, is_status, is_whole, is_detail, loses, is_repo_number, is_fetched, is_nothing, is_effect, is_timed, is_accepted, is_refused, is_decided, is_about, is_taken, is_operated, is_repo, is_carried, is_row};

use crate::carried::{Carried, CarriedRepo};
use crate::fetched::{Fetched, Whole};
use crate::limits::PLACES;
use crate::operated::Operated;
use crate::row::Row;
use crate::taken::{Effect, Taken};
use at_cid::{Cid, Kind, NUMBERS, Octets, Words, ghost_link};
use at_event::{Head, Refusal};
use at_form::LONGEST_SHORT_TEXT;
use at_syntax::{did_ok, host_ok};

fn is_number(number: u64) -> bool
    ensures { result ≡ is_number number }
{
    number < NUMBERS
}

fn is_positive(number: u64) -> bool
    ensures { result ≡ is_positive number }
{
    number > 0 && is_number(number)
}

fn is_moment(moment: Option<u64>) -> bool
    ensures { result ≡ is_moment moment }
{
    match moment {
        Some(moment) => is_number(moment),
        None => true,
    }
}

#[tactic(auto, using(crate::proofs::Bytes::node_formed))]
fn is_node(link: &Cid) -> bool
    ensures { result ≡ is_node link.now }
{
    ghost_link(link);
    match link.kind() {
        Kind::Node => true,
        Kind::Raw => false,
    }
}

#[tactic(auto, using(crate::proofs::Bytes::head_formed))]
fn is_head(head: &Head) -> bool
    ensures { result ≡ is_head head.now }
{
    head.rev.ghost_value();
    ghost_link(&head.commit);
    is_node(&head.data_root)
}

#[tactic(auto, using(crate::proofs::Bytes::text_formed))]
fn names_host(text: &Words) -> bool
    ensures { result ≡ names_host text.now }
{
    host_ok(text.as_str())
}

#[tactic(auto, using(crate::proofs::Bytes::text_formed))]
fn names_did(text: &Words) -> bool
    ensures { result ≡ names_did text.now }
{
    did_ok(text.as_str())
}

#[tactic(auto, using(crate::proofs::Bytes::string_tested))]
fn is_message(bytes: &Octets) -> bool
    ensures { result ≡ is_message bytes.now }
{
    !bytes.as_slice().is_empty()
}

#[tactic(auto, using(crate::proofs::Bytes::text_formed))]
fn is_status(status: &Option<Words>) -> bool
    ensures { result ≡ is_status status.now }
{
    match status {
        Some(status) => status.as_str().len() <= LONGEST_SHORT_TEXT,
        None => true,
    }
}

#[tactic(auto, unfolding(crate::specs::Rules::is_whole))]
fn is_whole(whole: &Whole) -> bool
    ensures { result ≡ is_whole whole.now }
{
    is_positive(whole.seq)
        && is_head(&whole.head)
        && is_number(whole.records)
        && is_message(&whole.message)
}

fn is_detail(refusal: &Refusal) -> bool
    ensures { result ≡ is_detail refusal.now }
{
    match refusal {
        Refusal::BadNode(link) => is_node(link),
        Refusal::OtherData(want, got) => is_node(want) && is_node(got),
        Refusal::OtherOp(place) | Refusal::NotCovered(place) => u64::from(*place) < PLACES,
        _ => true,
    }
}

/// Whether a refusal leaves its account lost, so that its repository is fetched.
pub fn loses(refusal: &Refusal) -> bool
    ensures { result ≡ loses (code_of refusal.now) }
{
    let code = refusal.code();
    code == 5 || code >= 19 && code <= 23
}

fn is_repo_number(timed: bool, number: u8) -> bool
    ensures { result ≡ is_repo_number timed number }
{
    number >= 1 && number <= 7 || number == 9 || number == 10 || timed && number == 12
}

fn is_fetched(due: bool, timed: bool, fetched: &Fetched) -> bool
    ensures { result ≡ is_fetched due timed fetched.now }
{
    match fetched {
        Fetched::NotAsked => !due,
        Fetched::Absent => due,
        Fetched::Refused(number) => due && is_repo_number(timed, *number),
        Fetched::Whole(whole) => due && is_whole(whole),
    }
}

fn is_nothing(effect: &Effect) -> bool
    ensures { result ≡ is_nothing effect.now }
{
    match effect {
        Effect::Nothing => true,
        Effect::Repo(_) | Effect::Account(_, _) => false,
    }
}

fn is_effect(kind: u8, effect: &Effect) -> bool
    ensures { result ≡ is_effect kind effect.now }
{
    match effect {
        Effect::Nothing => kind == 3,
        Effect::Repo(head) => (kind == 1 || kind == 2) && is_head(head),
        Effect::Account(_, status) => kind == 4 && is_status(status),
    }
}

fn is_timed(moment: Option<u64>) -> bool
    ensures { result ≡ is_timed moment }
{
    moment.is_some()
}

#[tactic(auto, unfolding(crate::specs::Rules::is_accepted))]
fn is_accepted(taken: &Taken) -> bool
    ensures { result ≡ is_accepted taken.now }
{
    let goes_out = is_positive(taken.seq) && is_message(&taken.message);
    let held = taken.kind == 4 && taken.seq == 0 && taken.message.is_empty();
    is_effect(taken.kind, &taken.effect)
        && is_fetched(false, is_timed(taken.moment), &taken.fetched)
        && (goes_out || held)
}

#[tactic(auto, unfolding(crate::specs::Rules::is_refused))]
fn is_refused(refusal: &Refusal, taken: &Taken) -> bool
    ensures { result ≡ is_refused refusal.now taken.now }
{
    let code = refusal.code();
    let timed = is_timed(taken.moment);
    is_detail(refusal)
        && (code <= 24 || code == 25 && timed)
        && taken.kind <= 4
        && (taken.kind == 0) == (code == 1)
        && is_nothing(&taken.effect)
        && is_fetched(loses(refusal), timed, &taken.fetched)
        && taken.seq == 0
        && taken.message.is_empty()
}

fn is_decided(taken: &Taken) -> bool
    ensures { result ≡ is_decided taken.now.refusal taken.now }
{
    match &taken.refusal {
        Some(refusal) => is_refused(refusal, taken),
        None => is_accepted(taken),
    }
}

fn is_about(kind: u8, did: &Words) -> bool
    ensures { result ≡ is_about kind did.now }
{
    if kind == 0 {
        did.is_empty()
    } else {
        names_did(did)
    }
}

#[tactic(auto, unfolding(crate::specs::Rules::is_taken))]
fn is_taken(taken: &Taken) -> bool
    ensures { result ≡ is_taken taken.now }
{
    names_host(&taken.host)
        && is_number(taken.host_seq)
        && is_about(taken.kind, &taken.did)
        && is_moment(taken.moment)
        && is_decided(taken)
}

#[tactic(auto, unfolding(crate::specs::Rules::is_operated))]
fn is_operated(operated: &Operated) -> bool
    ensures { result ≡ is_operated operated.now }
{
    names_did(&operated.did)
        && is_positive(operated.seq)
        && is_message(&operated.message)
        && is_moment(operated.moment)
}

fn is_repo(repo: &CarriedRepo) -> bool
    ensures { result ≡ is_repo repo.now }
{
    match repo {
        CarriedRepo::Missing | CarriedRepo::Lost(None) => true,
        CarriedRepo::Good(head) => is_head(head),
        CarriedRepo::Lost(Some(rev)) => {
            rev.ghost_value();
            true
        }
    }
}

#[tactic(auto, unfolding(crate::specs::Rules::is_carried))]
fn is_carried(carried: &Carried) -> bool
    ensures { result ≡ is_carried carried.now }
{
    match carried {
        Carried::Last(seq) => is_positive(*seq),
        Carried::Host(host, cursor) => names_host(host) && is_positive(*cursor),
        Carried::Account(account) => {
            names_did(&account.did) && is_status(&account.status) && is_repo(&account.repo)
        }
    }
}

/// Whether a row is well formed, as `specs/WellFormed` says record by record.
#[tactic(auto, unfolding(crate::specs::Rules::is_row))]
pub fn is_row(row: &Row) -> bool
    ensures { result ≡ is_row row.now }
{
    match row {
        Row::Taken(taken) => is_taken(taken),
        Row::Synced(did, whole, moment) => names_did(did) && is_whole(whole) && is_moment(*moment),
        Row::Operated(operated) => is_operated(operated),
        Row::Carried(carried) => is_carried(carried),
    }
}
