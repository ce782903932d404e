//! How many messages in front of a group are of hosts that haven't ended.

ghost use Rattle.std.specs.Prelude.{◌≡◌, ◌≤◌, ◌<◌, length, take};
ghost use Rattle.relay_core.specs.Runs.{has_ended};
ghost use Rattle.take_run.specs.Said.{AreLive, FirstHasEnded};

use crate::tally::Tally;
use at_cid::Words;
use store_take::Message;

/// How many messages there are in front of the first whose host has ended.
pub(crate) fn live_front(group: &[Message], tally: &Tally) -> usize
    ensures within { result ≤ length group.now }
    ensures live { AreLive tally.now.ended.items (take result group.now) }
    ensures ended { 0 < length group.now → result ≡ 0
        → FirstHasEnded tally.now.ended.items group.now }
{
    for (n, message) in group.iter().enumerate() {
        if tally.has_ended(message.host.as_str()) {
            return n;
        }
    }
    group.len()
}

// Whether the host is one of these.
fn is_one_of(hosts: &[Words], host: &str) -> bool
    ensures { result ≡ has_ended hosts.now host.now }
{
    for name in hosts {
        if host == name.as_str() {
            return true;
        }
    }
    false
}

// How many messages there are in front of the first of one of these hosts.
fn front_without(group: &[Message], hosts: &[Words]) -> usize
    ensures within { result ≤ length group.now }
    ensures live { AreLive hosts.now (take result group.now) }
    ensures ended { 0 < length group.now → result ≡ 0 → FirstHasEnded hosts.now group.now }
{
    for (n, message) in group.iter().enumerate() {
        if is_one_of(hosts, message.host.as_str()) {
            return n;
        }
    }
    group.len()
}

/// As `live_front`, where the hosts of the first `known` messages were none of the first `before` that have ended: in those messages
/// only the hosts that have ended since are looked for.
pub(crate) fn live_still(group: &[Message], known: usize, before: usize, tally: &Tally) -> usize
    requires known { known ≤ length group.now }
    requires before { before ≤ length tally.now.ended.items }
    requires live { AreLive (take before tally.now.ended.items) (take known group.now) }
    ensures within { result ≤ length group.now }
    ensures live { AreLive tally.now.ended.items (take result group.now) }
    ensures ended { 0 < length group.now → result ≡ 0
        → FirstHasEnded tally.now.ended.items group.now }
{
    if known == 0 {
        return live_front(group, tally);
    }
    let since = &tally.ended.as_slice()[before..];
    front_without(&group[..known], since)
}
