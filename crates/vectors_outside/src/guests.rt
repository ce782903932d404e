//! Guests: what their targets ask for, and the doors and wires of memory.

ghost use Rattle.std.specs.Prelude.{◌≤◌, All, length};
ghost use Rattle.relay_io.specs.declared.wire.TheConstants.{LONGEST_REQUEST};

use at_cid::Octets;
use backfill::cursor_of;
use relay_io::{Door, Exchange, Guest, LONGEST_REQUEST, MemoryDoor, MemoryWire, Turn, Wire};
use std::alloc::Global;
use vector_lines::Case;

/// Answers `TARGET = the cursor that it asks for, none, or the fault`.
pub fn target(case: &mut Case<'_>) {
    let target = case.bytes(" ");
    if let Ok(target) = str::from_utf8(target.as_slice()) {
        if let Some(cursor) = case.gave(cursor_of(case.alloc, target)) {
            match cursor {
                Some(cursor) => case.say_number(cursor),
                None => case.say("none"),
            }
        }
    }
}

/// Answers `TARGET MESSAGE = what happens at a door`, to which a guest of that target comes, who is sent the message.
pub fn door(case: &mut Case<'_>) {
    let mut guests = Vec::new(case.alloc);
    let target = case.words(" ");
    case.did(guests.push(Guest::Target(target)));
    if let Some(mut door) = case.gave(MemoryDoor::new(case.alloc, guests, &[], &[])) {
        case.did(door.reserve(1, 1));
        if let Ok(Guest::Target(_)) = door.next() {
            let message = case.bytes(" ");
            if door.send(message.as_slice()).is_ok() {
                case.did(door.close());
            }
        }
        for turn in door.turns() {
            say_turn(case, turn);
        }
    }
}

fn say_turn(case: &mut Case<'_>, turn: &Turn) {
    match turn {
        Turn::Came(Guest::Target(target)) => {
            case.say("came:");
            case.say(target.as_str());
        }
        Turn::Came(_) => case.say(" came"),
        Turn::Sent(message) => {
            case.say(" sent:");
            case.say_bytes(message.as_slice());
        }
        Turn::Closed => case.say(" closed"),
        Turn::Failed => case.say(" failed"),
    }
}

// One request, where it isn't too long.
fn requests(alloc: Global, request: Octets) -> Vec<Octets>
    ensures { All (λ r. length r ≤ LONGEST_REQUEST) result.items }
{
    let mut requests = Vec::new(alloc);
    if request.len() > LONGEST_REQUEST {
        return requests;
    }
    match requests.push(request) {
        Ok(()) => requests,
        Err(_) => Vec::new(alloc),
    }
}

/// Answers `REQUEST REPLY = what happens on a wire`, on which the request comes, and is replied to.
pub fn wire(case: &mut Case<'_>) {
    let requests = requests(case.alloc, case.octets(" "));
    if let Some(mut wire) = case.gave(MemoryWire::new(case.alloc, requests, &[], &[])) {
        let reply = case.bytes(" ");
        case.did(wire.reserve(1, reply.len()));
        let mut room = Octets::new(case.alloc);
        if let Some(true) = case.gave(wire.next(&mut room)) {
            case.did(wire.send(reply.as_slice()));
        }
        for exchange in wire.exchanges() {
            say_exchange(case, exchange);
        }
    }
}

fn say_exchange(case: &mut Case<'_>, exchange: &Exchange) {
    match exchange {
        Exchange::Came(request) => {
            case.say("came:");
            case.say_bytes(request.as_slice());
        }
        Exchange::Sent(reply) => {
            case.say(" sent:");
            case.say_bytes(reply.as_slice());
        }
    }
}
