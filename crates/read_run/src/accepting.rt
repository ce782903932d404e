//! One guest's session.

ghost use Rattle.std.specs.Prelude.{◌≡◌, ◌≤◌, ◌⊎◌, ◌++◌, List, Err, false, IsTrue, IfOk, IfErr, IfSome, OnOk};
ghost use Rattle.event_window.specs.Held.{Held};
ghost use Rattle.backfill.specs.Target.{cursor_in};
ghost use Rattle.read_run.specs.AtDoor.{GuestAccepted, SessionServed, at_door};
ghost use Rattle.read_run.specs.Ends.{CountedWithin, IsUnmet, IsUnread, session_after as after};
ghost use Rattle.run_base.specs.Ends.{status_in};
ghost use Rattle.read_run.specs.Events.{WereRead};
ghost use Rattle.read_run.specs.Guests.{IsSessionCount};
ghost use Rattle.read_run.specs.Sessions.{IsCounted, came_of, ending_of};

use crate::session::Session;
use backfill::{ServeFault, Served, TargetFault, cursor_of};
use event_window::Events;
use relay_io::{Door, DoorFault, Guest};
use run_base::Status;
use std::alloc::Global;

// What comes of a guest who was sent all that is to be sent.
fn session_of(last: u64, cursor: Option<u64>, served: Served) -> Session
    ensures { result ≡ came_of last cursor served.sent served.future }
{
    match cursor {
        None => Session::Sent(last, served.sent),
        Some(cursor) if served.future => Session::Future(cursor),
        Some(cursor) => Session::Sent(cursor, served.sent),
    }
}

// What comes of a guest who wasn't: the session failed, or was broken off.
fn session_after(fault: ServeFault) -> Result<Session, Status>
    ensures { result ≡ after fault }
{
    match fault {
        ServeFault::Door(sent) => Ok(Session::Failed(sent)),
        ServeFault::Disk => Err(Status::Disk),
        ServeFault::Memory => Err(Status::Memory),
        ServeFault::BadLog(place) => Err(Status::BadLog(place)),
    }
}

// Ends the session of the guest who waits, whose target is refused.
fn reject<G: Door>(door: &mut G) -> Session
    requires { IsTrue (G.waits door.old) }
    ensures session { (result ≡ Session.BadTarget) ⊎ (result ≡ Session.Failed 0) }
    ensures guests { IsTrue G.tells → G.guests door.new ≡ G.guests door.old }
    ensures ended { IsTrue G.tells → G.turns door.new ≡ G.turns door.old ++ ending_of result }
    ensures closed { G.waits door.new ≡ false }
    ensures counted { IsCounted result (G.session_faults door.old) (G.session_faults door.new) }
    ensures counts { G.faults door.new ≡ G.faults door.old }
    ensures sessions { G.session_faults door.old ≤ G.session_faults door.new }
{
    match door.close() {
        Ok(()) => Session::BadTarget,
        Err(_) => Session::Failed(0),
    }
}

// Serves the guest who waits and asked for this target.
fn serve_session<E: Events, G: Door>(
    alloc: Global,
    events: &mut E,
    target: &str,
    door: &mut G,
) -> Result<Session, Status>
    requires known { IsTrue E.tells → (held : Held) × E.holds events.old held }
    requires waits { IsTrue (G.waits door.old) }
    ensures served { IsTrue E.tells → (held : Held) → E.holds events.old held
        → SessionServed G.tells held (cursor_in target.now) (G.turns door.old)
        (G.turns door.new) result }
    ensures guests { IsTrue G.tells → G.guests door.new ≡ G.guests door.old }
    ensures closed { OnOk result (G.waits door.new ≡ false) }
    ensures few { IfErr result IsUnread }
    ensures read { WereRead E.tells E.holds E.faults E.damage events.old events.new
        (status_in result) }
    ensures counted { IsSessionCount (G.session_faults door.old)
        (G.session_faults door.new) result }
    ensures sessions { G.session_faults door.old ≤ G.session_faults door.new }
    ensures counts { G.faults door.new ≡ G.faults door.old }
    ensures later { E.later events.old events.new }
{
    let cursor = match cursor_of(alloc, target) {
        Ok(cursor) => cursor,
        Err(TargetFault::Memory) => return Err(Status::Memory),
        Err(_) => return Ok(reject(door)),
    };
    let last = events.last_seq();
    match backfill::serve(alloc, events, cursor, door) {
        Ok(served) => Ok(session_of(last, cursor, served)),
        Err(fault) => session_after(fault),
    }
}

/// Serves the next guest, and returns how the session ended, or that there is none.
pub(crate) fn accept<E: Events, G: Door>(
    alloc: Global,
    events: &mut E,
    door: &mut G,
) -> Result<Option<Session>, Status>
    requires { IsTrue E.tells → (held : Held) × E.holds events.old held }
    ensures accepted { IsTrue E.tells → (held : Held) → E.holds events.old held
        → GuestAccepted G.tells held
        (at_door (G.guests door.old) (G.turns door.old) (G.session_faults door.old))
        (at_door (G.guests door.new) (G.turns door.new) (G.session_faults door.new)) result }
    ensures closed { IfOk result (λ found. IfSome found (λ _. G.waits door.new ≡ false)) }
    ensures few { IfErr result IsUnmet }
    ensures read { WereRead E.tells E.holds E.faults E.damage events.old events.new
        (status_in result) }
    ensures door { CountedWithin (result ≡ Err Status.Door)
        (G.faults door.old) (G.session_faults door.old)
        (G.faults door.new) (G.session_faults door.new) }
    ensures later { E.later events.old events.new }
{
    let guest = match door.next() {
        Ok(guest) => guest,
        Err(DoorFault::Failed) => return Err(Status::Door),
        Err(DoorFault::Memory) => return Err(Status::Memory),
    };
    match &guest {
        Guest::Target(target) => match serve_session(alloc, events, target.as_str(), door) {
            Ok(session) => Ok(Some(session)),
            Err(status) => Err(status),
        },
        Guest::NoHandshake => Ok(Some(Session::NoHandshake)),
        Guest::End => Ok(None),
    }
}
