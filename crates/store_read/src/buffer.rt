//! Where one is in a log while its events are read back.

ghost use Rattle.std.specs.Prelude.{◌≡◌, ◌≢◌, ◌≤◌, ◌<◌, ◌+◌, ◌^◌, ◌++◌, ◌∷◌, ◌⊎◌, ◌↔◌, [], ℕ, List, length, drop, Some, None, Err, true, false, IsTrue, IfOk, IfSome, OnOk, OnErr, option_map};
ghost use Rattle.std.specs.List.{list_all};
ghost use Rattle.at_cid.specs.Counts.{Rose};
ghost use Rattle.event_window.specs.declared.fault.EventsFault.{EventsFault};
ghost use Rattle.gate_log.specs.Image.{made};
ghost use Rattle.gate_log.specs.declared.fault.LogFault.{LogFault};
ghost use Rattle.gate_log.specs.Log.{HoldsBodies as HasBodies, IsOn};
ghost use Rattle.row_codec.specs.Bodies.{IsBody, rows_body, row_encoding, encoded_rows};
ghost use Rattle.relay_row.specs.Rules.{is_row};
ghost use Rattle.relay_row.specs.declared.row.Row.{Row as TheRow};
ghost use Rattle.row_peek.specs.Peeked.{Sees};
ghost use Rattle.row_peek.specs.Peeking.{peeked_at, seen};
ghost use Rattle.store_read.specs.Events.{BeginsNext, EndsThere, IsBufferOf};
ghost use Rattle.store_read.specs.Rereading.{LeftAsRead};
ghost use Rattle.relay_store.specs.Journals.{AllBodies, bytes_of};

use at_cbor::take_list_front;
use event_window::{EventsFault, Place};
use gate_log::{Log, LogFault};
use relay_disk::Disk;
use relay_store::read_body;
use row_peek::{Peeked, behind_ended_row, behind_row, peek};
use std::alloc::Global;
use std::marker::Model;

/// One body of a log, and before which of its rows one is. At byte 0 no body stands: that is the place of none.
#[derive(Drop)]
pub struct Buffer {
    place: u64,
    index: u8,
    // Where that row begins, and where the next one does, if that is known.
    at: usize,
    next: Option<usize>,
    body: Vec<u8>,
}

impl Model for Buffer {
    ghost use Rattle.std.specs.Prelude.{◌≤◌, ◌<◌, ◌^◌, IfSome, drop, vec_len};
    ghost use Rattle.store_read.specs.Events.{BeginsNext, BufferState};

    ghost Value = { BufferState };

    ghost view = { λ p. record {
      place = p.place;
      index = p.index;
      left =
          drop p.at p.body.items;
    } };

    // The body is shorter than its length can say.
    ghost invariant = { λ p. (p.at ≤ vec_len p.body) × (vec_len p.body < 2 ^ 32)
        × IfSome p.next (λ next. (next ≤ vec_len p.body) × BeginsNext p.body.items p.at next) };
}

// What a fault of reading a log at a place comes to.
fn fault_of(fault: LogFault) -> EventsFault
    ensures disk { (result ≡ EventsFault.Disk) ↔ (fault ≡ LogFault.Disk) }
    ensures bad_log { (p : ℕ) → result ≡ EventsFault.BadLog p → (fault ≡ LogFault.BadLog p)
        ⊎ (fault ≡ LogFault.Full p) }
{
    match fault {
        LogFault::Disk => EventsFault::Disk,
        LogFault::Memory => EventsFault::Memory,
        LogFault::BadLog(place) | LogFault::Full(place) => EventsFault::BadLog(place),
    }
}

// Where the bytes begin that others end with.
fn start_of(bytes: &[u8], end: &[u8]) -> Option<usize>
    ensures start { (front : List ℕ) → bytes.now ≡ front ++ end.now → result ≡ Some (length front) }
    ensures within { IfSome result (λ start. start ≤ length bytes.now) }
{
    if end.len() > bytes.len() {
        return None;
    }
    Some(bytes.len() - end.len())
}

// Where the rows of a body begin.
fn first_row(body: &[u8]) -> Option<usize>
    ensures first { IfSome result (λ at. (rows : List TheRow) → IsBody rows body.now
        → drop at body.now ≡ encoded_rows rows) }
    ensures none { result ≡ None → (rows : List TheRow) → IsBody rows body.now → ⊥ }
    ensures within { IfSome result (λ at. at ≤ length body.now) }
{
    let Some((_, rows)) = take_list_front(body) else {
        return None;
    };
    start_of(body, rows)
}

// Where the rows begin behind the one at a place.
fn next_row(body: &[u8], at: usize) -> Option<usize>
    requires { at ≤ length body.now }
    ensures next { IfSome result (BeginsNext body.now at) }
    ensures none { result ≡ None → (rows : List TheRow) → list_all is_row rows ≡ true
        → drop at body.now ≡ encoded_rows rows → rows ≡ [] }
    ensures within { IfSome result (λ next. next ≤ length body.now) }
{
    let (_, left) = body.split_at(at);
    if left.is_empty() {
        return None;
    }
    let Some(rest) = behind_row(left) else {
        return None;
    };
    start_of(body, rest)
}

// Where the rows begin behind the one at a place, if that one ends as a row of a body does.
fn next_if_ended(body: &[u8], at: usize) -> Option<usize>
    requires { at ≤ length body.now }
    ensures next { IfSome result (BeginsNext body.now at) }
    ensures ends { IfSome result (λ next. EndsThere (drop at body.now)) }
    ensures row { (row : TheRow) (more : List TheRow) → is_row row ≡ true
        → drop at body.now ≡ row_encoding row ++ encoded_rows more → result ≢ None }
    ensures within { IfSome result (λ next. next ≤ length body.now) }
{
    let (_, left) = body.split_at(at);
    if left.is_empty() {
        return None;
    }
    let Some(rest) = behind_ended_row(left) else {
        return None;
    };
    start_of(body, rest)
}

// Reads the body at a place into a room, and says where its rows begin. After a fault of reading the room is empty.
fn rows_at<D: Disk>(
    log: &Log,
    disk: &mut D,
    place: u64,
    room: &mut Vec<u8>,
) -> Result<usize, EventsFault>
    requires on { IsTrue D.tells → IsOn (D.view disk.old) log.now }
    ensures rows { IfOk result (λ at. IsTrue D.tells
        → (before : List (List TheRow)) (there : List TheRow) (after : List (List TheRow))
        → IsBody there (rows_body there)
        → HasBodies (bytes_of (before ++ there ∷ after)) log.now (D.view disk.old)
        → place ≡ length (made log.now.format (bytes_of before))
        → drop at room.new.items ≡ encoded_rows there) }
    ensures within { IfOk result (λ at. at ≤ length room.new.items) }
    ensures short { length room.new.items < 2 ^ 32 }
    ensures no_bad_log { (p : ℕ) → result ≡ Err (EventsFault.BadLog p) → IsTrue D.tells
        → (before : List (List TheRow)) (there : List TheRow) (after : List (List TheRow))
        → IsBody there (rows_body there)
        → HasBodies (bytes_of (before ++ there ∷ after)) log.now (D.view disk.old)
        → place ≡ length (made log.now.format (bytes_of before)) → ⊥ }
    ensures as_read { LeftAsRead D.tells log.now (D.view disk.old) (D.view disk.new) }
    ensures steady { OnOk result ((D.view disk.new).faults ≡ (D.view disk.old).faults) }
    ensures no_fault { OnErr result ((result ≡ Err EventsFault.Disk → ⊥)
        → (D.view disk.new).faults ≡ (D.view disk.old).faults) }
    ensures disk { result ≡ Err EventsFault.Disk
        → Rose (D.view disk.old).faults (D.view disk.new).faults }
{
    match read_body(log, disk, place, room) {
        Ok(_) => {}
        Err(fault) => {
            room.clear();
            return Err(fault_of(fault));
        }
    }
    match first_row(room.as_slice()) {
        Some(at) => Ok(at),
        None => Err(EventsFault::BadLog(place)),
    }
}

impl Buffer {
    /// Of no body. Takes no memory.
    pub(crate) fn new(alloc: Global) -> Buffer
        ensures { result ≡ record { place = 0; index = 0; left = [] } }
    {
        Buffer {
            place: 0,
            index: 0,
            at: 0,
            next: None,
            body: Vec::new(alloc),
        }
    }

    /// Whether it is of the body of a place, and the row there is still to come.
    pub(crate) fn is_before(&self, place: Place) -> bool
        ensures { result ≡ true → (self.now.place ≡ place.place) × (self.now.index ≤ place.index) }
    {
        self.place == place.place && self.index <= place.index
    }

    /// Turns to the first row of the body at a place. After a fault it is of none.
    pub(crate) fn turn<D: Disk>(
        &mut self,
        log: &Log,
        disk: &mut D,
        place: u64,
    ) -> Result<(), EventsFault>
        requires on { IsTrue D.tells → IsOn (D.view disk.old) log.now }
        ensures there { OnOk result ((self.new.place ≡ place) × (self.new.index ≡ 0)) }
        ensures fits { IsTrue D.tells → (bodies : List (List TheRow)) → AllBodies bodies
            → HasBodies (bytes_of bodies) log.now (D.view disk.old)
            → IsBufferOf log.now.format bodies self.new }
        ensures no_bad_log { (p : ℕ) → result ≡ Err (EventsFault.BadLog p) → IsTrue D.tells
            → (before : List (List TheRow)) (there : List TheRow) (after : List (List TheRow))
            → IsBody there (rows_body there)
            → HasBodies (bytes_of (before ++ there ∷ after)) log.now (D.view disk.old)
            → place ≡ length (made log.now.format (bytes_of before)) → ⊥ }
        ensures as_read { LeftAsRead D.tells log.now (D.view disk.old) (D.view disk.new) }
        ensures steady { OnOk result ((D.view disk.new).faults ≡ (D.view disk.old).faults) }
        ensures no_fault { OnErr result ((result ≡ Err EventsFault.Disk → ⊥)
            → (D.view disk.new).faults ≡ (D.view disk.old).faults) }
        ensures disk { result ≡ Err EventsFault.Disk
            → Rose (D.view disk.old).faults (D.view disk.new).faults }
    {
        self.place = 0;
        self.index = 0;
        self.at = 0;
        self.next = None;
        self.at = rows_at(log, disk, place, &mut self.body)?;
        self.place = place;
        Ok(())
    }

    // Goes behind the row before which it is, where it is before one.
    fn step(&mut self) -> bool
        requires { self.old.index < 255 }
        ensures place { self.new.place ≡ self.old.place }
        ensures next { result ≡ true → self.new.index ≡ self.old.index + 1 }
        ensures same { result ≡ false → self.new ≡ self.old }
        ensures rows { (rows : List TheRow) → list_all is_row rows ≡ true
            → self.old.left ≡ encoded_rows rows
            → (result ≡ true → self.new.left ≡ encoded_rows (drop 1 rows))
            × (result ≡ false → rows ≡ []) }
    {
        let next = match self.next {
            Some(next) => Some(next),
            None => next_row(self.body.as_slice(), self.at),
        };
        let Some(at) = next else {
            return false;
        };
        self.at = at;
        self.next = None;
        self.index += 1;
        true
    }

    /// Goes on to the row at an index, unless no row stands there.
    pub(crate) fn go_on(&mut self, index: u8) -> bool
        requires { self.old.index ≤ index }
        ensures place { self.new.place ≡ self.old.place }
        ensures there { result ≡ true → self.new.index ≡ index }
        ensures rows { (rows : List TheRow) → list_all is_row rows ≡ true
            → self.old.left ≡ encoded_rows (drop self.old.index rows)
            → (self.new.left ≡ encoded_rows (drop self.new.index rows))
            × (result ≡ false → length rows ≤ index) }
    {
        'rows: while self.index < index {
            if !self.step() {
                return false;
            }
        }
        true
    }

    /// Whether the row before which it is ends as one of a body does. Where the next one begins is then known.
    pub(crate) fn ends_row(&mut self) -> bool
        ensures same { self.new ≡ self.old }
        ensures ends { result ≡ true → EndsThere self.old.left }
        ensures row { (row : TheRow) (more : List TheRow) → is_row row ≡ true
            → self.old.left ≡ row_encoding row ++ encoded_rows more → result ≡ true }
    {
        self.next = next_if_ended(self.body.as_slice(), self.at);
        self.next.is_some()
    }

    /// What is seen of the row before which it is.
    pub(crate) fn peeked(&self) -> Option<Peeked<'_>>
        ensures found { option_map seen result ≡ peeked_at self.now.left }
        ensures sees { (row : TheRow) (rest : List ℕ) → is_row row ≡ true
            → self.now.left ≡ row_encoding row ++ rest → Sees row result }
        ensures short { IfSome result (λ seen. length seen.message.now < 2 ^ 32) }
    {
        let (_, left) = self.body.as_slice().split_at(self.at);
        peek(left)
    }
}
