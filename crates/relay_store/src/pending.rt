//! The body that is put together while steps are taken.

ghost use Rattle.std.specs.Prelude.{◌≡◌, ◌≤◌, ◌<◌, [], length, take, OnOk};
ghost use Rattle.at_cbor.specs.declared.major.Major.{Major};
ghost use Rattle.at_cbor.specs.Encoding.{front_of};
ghost use Rattle.gate_log.specs.declared.pending_bodies.TheConstants.{HEAD};
ghost use Rattle.relay_row.specs.declared.limits.TheConstants.{MOST_ROWS};
ghost use Rattle.relay_store.specs.PendingBodies.{HasRows, cut_to};

use at_cid::{Memory, Octets};
use gate_log::{HEAD, begin};
use std::alloc::Global;
use std::mem;

/// The rows of a body under way, as they are encoded, behind the room for what stands ahead of them.
#[derive(Drop)]
pub struct Pending {
    /// The bytes.
    pub body: Octets,
    /// How many rows there are.
    pub count: usize,
}

impl Pending {
    /// No rows, and no room yet.
    pub fn new(alloc: Global) -> Pending {
        Pending {
            body: Octets::new(alloc),
            count: 0,
        }
    }

    /// Drops what was put together.
    pub fn start(&mut self) -> Result<(), Memory>
        ensures { OnOk result (HasRows [] self.new) }
    {
        self.count = 0;
        begin(&mut self.body)
    }

    /// Drops the bytes behind so many. Takes no memory.
    pub fn cut_back(&mut self, alloc: Global, len: usize)
        ensures { self.new ≡ cut_to len self.old }
    {
        let mut bytes = mem::replace(&mut self.body, Octets::new(alloc)).into_vec();
        bytes.truncate(len);
        self.body = Octets::from_vec(bytes);
    }
}

/// The front of a list of so many rows, with a byte behind it where it has one alone.
pub fn list_front(count: usize) -> [u8; HEAD]
    requires { count ≤ MOST_ROWS }
    ensures { take (length (front_of Major.List count)) result ≡ front_of Major.List count }
{
    if count < 24 {
        return [128 + count as u8, 0];
    }
    [152, count as u8]
}

/// How long it is.
pub fn list_front_len(count: usize) -> usize
    requires { count ≤ MOST_ROWS }
    ensures len { result ≡ length (front_of Major.List count) }
    ensures short { result ≤ HEAD }
{
    if count < 24 { 1 } else { 2 }
}
