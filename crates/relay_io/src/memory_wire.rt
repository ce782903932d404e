//! A wire in memory.
ghost use Rattle.std.specs.Prelude.{◌≡◌, ◌≤◌, ◌<◌, ◌+◌, ◌++◌, [], ◌∷◌, ◌↔◌, ◌⊎◌, All, length, true, false, IsTrue, IfOk, OnOk, OnErr, IsErr, IsErrOf, IfSome, is_some};
ghost use Rattle.std.specs.List.{repeat};
ghost use Rattle.std.specs.Vec.{vec_capacity, vec_len};
ghost use Rattle.at_cid.specs.Counts.{Rose};
ghost use Rattle.relay_io.specs.Calls.{FailsNext, IsFresh, next_call};
ghost use Rattle.relay_io.specs.Exchanges.{came};
ghost use Rattle.relay_io.specs.Messages.{Gives};
ghost use Rattle.relay_io.specs.declared.wire.TheConstants.{LONGEST_REQUEST};

use crate::{Exchange, Failed, Wire, WireFault};
use at_cid::{Failures, Memory, Octets};
use std::alloc::Global;

/// Requests in memory, and what was replied to them. A call fails exactly where its number, from 1, was listed: `next` has
/// a list of its own. A call of `send` also fails where no room is left that holds the reply.
#[derive(Drop)]
pub struct MemoryWire {
    alloc: Global,
    requests: Vec<Octets>,
    place: usize,
    exchanges: Vec<Exchange>,
    // The rooms that are left for replies. The last is taken first.
    rooms: Vec<Vec<u8>>,
    failures: Failures,
    send_failures: Failures,
    ghost short: { All (λ request. length request ≤ LONGEST_REQUEST) requests.items },
    ghost spare: { vec_len exchanges + vec_len rooms ≤ vec_capacity exchanges },
}

impl MemoryWire {
    ghost use Rattle.relay_io.specs.MemoryExchanges.{exchanges_of, has_room, requests_of, rooms_of, send_calls, wire_calls};

    /// A wire on which these requests come, without room for replies. The calls of `next` with the numbers in `failing`
    /// fail, and so do those of `send` with the numbers in `send_failing`.
    pub fn new(
        alloc: Global,
        requests: Vec<Octets>,
        failing: &[u64],
        send_failing: &[u64],
    ) -> Result<MemoryWire, Memory>
        requires { All (λ request. length request ≤ LONGEST_REQUEST) requests.items }
        ensures requests { IfOk result (λ wire. requests_of wire ≡ requests.items) }
        ensures exchanges { IfOk result (λ wire. exchanges_of wire ≡ []) }
        ensures rooms { IfOk result (λ wire. rooms_of wire ≡ []) }
        ensures fresh { IfOk result (λ wire. IsFresh failing.now (wire_calls wire)) }
        ensures send { IfOk result (λ wire. IsFresh send_failing.now (send_calls wire)) }
    {
        let failures = Failures::new(alloc, failing)?;
        let send_failures = Failures::new(alloc, send_failing)?;
        Ok(MemoryWire {
            alloc,
            requests,
            place: 0,
            exchanges: Vec::new(alloc),
            rooms: Vec::new(alloc),
            failures,
            send_failures,
        })
    }

    /// What happened so far.
    pub fn exchanges(&self) -> &[Exchange]
        ensures { result.now ≡ exchanges_of self.now }
    {
        self.exchanges.as_slice()
    }

    /// Makes room for so many more replies of so many bytes each. Where it runs out of memory, some room may have been
    /// made.
    #[tactic(auto, using(crate::proofs::Rooms::rooms_more))]
    pub fn reserve(&mut self, calls: usize, bytes: usize) -> Result<(), Memory>
        ensures ok { OnOk result
            (rooms_of self.new ≡ rooms_of self.old ++ repeat calls (bytes ∷ [])) }
        ensures requests { requests_of self.new ≡ requests_of self.old }
        ensures exchanges { exchanges_of self.new ≡ exchanges_of self.old }
        ensures calls { wire_calls self.new ≡ wire_calls self.old }
        ensures send { send_calls self.new ≡ send_calls self.old }
    {
        for _made in 0..calls {
            self.add_room(bytes)?;
        }
        Ok(())
    }

    // Makes room for one more reply of so many bytes.
    fn add_room(&mut self, bytes: usize) -> Result<(), Memory>
        ensures ok { OnOk result (rooms_of self.new ≡ rooms_of self.old ++ bytes ∷ []) }
        ensures err { OnErr result (rooms_of self.new ≡ rooms_of self.old) }
        ensures requests { requests_of self.new ≡ requests_of self.old }
        ensures exchanges { exchanges_of self.new ≡ exchanges_of self.old }
        ensures calls { wire_calls self.new ≡ wire_calls self.old }
        ensures send { send_calls self.new ≡ send_calls self.old }
    {
        let room = Vec::with_capacity(self.alloc, bytes)?;
        let Some(rooms) = self.rooms.len().checked_add(1) else {
            return Err(Memory);
        };
        self.exchanges.reserve(rooms)?;
        match self.rooms.push(room) {
            Ok(()) => Ok(()),
            Err(_) => Err(Memory),
        }
    }

    // Takes the last room, where it holds so many bytes.
    #[tactic(auto, using(crate::proofs::Rooms::last_room))]
    fn take_room(&mut self, bytes: usize) -> Option<Vec<u8>>
        ensures empty { IfSome result (λ room. (room.items ≡ []) × (vec_len room ≡ 0)) }
        ensures holds { IfSome result (λ room. bytes ≤ vec_capacity room) }
        ensures found { is_some result ≡ has_room bytes (rooms_of self.old) }
        ensures spare { IfSome result (λ _. vec_len self.new.exchanges + 1
            + vec_len self.new.rooms ≤ vec_capacity self.new.exchanges) }
        ensures requests { requests_of self.new ≡ requests_of self.old }
        ensures exchanges { exchanges_of self.new ≡ exchanges_of self.old }
        ensures calls { wire_calls self.new ≡ wire_calls self.old }
        ensures send { send_calls self.new ≡ send_calls self.old }
    {
        let Some(mut room) = self.rooms.pop() else {
            return None;
        };
        room.clear();
        if room.capacity() < bytes {
            return None;
        }
        Some(room)
    }
}

impl Wire for MemoryWire {
    ghost use Rattle.relay_io.specs.MemoryExchanges.{exchanges_of, has_room, requests_of, rooms_of, send_calls, wire_calls};
    ghost use Rattle.relay_io.specs.declared.wire.Exchange.{Exchange};
    ghost use Rattle.relay_io.specs.declared.wire.WireFault.{WireFault};

    ghost tells = { true };

    ghost requests = { requests_of };

    ghost exchanges = { exchanges_of };

    ghost faults = { λ wire. wire.failures.faults };

    ghost send_faults = { λ wire. wire.send_failures.faults };

    #[tactic(auto, using(crate::proofs::Coming::request_left, crate::proofs::Coming::no_request_left))]
    fn next(&mut self, room: &mut Octets) -> Result<bool, WireFault>
        ensures given { IfOk result (λ more. IsTrue true
            → Gives more room.new (requests_of self.old) (requests_of self.new)) }
        ensures came { IfOk result (λ more. IsTrue true
            → exchanges_of self.new ≡ exchanges_of self.old ++ came more room.new) }
        ensures within { IfOk result (λ more. IsTrue more → length room.new ≤ LONGEST_REQUEST) }
        ensures kept { OnErr result (IsTrue true → (requests_of self.new ≡ requests_of self.old)
            × (exchanges_of self.new ≡ exchanges_of self.old)) }
        ensures counts { (wire_calls self.old).faults ≤ (wire_calls self.new).faults }
        ensures steady { OnOk result ((wire_calls self.new).faults ≡ (wire_calls self.old).faults) }
        ensures no_fault { IsErrOf result WireFault.Memory
            → (wire_calls self.new).faults ≡ (wire_calls self.old).faults }
        ensures send_counts { (send_calls self.new).faults ≡ (send_calls self.old).faults }
        ensures failed { IsErrOf result WireFault.Failed
            → Rose (wire_calls self.old).faults (wire_calls self.new).faults }

        // Where it fails.
        ensures fails { IsErrOf result WireFault.Failed ↔ FailsNext (wire_calls self.old) }
        ensures number { (wire_calls self.new).taken ≡ next_call (wire_calls self.old) }
        ensures listed { (wire_calls self.new).listed.items ≡ (wire_calls self.old).listed.items }
        ensures rooms { rooms_of self.new ≡ rooms_of self.old }
        ensures send { send_calls self.new ≡ send_calls self.old }
    {
        self.failures.begin(WireFault::Failed)?;
        if self.place >= self.requests.len() {
            return Ok(false);
        }
        let request = &self.requests[self.place];
        room.clear();
        room.extend(request.as_slice())?;
        let request = request.try_clone()?;
        // The rooms that are left keep their places among the exchanges.
        let Some(places) = self.rooms.len().checked_add(1) else {
            return Err(WireFault::Memory);
        };
        if self.exchanges.reserve(places).is_err() {
            return Err(WireFault::Memory);
        }
        if self.exchanges.push(Exchange::Came(request)).is_err() {
            return Err(WireFault::Memory);
        }
        self.place += 1;
        Ok(true)
    }

    fn send(&mut self, reply: &[u8]) -> Result<(), Failed>
        ensures sent { OnOk result (IsTrue true
            → exchanges_of self.new ≡ exchanges_of self.old ++ Exchange.Sent reply.now ∷ []) }
        ensures kept { OnErr result (IsTrue true → exchanges_of self.new ≡ exchanges_of self.old) }
        ensures same { IsTrue true → requests_of self.new ≡ requests_of self.old }
        ensures counts { (wire_calls self.new).faults ≡ (wire_calls self.old).faults }
        ensures send_counts { (send_calls self.old).faults ≤ (send_calls self.new).faults }
        ensures steady { OnOk result ((send_calls self.new).faults ≡ (send_calls self.old).faults) }
        ensures failed { OnErr result
            (Rose (send_calls self.old).faults (send_calls self.new).faults) }

        // Where it fails.
        ensures fails { IsErr result ↔ FailsNext (send_calls self.old)
            ⊎ (has_room (length reply.now) (rooms_of self.old) ≡ false) }
        ensures number { (send_calls self.new).taken ≡ next_call (send_calls self.old) }
        ensures listed { (send_calls self.new).listed.items ≡ (send_calls self.old).listed.items }
        ensures next { wire_calls self.new ≡ wire_calls self.old }
    {
        self.send_failures.begin(Failed)?;
        let Some(mut room) = self.take_room(reply.len()) else {
            return self.send_failures.fail(Failed);
        };
        // There is room, so this takes no memory.
        let Ok(()) = room.extend_from_slice(reply) else {
            unreachable!()
        };
        let Ok(()) = self.exchanges.push(Exchange::Sent(Octets::from_vec(room))) else {
            unreachable!()
        };
        Ok(())
    }
}
