//! A mirror.

ghost use Rattle.std.specs.Prelude.{◌≡◌, ◌≢◌, ◌≤◌, ◌⊎◌, ℕ, List, IfOk, IfSome, IfErr, OnOk, OnErr, IfNone, IsTrue, IsErrOf, Ok, Err, Some, None, true, false, if◌then◌else◌, ◌||◌, ◌&&◌, option_map, is_some};
ghost use Rattle.std.specs.String.{string_bytes};
ghost use Rattle.std.specs.declared.cmp.Ordering.TheVariants.{Less};
ghost use Rattle.std.specs.Str.{bytes_eq};
ghost use Rattle.at_cid.specs.Counts.{Rose};
ghost use Rattle.at_cid.specs.Order.{key_cmp};
ghost use Rattle.at_event.specs.Frames.{frame_of};
ghost use Rattle.mirror.specs.Held.{IsAfterCommit, IsAfterSync};
ghost use Rattle.mirror.specs.Playing.{IsPlayableAs};
ghost use Rattle.mirror.specs.State.{at_start, held_by, is_known, map_held};
ghost use Rattle.mirror.specs.Taken.{IsChanged, IsSame, IsTaken, IsTakenEvent, is_bad, step_of};
ghost use Rattle.mirror.specs.declared.fault.MirrorFault as fault;

use crate::edits::edits;
use crate::fault::MirrorFault;
use crate::holding::Holding;
use crate::step::Step;
use crate::syncing::after_sync;
use at_cid::Memory;
use at_event::{Body, CommitEvent, Event, Frame, FrameFault, SyncEvent, read_frame};
use at_syntax::Tid;
use mst_list::OpList;
use relay_io::Repos;
use std::alloc::Global;
use std::collections::BTreeMap;
use std::ops::Bound;
use whole_map::WholeMap;

/// The whole map of each account of a stream.
#[derive(Drop)]
pub struct Mirror {
    alloc: Global,
    // The number of the last event, or 0.
    pub(crate) last: u64,
    // What is held of each account of which a commit or a `#sync` was taken.
    pub(crate) accounts: BTreeMap<String, Holding>,
}

// What a message came to, by what is held behind it.
fn step_of(held: &Holding) -> Step
    ensures { result ≡ step_of held.now }
{
    match held {
        Holding::Mapped(_, map) => Step::Held(map.len() as u64),
        Holding::Waiting => Step::Waiting,
    }
}

impl Mirror {
    /// A mirror that has read nothing. Takes no memory.
    pub fn new(alloc: Global) -> Mirror
        ensures last { result.last ≡ 0 }
        ensures held { (did : List ℕ) → held_by result did ≡ at_start }
        ensures known { (did : List ℕ) → is_known result did ≡ false }
    {
        Mirror {
            alloc,
            last: 0,
            accounts: BTreeMap::new(alloc),
        }
    }

    // Holds this of an account from now on.
    fn put(&mut self, did: &str, held: Holding) -> Result<(), Memory>
        ensures put { OnOk result ((name : List ℕ) → held_by self.new name
            ≡ (if bytes_eq name did.now then held else held_by self.old name)) }
        ensures known { OnOk result ((name : List ℕ) → is_known self.new name
            ≡ (is_known self.old name || bytes_eq name did.now)) }
        ensures last { self.new.last ≡ self.old.last }
        ensures same { OnErr result (IsSame self.old self.new) }
    {
        let name = String::from_str(self.alloc, did)?;
        self.accounts.insert(name, held)?;
        Ok(())
    }

    // Takes a commit with its edits on what is held of an account, where it is known.
    fn apply(
        &mut self,
        did: &str,
        commit: &CommitEvent,
        edits: &Option<OpList>,
    ) -> Result<Option<Step>, Memory>
        requires { IsPlayableAs commit.now edits.now }
        ensures found { IfOk result (λ step. is_some step ≡ is_known self.old did.now) }
        ensures changed { IfOk result (λ found. IfSome found
            (IsChanged did.now (IsAfterCommit commit.now) self.old self.new)) }
        ensures none { IfOk result (λ found. IfNone found (IsSame self.old self.new)) }
        ensures last { self.new.last ≡ self.old.last }
        ensures same { OnErr result (IsSame self.old self.new) }
    {
        match self.accounts.get_mut(did) {
            Some(held) => {
                held.apply(commit, edits)?;
                Ok(Some(step_of(held)))
            }
            None => Ok(None),
        }
    }

    // Takes a commit of an account.
    fn take_commit(&mut self, did: &str, commit: &CommitEvent) -> Result<Step, Memory>
        ensures changed { IfOk result
            (IsChanged did.now (IsAfterCommit commit.now) self.old self.new) }
        ensures last { self.new.last ≡ self.old.last }
        ensures same { OnErr result (IsSame self.old self.new) }
    {
        let edits = edits(self.alloc, commit)?;
        if let Some(step) = self.apply(did, commit, &edits)? {
            return Ok(step);
        }
        let mut held = Holding::Mapped(None, WholeMap::new(self.alloc));
        held.apply(commit, &edits)?;
        let step = step_of(&held);
        self.put(did, held)?;
        Ok(step)
    }

    // Takes a `#sync` of an account.
    fn take_sync<R: Repos>(
        &mut self,
        did: &str,
        sync: &SyncEvent,
        repos: &mut R,
    ) -> Result<Step, MirrorFault>
        ensures changed { IfOk result (IsChanged did.now
            (λ _ new. IsTrue R.tells → IsAfterSync (R.repository repos.old) sync.now new)
            self.old self.new) }
        ensures last { self.new.last ≡ self.old.last }
        ensures failed { IsErrOf result fault.MirrorFault.Repos
            → Rose (R.faults repos.old) (R.faults repos.new) }
        ensures good { result ≢ Err fault.MirrorFault.BadMessage }
        ensures same { OnErr result (IsSame self.old self.new) }
        ensures repositories { IsTrue R.tells → (did : List ℕ)
            → R.repository repos.new did ≡ R.repository repos.old did }
        ensures counts { R.faults repos.old ≤ R.faults repos.new }
        ensures steady { result ≢ Err fault.MirrorFault.Repos
            → R.faults repos.new ≡ R.faults repos.old }
    {
        let held = after_sync(self.alloc, sync, repos)?;
        let step = step_of(&held);
        self.put(did, held)?;
        Ok(step)
    }

    fn take_event<R: Repos>(&mut self, event: &Event, repos: &mut R) -> Result<Step, MirrorFault>
        ensures taken { IfOk result
            (IsTakenEvent R.tells (R.repository repos.old) self.old self.new event.now) }
        ensures bad { (result ≡ Err fault.MirrorFault.BadMessage) → event.now.seq ≤ self.old.last }
        ensures exact { event.now.seq ≤ self.old.last
            → result ≡ Err fault.MirrorFault.BadMessage }
        ensures failed { IsErrOf result fault.MirrorFault.Repos
            → Rose (R.faults repos.old) (R.faults repos.new) }
        ensures same { OnErr result (IsSame self.old self.new) }
        ensures repositories { IsTrue R.tells → (did : List ℕ)
            → R.repository repos.new did ≡ R.repository repos.old did }
        ensures counts { R.faults repos.old ≤ R.faults repos.new }
        ensures steady { result ≢ Err fault.MirrorFault.Repos
            → R.faults repos.new ≡ R.faults repos.old }
    {
        if event.seq <= self.last {
            return Err(MirrorFault::BadMessage);
        }
        let step = match &event.body {
            Body::Commit(commit) => self.take_commit(event.did.as_str(), commit.get())?,
            Body::Sync(sync) => self.take_sync(event.did.as_str(), sync, repos)?,
            Body::Identity | Body::Account(_) => Step::Passed,
        };
        self.last = event.seq;
        Ok(step)
    }

    /// Takes the next message of the stream. A commit's edits are played on the map that is held, in place. After each fault
    /// the mirror is as before.
    pub fn take<R: Repos>(&mut self, message: &[u8], repos: &mut R) -> Result<Step, MirrorFault>
        ensures taken { IfOk result
            (IsTaken R.tells (R.repository repos.old) self.old self.new message.now) }
        ensures bad { (result ≡ Err fault.MirrorFault.BadMessage)
            → is_bad self.old.last (frame_of message.now) ≡ true }
        ensures exact { is_bad self.old.last (frame_of message.now) ≡ true
            → (result ≡ Err fault.MirrorFault.BadMessage)
            ⊎ (result ≡ Err fault.MirrorFault.Memory) }
        ensures failed { IsErrOf result fault.MirrorFault.Repos
            → Rose (R.faults repos.old) (R.faults repos.new) }
        ensures same { OnErr result (IsSame self.old self.new) }
        ensures repositories { IsTrue R.tells → (did : List ℕ)
            → R.repository repos.new did ≡ R.repository repos.old did }
        ensures counts { R.faults repos.old ≤ R.faults repos.new }
        ensures steady { result ≢ Err fault.MirrorFault.Repos
            → R.faults repos.new ≡ R.faults repos.old }
    {
        let frame = match read_frame(self.alloc, message) {
            Ok(frame) => frame,
            Err(FrameFault::Memory) => return Err(MirrorFault::Memory),
            Err(_) => return Err(MirrorFault::BadMessage),
        };
        match frame {
            Frame::Event(event) => self.take_event(&event, repos),
            Frame::Info => Ok(Step::Passed),
            Frame::Faulty(_) | Frame::Error | Frame::Unknown => Err(MirrorFault::BadMessage),
        }
    }

    /// The number of the last event, or 0.
    pub fn last_seq(&self) -> u64
        ensures { result ≡ self.now.last }
    {
        self.last
    }

    /// The map of an account, with the revision that gave it. None where the account waits, or no commit or `#sync` gave it
    /// a revision.
    pub fn map(&self, did: &str) -> Option<(Tid, &WholeMap)>
        ensures { option_map (λ x. (x.0, x.1.now)) result ≡ map_held (held_by self.now did.now) }
    {
        match self.accounts.get(did) {
            Some(Holding::Mapped(Some(rev), map)) => Some((*rev, map)),
            _ => None,
        }
    }

    // The next DID behind a known one.
    fn next_behind(&self, did: &String) -> Option<&str>
        ensures found { IfSome result (λ next. is_known self.now next.now ≡ true) }
        ensures above { IfSome result (λ next. key_cmp (string_bytes did.now) next.now ≡ Less) }
        ensures least { IfSome result (λ next. (other : List ℕ)
            → key_cmp (string_bytes did.now) other ≡ Less → key_cmp other next.now ≡ Less
            → is_known self.now other ≡ false) }
        ensures none { result ≡ None → (other : List ℕ)
            → key_cmp (string_bytes did.now) other ≡ Less → is_known self.now other ≡ false }
    {
        let behind = (Bound::Excluded(did), Bound::Unbounded);
        match self.accounts.range(behind).next() {
            Some((name, _)) => Some(name.as_str()),
            None => None,
        }
    }

    // The next DID behind any, searched from the first one on.
    fn first_behind(&self, did: &str) -> Option<&str>
        ensures found { IfSome result (λ next. is_known self.now next.now ≡ true) }
        ensures above { IfSome result (λ next. key_cmp did.now next.now ≡ Less) }
        ensures least { IfSome result (λ next. (other : List ℕ)
            → key_cmp did.now other ≡ Less → key_cmp other next.now ≡ Less
            → is_known self.now other ≡ false) }
        ensures none { result ≡ None → (other : List ℕ)
            → key_cmp did.now other ≡ Less → is_known self.now other ≡ false }
    {
        for (name, _) in &self.accounts {
            let text = name.as_str();
            if did.cmp(text).is_lt() {
                return Some(text);
            }
        }
        None
    }

    /// The next DID of which a commit or a `#sync` was taken, in the order of bytes. Behind a known DID it is found at once;
    /// behind another one, in time linear in the accounts before it.
    pub fn next_after(&self, did: &str) -> Option<&str>
        ensures found { IfSome result (λ next. is_known self.now next.now ≡ true) }
        ensures above { IfSome result (λ next. key_cmp did.now next.now ≡ Less) }
        ensures least { IfSome result (λ next. (other : List ℕ)
            → key_cmp did.now other ≡ Less → key_cmp other next.now ≡ Less
            → is_known self.now other ≡ false) }
        ensures none { result ≡ None → (other : List ℕ)
            → key_cmp did.now other ≡ Less → is_known self.now other ≡ false }
    {
        match self.accounts.get_key_value(did) {
            Some((known, _)) => self.next_behind(known),
            None => self.first_behind(did),
        }
    }
}
