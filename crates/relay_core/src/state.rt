//! What the relay's state is asked, and how rows move it.

ghost use Rattle.std.specs.Prelude.{◌≡◌, ◌≢◌, List, ℕ, [], ◌++◌, ◌∷◌, Some, None, true, option_map, OnOk, OnErr, IfSome};
ghost use Rattle.at_event.specs.declared.frame.Frame.{Frame as TheFrame};
ghost use Rattle.relay_row.specs.Folds.{host_in, did_of_row};
ghost use Rattle.relay_row.specs.Journal.{rises_above, keeps_order};
ghost use Rattle.relay_row.specs.declared.row.Row.{Row};
ghost use Rattle.account_state.specs.Entries.{entry, is_before};
ghost use Rattle.account_state.specs.Entries.{has_room as has_account};
ghost use Rattle.account_state.specs.State.{state_of};
ghost use Rattle.host_state.specs.Table.{listed};
ghost use Rattle.host_state.specs.Table.{has_room as has_host};
ghost use Rattle.relay_core.specs.Entries.{account_in, cursor_in, is_next_in, Holds};
ghost use Rattle.relay_core.specs.Table.{next_of, did_of};

use crate::answers::Answers;
use crate::deciding::{next_for, next_for_event};
use crate::decision::Next;
use crate::following::{last_after, stage_after};
use crate::journal_state::Core;
use crate::stage::{Stage, is_start, takes_accounts, takes_hosts};
use account_state::{Account, Accounts};
use at_cid::Memory;
use at_event::{Event, Frame};
use host_state::Hosts;
use relay_row::{Carried, Row};
use std::alloc::Global;

// Makes room for the host that a row names, if it names one.
fn touch_host(hosts: &mut Hosts, row: &Row) -> Result<(), Memory>
    ensures listed { listed hosts.new ≡ listed hosts.old }
    ensures room { OnOk result
        (host_in row.now ≢ [] → has_host hosts.new (host_in row.now) ≡ true) }
{
    let host = row.host();
    if host.is_empty() {
        return Ok(());
    }
    hosts.touch(host)
}

impl Core {
    /// The state of the empty journal.
    pub fn new(alloc: Global) -> Core
        ensures { Holds result [] }
    {
        Core {
            accounts: Accounts::new(alloc),
            hosts: Hosts::new(alloc),
            last: 0,
            stage: Stage::Start,
        }
    }

    /// The account of a DID, where a row names it.
    pub fn account(&self, did: &str) -> Option<&Account>
        ensures { option_map (λ account. state_of account.now) result
            ≡ entry self.now.accounts did.now }
    {
        self.accounts.get(did)
    }

    /// The next DID that a row names, in the order of bytes, with its account.
    pub fn next_after(&self, did: &str) -> Option<(&str, &Account)>
        ensures found { IfSome result (λ x. entry self.now.accounts x.0.now
            ≡ Some (state_of x.1.now)) }
        ensures above { IfSome result (λ x. is_before did.now x.0.now ≡ true) }
        ensures least { IfSome result (λ x. (name : List ℕ) → is_before did.now name ≡ true
            → is_before name x.0.now ≡ true → entry self.now.accounts name ≡ None) }
        ensures none { result ≡ None → (name : List ℕ) → is_before did.now name ≡ true
            → entry self.now.accounts name ≡ None }
    {
        self.accounts.next_after(did)
    }

    /// The cursor of a host: how far its stream was taken, or 0 where no row names it.
    pub fn cursor(&self, host: &str) -> u64
        ensures { result ≡ cursor_in self.now host.now }
    {
        self.hosts.cursor(host)
    }

    /// The last number, or 0.
    pub fn last_seq(&self) -> u64
        ensures { result ≡ self.now.last }
    {
        self.last
    }

    /// The hosts, in first-seen order.
    pub fn hosts(&self) -> &Hosts
        ensures { result.now ≡ self.now.hosts }
    {
        &self.hosts
    }

    /// Makes room for a host and an account. An empty name needs none. What is known stays.
    #[tactic(auto, using(crate::proofs::Holding::same_holds))]
    pub fn touch(&mut self, host: &str, did: &str) -> Result<(), Memory>
        ensures holds { (rows : List Row) → Holds self.old rows → Holds self.new rows }
        ensures host { OnOk result (host.now ≢ [] → has_host self.new.hosts host.now ≡ true) }
        ensures account { OnOk result (did.now ≢ []
            → has_account self.new.accounts did.now ≡ true) }
        ensures hosts { (name : List ℕ) → has_host self.old.hosts name ≡ true
            → has_host self.new.hosts name ≡ true }
        ensures accounts { (name : List ℕ) → has_account self.old.accounts name ≡ true
            → has_account self.new.accounts name ≡ true }
    {
        if !host.is_empty() {
            self.hosts.touch(host)?;
        }
        if !did.is_empty() {
            self.accounts.touch(did)?;
        }
        Ok(())
    }

    /// What comes next for an event of a host, by the answers so far.
    pub fn next_for_event(&self, host: &str, event: &Event, answers: &Answers) -> Next
        ensures { result ≡ next_of (cursor_in self.now host.now) (account_in self.now event.now.did)
            (TheFrame.Event event.now) answers.now }
    {
        let cursor = self.cursor(host);
        next_for_event(cursor, self.account(event.did.as_str()), event, answers)
    }

    /// What comes next for a message of a host, by the answers so far.
    pub fn next(&self, host: &str, frame: &Frame, answers: &Answers) -> Next
        ensures { result ≡ next_of (cursor_in self.now host.now)
            (account_in self.now (did_of frame.now)) frame.now answers.now }
    {
        match frame {
            Frame::Event(event) => self.next_for_event(host, event, answers),
            Frame::Faulty(_) | Frame::Info | Frame::Error | Frame::Unknown => {
                next_for(self.cursor(host), None, frame, answers)
            }
        }
    }

    fn is_above(&self, seq: u64) -> bool
        ensures { result ≡ rises_above self.now.last seq }
    {
        seq == 0 || seq > self.last
    }

    fn follows(&self, row: &Row) -> bool
        ensures { result ≡ is_next_in self.now row.now }
    {
        match row {
            Row::Taken(taken) => {
                self.cursor(taken.host.as_str()) < taken.host_seq && self.is_above(taken.given())
            }
            Row::Synced(_, whole, _) => self.is_above(whole.seq),
            Row::Operated(operated) => self.is_above(operated.seq),
            Row::Carried(Carried::Last(_)) => is_start(self.stage),
            Row::Carried(Carried::Host(host, _)) => {
                takes_hosts(self.stage) && self.cursor(host.as_str()) == 0
            }
            Row::Carried(Carried::Account(account)) => {
                takes_accounts(self.stage) && self.account(account.did.as_str()).is_none()
            }
        }
    }

    /// Whether a row keeps the order of the journal.
    pub fn is_next(&self, row: &Row) -> bool
        ensures { (rows : List Row) → Holds self.now rows → result ≡ keeps_order rows row.now }
    {
        self.follows(row)
    }

    /// The state after one more row, whose names were touched. Takes no memory.
    pub fn apply(&mut self, row: Row)
        requires host { host_in row ≢ [] → has_host self.old.hosts (host_in row) ≡ true }
        requires account { did_of_row row ≢ []
            → has_account self.old.accounts (did_of_row row) ≡ true }
        ensures holds { (rows : List Row) → Holds self.old rows
            → Holds self.new (rows ++ row ∷ []) }
        ensures hosts { (name : List ℕ)
            → has_host self.new.hosts name ≡ has_host self.old.hosts name }
        ensures accounts { (name : List ℕ)
            → has_account self.new.accounts name ≡ has_account self.old.accounts name }
    {
        self.stage = stage_after(self.stage, &row);
        self.last = last_after(self.last, &row);
        self.hosts.apply(&row);
        self.accounts.apply(row);
    }

    /// The state after one more row, whose names need not have been touched: `touch` and `apply` in one, with one search for the
    /// account. What it keeps is taken out of the row. Where memory runs out, it stays the state of the same rows.
    pub fn learn(&mut self, row: &mut Row) -> Result<(), Memory>
        ensures ok { OnOk result ((rows : List Row) → Holds self.old rows
            → Holds self.new (rows ++ row.old ∷ [])) }
        ensures err { OnErr result ((rows : List Row) → Holds self.old rows
            → Holds self.new rows) }
    {
        touch_host(&mut self.hosts, row)?;
        let stage = stage_after(self.stage, row);
        let last = last_after(self.last, row);
        self.accounts.learn(row)?;
        self.hosts.apply(row);
        self.stage = stage;
        self.last = last;
        Ok(())
    }
}
