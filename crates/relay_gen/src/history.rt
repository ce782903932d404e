//! A made history.

ghost use Rattle.std.specs.Prelude.{◌≡◌, ◌≤◌, ◌+◌, ◌<◌, ◌-◌, [], length, map, slice_get, option_map, Option, Some, OnOk, IfOk};
ghost use Rattle.relay_gen.specs.Commits.{Commit, Drawn, generated_ops, with_commit, keys_from};
ghost use Rattle.relay_gen.specs.Histories.{history};
ghost use Rattle.relay_gen.specs.Names.{generated_did, host_of};
ghost use Rattle.relay_gen.specs.States.{AreBefore, IsBehind, IsLast, repository_of};
ghost use Rattle.relay_gen.specs.Records.{op_of};

use crate::account::Account;
use crate::drafting::draft;
use crate::draws::Draws;
use crate::fault::GenFault;
use crate::records::Change;
use at_cid::{Memory, Octets};
use at_syntax::Tid;
use std::alloc::Global;
use std::marker::Model;

/// The most messages of a history.
pub const MOST_MESSAGES: u32 = 100_000;

/// How many accounts there are.
const ACCOUNTS: usize = 16;

/// How many hosts there are.
const HOSTS: usize = 4;

/// The DID of an account, counted from 0.
#[tactic(auto, unfolding(crate::specs::Names::generated_did))]
pub fn did_of(account: u8) -> &'static str
    requires { account < 16 }
    ensures { result.now ≡ generated_did account }
{
    match account {
        0 => "did:plc:gena",
        1 => "did:plc:genb",
        2 => "did:plc:genc",
        3 => "did:plc:gend",
        4 => "did:plc:gene",
        5 => "did:plc:genf",
        6 => "did:plc:geng",
        7 => "did:plc:genh",
        8 => "did:plc:geni",
        9 => "did:plc:genj",
        10 => "did:plc:genk",
        11 => "did:plc:genl",
        12 => "did:plc:genm",
        13 => "did:plc:genn",
        14 => "did:plc:geno",
        _ => "did:plc:genp",
    }
}

/// The host of an account, counted from 0.
#[tactic(auto, unfolding(crate::specs::Names::host_of))]
pub fn host_of(account: u8) -> &'static str
    ensures { result.now ≡ host_of account }
{
    match account % 4 {
        0 => "h0.gen",
        1 => "h1.gen",
        2 => "h2.gen",
        _ => "h3.gen",
    }
}

/// A message, and the account that it is of.
#[derive(Drop)]
struct Sent {
    account: u8,
    message: Octets,
}

/// The messages of four hosts and sixteen accounts, each with a commit.
#[derive(Drop)]
pub struct History {
    sent: Vec<Sent>,
    keys: u64,
}

impl Model for History {
    ghost use Rattle.std.specs.Prelude.{map};
    ghost use Rattle.relay_gen.specs.Histories as histories;
    ghost use Rattle.relay_gen.specs.Names.{host_of};
    ghost use Rattle.relay_gen.specs.declared.history.Sent.{Sent};

    ghost Value = { histories.History };

    ghost view = { λ a. record {
      messages =
          map (λ (s : Sent). (host_of s.account, s.message)) a.sent.items;
      keys = a.keys;
    } };
}

/// The state of a making.
#[derive(Drop)]
struct Maker {
    draws: Draws,
    accounts: Vec<Account>,
    seqs: [u64; HOSTS],
}

/// What the commit of a number does to an account: nothing where it is the account's first.
fn changes_of(
    alloc: Global,
    draws: &mut Draws,
    account: &Account,
    number: u32,
) -> Result<Vec<Change>, Memory>
    requires { number ≤ MOST_MESSAGES }
    ensures { (o : Option Commit) → account.now ≡ repository_of o
        → IfOk result (λ changes. record { ops = map op_of changes.items; state = draws.new }
        ≡ generated_ops o number draws.old) }
{
    if account.has_commit() {
        draft(alloc, draws, account.records(), number)
    } else {
        Ok(Vec::new(alloc))
    }
}

impl Maker {
    fn new(alloc: Global, start: u64) -> Result<Maker, Memory>
        ensures { IfOk result (λ maker.
            IsBehind (record {
              commits = [];
              state =
                  start;
            }) maker.draws maker.accounts.items maker.seqs) }
    {
        let mut accounts = Vec::with_capacity(alloc, ACCOUNTS)?;
        'accounts: for _ in 0..ACCOUNTS {
            accounts.push(Account::new(alloc))?;
        }
        Ok(Maker {
            draws: Draws::new(start),
            accounts,
            seqs: [0; HOSTS],
        })
    }

    /// The message of a number, counted from 1.
    fn next(&mut self, alloc: Global, number: u32) -> Result<Sent, Memory>
        requires least { 1 ≤ number }
        requires most { number ≤ MOST_MESSAGES }
        requires before { (d : Drawn)
            × IsBehind d self.old.draws self.old.accounts.items self.old.seqs
            × AreBefore number d.commits }
        ensures behind { (d : Drawn)
            → IsBehind d self.old.draws self.old.accounts.items self.old.seqs
            → OnOk result
            (IsBehind (with_commit number d) self.new.draws self.new.accounts.items self.new.seqs) }
        ensures sent { (d : Drawn) → IsBehind d self.old.draws self.old.accounts.items self.old.seqs
            → IfOk result (λ sent. IsLast
            (with_commit number d).commits sent.account sent.message) }
    {
        let at = self.draws.draw(ACCOUNTS as u64) as u8;
        let account = &mut self.accounts[at as usize];
        let changes = changes_of(alloc, &mut self.draws, account, number)?;
        let host = at as usize % HOSTS;
        self.seqs[host] += 1;
        let rev = Tid::from_value(u64::from(number) * 1024);
        let message = account.commit(alloc, did_of(at), self.seqs[host], rev, changes.as_slice())?;
        Ok(Sent {
            account: at,
            message,
        })
    }

    /// How many records there are.
    fn keys(&self) -> u64
        requires { (d : Drawn) × IsBehind d self.now.draws self.now.accounts.items self.now.seqs
            × AreBefore (MOST_MESSAGES + 1) d.commits }
        ensures { (d : Drawn) → IsBehind d self.now.draws self.now.accounts.items self.now.seqs
            → result ≡ keys_from 0 16 d.commits }
    {
        let mut keys = 0;
        'accounts: for account in self.accounts.as_slice() {
            keys += account.records().len() as u64;
        }
        keys
    }
}

/// The history of so many messages, 1 to [`MOST_MESSAGES`], that is drawn from a number. It holds all messages, about six
/// thousand bytes each.
pub fn make(alloc: Global, start: u64, n: u32) -> Result<History, GenFault>
    requires least { 1 ≤ n }
    requires most { n ≤ MOST_MESSAGES }
    ensures { IfOk result (λ made. made ≡ history start n) }
{
    let mut maker = Maker::new(alloc, start)?;
    let mut sent = Vec::new(alloc);
    'messages: for i in 0..n {
        sent.push(maker.next(alloc, i + 1)?)?;
    }
    Ok(History {
        sent,
        keys: maker.keys(),
    })
}

impl History {
    /// The host of a message, counted from 1.
    pub fn host(&self, i: u32) -> &str
        requires least { 1 ≤ i }
        requires most { i ≤ length self.now.messages }
        ensures { option_map (λ m. m.0) (slice_get self.now.messages (i - 1)) ≡ Some result.now }
    {
        host_of(self.sent[i as usize - 1].account)
    }

    /// The message, counted from 1.
    pub fn message(&self, i: u32) -> &[u8]
        requires least { 1 ≤ i }
        requires most { i ≤ length self.now.messages }
        ensures { option_map (λ m. m.1) (slice_get self.now.messages (i - 1)) ≡ Some result.now }
    {
        self.sent[i as usize - 1].message.as_slice()
    }

    /// How many messages there are.
    pub fn len(&self) -> usize
        ensures { result ≡ length self.now.messages }
    {
        self.sent.len()
    }

    /// How many records all accounts have in the end.
    pub fn keys(&self) -> u64
        ensures { result ≡ self.now.keys }
    {
        self.keys
    }
}
