//! The accounts that the rows of a journal name.

ghost use Rattle.std.specs.Prelude.{◌≡◌, ◌≢◌, List, ℕ, [], Some, None, true, false, option_map, OnOk, OnErr, IfSome};
ghost use Rattle.relay_row.specs.Folds.{did_of_row, host_in, host_seq_in};
ghost use Rattle.account_state.specs.Entries.{entry, has_room, entry_after, found_entry, is_before, put};
ghost use Rattle.account_state.specs.Shape.{no_entries};
ghost use Rattle.account_state.specs.State.{state_of};

use crate::account::Account;
use crate::taking::take_did;
use crate::tree::{Tree, TreeNode};
use at_cid::{Memory, Words};
use relay_row::Row;
use std::alloc::Global;
use std::marker::Model;

/// The accounts, each under its DID, seen in contracts as the list of them in the order of their DIDs. A DID that was
/// touched and that no row names has room, and no account. They lie in a tree that is low whatever DIDs were touched in
/// whatever order: n DIDs are at most 2 log2(n + 1) deep, and no call recurses deeper.
#[derive(Drop)]
pub struct Accounts {
    alloc: Global,
    tree: Tree,
}

impl Model for Accounts {
    ghost use Rattle.std.specs.Prelude.{List};
    ghost use Rattle.account_state.specs.Entries.{Entry, IsSorted};
    ghost use Rattle.account_state.specs.Shape.{IsLow};

    ghost Value = { List Entry };

    ghost view = { λ a. a.tree.entries };

    ghost invariant = { λ a. IsSorted a.tree.entries × IsLow a.tree };
}

impl Accounts {
    /// The accounts of the empty journal.
    pub fn new(alloc: Global) -> Accounts
        ensures entries { (did : List ℕ) → entry result did ≡ None }
        ensures room { (did : List ℕ) → has_room result did ≡ false }
    {
        Accounts {
            alloc,
            tree: Tree::new(),
        }
    }

    /// The account of a DID, where a row names it.
    pub fn get(&self, did: &str) -> Option<&Account>
        ensures { option_map (λ account. state_of account.now) result ≡ entry self.now did.now }
    {
        match self.tree.get(did.as_bytes()) {
            Some(account) if account.is_named() => Some(account),
            _ => None,
        }
    }

    /// Makes room for an account. What is known stays.
    pub fn touch(&mut self, did: &str) -> Result<(), Memory>
        ensures entries { (name : List ℕ) → entry self.new name ≡ entry self.old name }
        ensures room { OnOk result (has_room self.new did.now ≡ true) }
        ensures kept { (name : List ℕ) → has_room self.old name ≡ true
            → has_room self.new name ≡ true }
    {
        if self.tree.get(did.as_bytes()).is_some() {
            return Ok(());
        }
        let name = Words::from_str(self.alloc, did)?;
        self.put(TreeNode::unnamed(self.alloc, name))
    }

    // Puts an account in its place.
    fn put(&mut self, node: TreeNode) -> Result<(), Memory>
        requires absent { found_entry node.name self.old ≡ None }
        requires before { node.left ≡ no_entries }
        requires behind { node.right ≡ no_entries }
        ensures put { OnOk result (self.new ≡ put (node.name, node.account) self.old) }
        ensures err { OnErr result (self.new ≡ self.old) }
    {
        // A tree of this level has 2 ^ 255 - 1 accounts or more, for which no memory is large enough.
        if self.tree.level() == u8::MAX {
            return Err(Memory);
        }
        self.tree.insert(Box::new(self.alloc, node)?);
        Ok(())
    }

    /// The accounts after one more row, whose DID was touched, where it names one. Takes no memory.
    pub fn apply(&mut self, mut row: Row)
        requires { did_of_row row ≢ [] → has_room self.old (did_of_row row) ≡ true }
        ensures entries { (name : List ℕ)
            → entry self.new name ≡ entry_after name (entry self.old name) row }
        ensures room { (name : List ℕ) → has_room self.new name ≡ has_room self.old name }
    {
        let did = take_did(self.alloc, &mut row);
        if did.is_empty() {
            return;
        }
        let true = self.tree.follow_known(did.as_bytes(), &mut row) else {
            unreachable!()
        };
    }

    /// The accounts after one more row, whose DID need not have been touched, where it names one: `touch` and `apply` in one, with
    /// one search. What they keep is taken out of the row. Where memory runs out, they stay as they were.
    pub fn learn(&mut self, row: &mut Row) -> Result<(), Memory>
        ensures ok { OnOk result ((name : List ℕ)
            → entry self.new name ≡ entry_after name (entry self.old name) row.old) }
        ensures err { OnErr result (self.new ≡ self.old) }
        ensures host { host_in row.new ≡ host_in row.old }
        ensures host_seq { host_seq_in row.new ≡ host_seq_in row.old }
    {
        let name = take_did(self.alloc, row);
        if name.is_empty() {
            return Ok(());
        }
        if self.tree.follow_known(name.as_bytes(), row) {
            return Ok(());
        }
        let mut node = TreeNode::unnamed(self.alloc, name);
        node.account.follow(row);
        self.put(node)
    }

    /// The next DID that a row names, in the order of bytes, with its account.
    pub fn next_after(&self, did: &str) -> Option<(&str, &Account)>
        ensures found { IfSome result (λ x. entry self.now x.0.now ≡ Some (state_of x.1.now)) }
        ensures above { IfSome result (λ x. is_before did.now x.0.now ≡ true) }
        ensures least { IfSome result (λ x. (name : List ℕ) → is_before did.now name ≡ true
            → is_before name x.0.now ≡ true → entry self.now name ≡ None) }
        ensures none { result ≡ None → (name : List ℕ) → is_before did.now name ≡ true
            → entry self.now name ≡ None }
    {
        self.tree.next_after(did.as_bytes())
    }
}
