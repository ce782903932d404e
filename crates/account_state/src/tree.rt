//! Accounts in a search tree.

ghost use Rattle.std.specs.Prelude.{◌≡◌, ◌<◌, None, true, false, option_map};
ghost use Rattle.std.specs.Option.{is_some};
ghost use Rattle.std.specs.Cmp.Lexicographic.{slice_cmp};
ghost use Rattle.std.specs.Ordering.{nat_cmp};
ghost use Rattle.relay_row.specs.Folds.{host_in, host_seq_in};
ghost use Rattle.account_state.specs.Entries.{IsSorted, Follows, found_entry, put, next_in};
ghost use Rattle.account_state.specs.Shape.{no_entries, IsLow, Settles, IsAsLow};
ghost use Rattle.account_state.specs.Tree.{shape, IsBalanced};
ghost use Rattle.account_state.specs.State.{known};

use crate::account::Account;
use crate::balancing::{skew, split};
use at_cid::{Words, compare};
use relay_row::Row;
use std::alloc::Global;
use std::cmp::Ordering;
use std::marker::Model;
use std::mem;

/// Accounts by their DIDs, each in one box with its DID and with what stands before it and behind it.
///
/// The levels are those of an AA tree, which keep it low: a tree of n accounts is at most 2 log2(n + 1) deep, whatever
/// DIDs it took and in whatever order, and no call recurses deeper.
#[cycle(tree)]
#[derive(Drop)]
pub(crate) struct Tree {
    pub(crate) link: Link,
}

#[cycle(tree)]
#[derive(Drop)]
pub(crate) enum Link {
    Empty,
    // The number is the node's level.
    Fork(u8, Box<TreeNode>),
}

#[cycle(tree)]
#[derive(Drop)]
pub(crate) struct TreeNode {
    pub(crate) left: Tree,
    pub(crate) right: Tree,
    pub(crate) name: Words,
    pub(crate) account: Account,
}

impl Model for Tree {
    ghost use Rattle.account_state.specs.Shape.{Shape};

    ghost Value = { Shape };

    ghost use Rattle.account_state.specs.Tree.{shape, IsBalanced};

    ghost view = { λ a. shape a.link };

    ghost invariant = { λ a. IsBalanced a.link };

    ghost size = { λ tree. tree.depth };

    ghost use Rattle.account_state.specs.Falls.{depth_within};

    ghost size_decreases = { λ a h. depth_within a.link };
}

// How two DIDs compare.
#[tactic(auto, unfolding(at_cid::specs::Order::key_cmp))]
#[inline]
fn order_of(did: &[u8], other: &[u8]) -> Ordering
    ensures { result ≡ slice_cmp nat_cmp did.now other.now }
{
    compare(did, other)
}

impl TreeNode {
    /// Room for an account that no row names.
    pub(crate) fn unnamed(alloc: Global, name: Words) -> TreeNode
        ensures left { result.left ≡ no_entries }
        ensures right { result.right ≡ no_entries }
        ensures name { result.name ≡ name }
        ensures account { known result.account ≡ None }
    {
        TreeNode {
            left: Tree::new(),
            right: Tree::new(),
            name,
            account: Account::unnamed(alloc),
        }
    }
}

impl Tree {
    /// No account.
    pub(crate) fn new() -> Tree
        ensures { result ≡ no_entries }
    {
        Tree { link: Link::Empty }
    }

    /// The first node, with what stands before it and behind it.
    pub(crate) fn open(self) -> Link
        ensures shape { shape result ≡ self }
        ensures balanced { IsBalanced result }
    {
        self.link
    }

    /// The tree of a first node.
    pub(crate) fn close(link: Link) -> Tree
        requires { IsBalanced link }
        ensures { result ≡ shape link }
    {
        Tree { link }
    }

    /// The level of the first node, and 0 where there is none.
    pub(crate) fn level(&self) -> u8
        ensures { result ≡ self.now.level }
    {
        match &self.link {
            Link::Empty => 0,
            Link::Fork(level, _) => *level,
        }
    }

    /// The level of what stands behind the first node.
    pub(crate) fn right_level(&self) -> u8
        ensures { result ≡ self.now.right_level }
    {
        match &self.link {
            Link::Empty => 0,
            Link::Fork(_, node) => node.right.level(),
        }
    }

    /// The account of a DID.
    pub(crate) fn get(&self, did: &[u8]) -> Option<&Account>
        requires { IsSorted self.now.entries }
        ensures { option_map (λ account. account.now) result
            ≡ found_entry did.now self.now.entries }
    {
        match &self.link {
            Link::Empty => None,
            Link::Fork(_, node) => match order_of(did, node.name.as_bytes()) {
                Ordering::Less => node.left.get(did),
                Ordering::Equal => Some(&node.account),
                Ordering::Greater => node.right.get(did),
            },
        }
    }

    /// The first account behind a DID that a row names.
    pub(crate) fn next_after(&self, did: &[u8]) -> Option<(&str, &Account)>
        requires { IsSorted self.now.entries }
        ensures { option_map (λ x. (x.0.now, x.1.now)) result ≡ next_in did.now self.now.entries }
    {
        match &self.link {
            Link::Empty => None,
            Link::Fork(_, node) => {
                if !order_of(did, node.name.as_bytes()).is_lt() {
                    return node.right.next_after(did);
                }
                match node.left.next_after(did) {
                    Some(next) => Some(next),
                    None if node.account.is_named() => Some((node.name.as_str(), &node.account)),
                    None => node.right.next_after(did),
                }
            }
        }
    }

    /// Whether there is room for a DID. Where there is, its account follows a row, which is left without what it said of
    /// it. Takes no memory.
    pub(crate) fn follow_known(&mut self, did: &[u8], row: &mut Row) -> bool
        requires sorted { IsSorted self.old.entries }
        ensures known { result ≡ is_some (found_entry did.now self.old.entries) }
        ensures entries { result ≡ true
            → Follows did.now row.old self.old.entries self.new.entries }
        ensures tree { result ≡ false → self.new ≡ self.old }
        ensures row { result ≡ false → row.new ≡ row.old }
        ensures host { host_in row.new ≡ host_in row.old }
        ensures host_seq { host_seq_in row.new ≡ host_seq_in row.old }
        ensures low { IsLow self.new }
        ensures kept { IsAsLow self.old self.new }
    {
        match &mut self.link {
            Link::Empty => false,
            Link::Fork(_, node) => {
                let order = order_of(did, node.name.as_bytes());
                match order {
                    Ordering::Less => node.left.follow_known(did, row),
                    Ordering::Equal => {
                        node.account.follow(row);
                        true
                    }
                    Ordering::Greater => node.right.follow_known(did, row),
                }
            }
        }
    }

    /// Puts a node that has nothing before it or behind it in its place. Takes no memory.
    pub(crate) fn insert(&mut self, new: Box<TreeNode>)
        requires sorted { IsSorted self.old.entries }
        requires before { new.value.left ≡ no_entries }
        requires behind { new.value.right ≡ no_entries }
        requires level { self.old.level < 255 }
        ensures entries { self.new.entries
            ≡ put (new.value.name, new.value.account) self.old.entries }
        ensures low { IsLow self.new }
        ensures level { Settles self.old.level self.old.right_level self.new }
    {
        let Link::Fork(level, mut node) = mem::replace(self, Tree::new()).open() else {
            *self = Tree::close(Link::Fork(1, new));
            return;
        };
        if order_of(new.name.as_bytes(), node.name.as_bytes()).is_lt() {
            node.left.insert(new);
            *self = Tree::close(split(level, skew(level, node)));
        } else {
            node.right.insert(new);
            *self = Tree::close(split(level, node));
        }
    }
}
