//! The accounts of a history.

ghost use Rattle.std.specs.Prelude.{◌≡◌, ◌<◌, ◌≤◌, ◌^◌, [], None, is_some, length, map, OnOk, IfOk};
ghost use Rattle.mst_list.specs.Edits.{AreFormedOps};
ghost use Rattle.mst_list.specs.Lists.{KeysOnly};
ghost use Rattle.mst_list.specs.Maps.{edited};
ghost use Rattle.relay_gen.specs.Covers.{blocks_given};
ghost use Rattle.relay_gen.specs.Messages.{car_with};
ghost use Rattle.relay_gen.specs.Records.{item_of, op_of};
ghost use Rattle.relay_gen.specs.States.{CanPlay, after_commit, commit_message, turned_of};

use crate::covering::{cover, covered_paths};
use crate::messages::{Stated, commit_object, message};
use crate::past::Past;
use crate::records::{Change, Record, put_all};
use crate::settling::settled;
use at_car::{Blocks, write};
use at_cid::{Memory, Octets, cid_of};
use at_syntax::Tid;
use mst_list::{Op, OpList};
use mst_undo::undo;
use mst_view::StubTree;
use std::alloc::Global;
use std::marker::Model;
use std::mem;

/// An account: its records, with their tree, and its last commit.
#[derive(Drop)]
pub(crate) struct Account {
    records: Vec<Record>,
    tree: StubTree,
    past: Option<Past>,
}

impl Model for Account {
    ghost use Rattle.std.specs.Prelude.{◌≡◌, map};
    ghost use Rattle.relay_gen.specs.Records.{item_of};
    ghost use Rattle.relay_gen.specs.States.{Repository};

    ghost Value = { Repository };

    ghost view = { λ a. record { map = map item_of a.records.items; past = a.past } };

    ghost invariant = { λ a. a.tree ≡ map item_of a.records.items };
}

/// The operations that undo the changes: the last one first, each turned round.
fn turned(alloc: Global, changes: &[Change]) -> Result<OpList, Memory>
    requires formed { AreFormedOps (map op_of changes.now) }
    requires few { length changes.now ≤ 4 }
    ensures { IfOk result (λ ops. ops ≡ turned_of (map op_of changes.now)) }
{
    let mut ops = OpList::new(alloc);
    let mut left = changes.len();
    while left > 0 {
        left -= 1;
        let change = &changes[left];
        ops.push(Op {
            key: Octets::from_slice(alloc, change.path.as_bytes())?,
            was: change.now,
            now: change.was,
        })?;
    }
    Ok(ops)
}

/// The tree after the changes, each node of which knows its link.
fn changed(alloc: Global, tree: StubTree, changes: &[Change]) -> Result<StubTree, Memory>
    requires keys_only { KeysOnly tree }
    requires can { CanPlay tree (map op_of changes.now) }
    ensures { IfOk result (λ left. left ≡ edited tree (map op_of changes.now)) }
{
    let ops = turned(alloc, changes)?;
    match undo(alloc, tree, &ops) {
        Ok(left) => settled(alloc, left),
        // The operations can be undone, so nothing but memory ran out.
        Err(_) => Err(Memory),
    }
}

/// The CAR of a commit object and of the blocks of the tree that cover the changes, and the tree.
fn car(
    alloc: Global,
    tree: StubTree,
    records: &[Record],
    changes: &[Change],
    object: &[u8],
) -> Result<(StubTree, Octets), Memory>
    requires { tree ≡ map item_of records.now }
    ensures tree { IfOk result (λ p. p.0 ≡ tree) }
    ensures car { IfOk result (λ p. p.1
        ≡ car_with object.now (blocks_given tree (map op_of changes.now))) }
{
    let commit = cid_of(object);
    let mut blocks = Blocks::new(alloc);
    blocks.put(commit, object)?;
    let top = tree.into_top();
    let paths = covered_paths(alloc, records, changes)?;
    cover(alloc, records, &top, paths.as_slice(), &mut blocks)?;
    let car = write(alloc, &commit, &blocks)?;
    Ok((StubTree::from_top(top), car))
}

impl Account {
    /// An account without a commit.
    pub fn new(alloc: Global) -> Account
        ensures { result ≡ record { map = []; past = None } }
    {
        Account {
            records: Vec::new(alloc),
            tree: StubTree::from_top(None),
            past: None,
        }
    }

    /// The records, in order.
    pub fn records(&self) -> &[Record]
        ensures { map item_of result.now ≡ self.now.map }
    {
        self.records.as_slice()
    }

    /// Whether there is a commit.
    pub fn has_commit(&self) -> bool
        ensures { result ≡ is_some self.now.past }
    {
        self.past.is_some()
    }

    /// Commits changes, and gives the message that says so.
    pub fn commit(
        &mut self,
        alloc: Global,
        did: &str,
        seq: u64,
        rev: Tid,
        changes: &[Change],
    ) -> Result<Octets, Memory>
        requires can { CanPlay self.old.map (map op_of changes.now) }
        requires seq { seq < 2 ^ 63 }
        ensures repository { OnOk result
            (self.new ≡ after_commit rev self.old.map (map op_of changes.now)) }
        ensures message { IfOk result (λ message. message
            ≡ commit_message did.now seq rev self.old.past (map op_of changes.now)
            (edited self.old.map (map op_of changes.now))) }
    {
        let tree = mem::replace(&mut self.tree, StubTree::from_top(None));
        let records = mem::replace(&mut self.records, Vec::new(alloc));
        let (records, tree) = play(alloc, records, tree, changes)?;
        let data_root = tree.top_link(alloc)?;
        let object = commit_object(alloc, did, rev, &data_root)?;
        let (tree, car) = car(alloc, tree, records.as_slice(), changes, object.as_slice())?;
        let stated = Stated {
            did,
            seq,
            rev,
            past: self.past,
            commit: cid_of(object.as_slice()),
            changes,
            blocks: car.as_slice(),
        };
        let message = message(alloc, &stated)?;
        self.records = records;
        self.tree = tree;
        self.past = Some(Past { rev, data_root });
        Ok(message)
    }
}

/// Records and their tree after the changes.
fn play(
    alloc: Global,
    mut records: Vec<Record>,
    tree: StubTree,
    changes: &[Change],
) -> Result<(Vec<Record>, StubTree), Memory>
    requires same { tree ≡ map item_of records.items }
    requires can { CanPlay tree (map op_of changes.now) }
    ensures records { IfOk result (λ p. map item_of p.0.items
        ≡ edited tree (map op_of changes.now)) }
    ensures tree { IfOk result (λ p. p.1 ≡ edited tree (map op_of changes.now)) }
{
    let tree = changed(alloc, tree, changes)?;
    put_all(&mut records, changes)?;
    Ok((records, tree))
}
