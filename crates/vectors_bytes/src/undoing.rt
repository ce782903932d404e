//! Operations that are played on maps, and undone on lists with holes and on trees.

use crate::blocks::blocks_of;
use crate::trees::{is_node_link, say_view_fault};
use mst_list::{Item, ItemList, KeyBytes, Op, OpList, guarded, play, undo_list};
use mst_undo::{are_apart, undo};
use mst_view::{StubTree, view};
use vector_lines::Case;

/// The most operations of a commit.
const MOST_OPERATIONS: usize = 200;

// Reads the next part, items `K:KEY:LINK` and `H:LAYER:LINK`, of which `-` is none. Another item is left out.
fn list_of(case: &mut Case<'_>) -> ItemList {
    let mut list = ItemList::new(case.alloc);
    let words = case.part(" ; ");
    if words != "-" {
        for word in words.split(' ') {
            let rest = case.turn(word);
            if let Some(item) = item_of(case) {
                if item.is_formed() {
                    case.did(list.push(item));
                }
            }
            case.back(rest);
        }
    }
    list
}

fn item_of(case: &mut Case<'_>) -> Option<Item> {
    if case.part(":") == "H" {
        let layer = u8::try_from(case.number(":")).unwrap_or(0);
        return Some(Item::Hole(layer, case.link(":")));
    }
    let key = case.octets(":");
    let value = case.link(":");
    match case.gave(KeyBytes::of(&key)) {
        Some(key) => Some(Item::Key(key, value)),
        None => None,
    }
}

// Reads the next part, operations `KEY:WAS>NOW`, of which `-` is none. Another operation is left out.
fn ops_of(case: &mut Case<'_>) -> OpList {
    let mut ops = OpList::new(case.alloc);
    let words = case.part(" ; ");
    if words != "-" {
        for word in words.split(' ') {
            let rest = case.turn(word);
            let op = op_of(case);
            case.back(rest);
            if op.is_formed() && ops.len() <= MOST_OPERATIONS {
                case.did(ops.push(op));
            }
        }
    }
    ops
}

fn op_of(case: &mut Case<'_>) -> Op {
    Op {
        key: case.octets(":"),
        was: case.link_or_none(">"),
        now: case.link_or_none(">"),
    }
}

/// Answers items, as a row words them.
pub fn say_items(case: &mut Case<'_>, items: &[Item]) {
    if items.is_empty() {
        case.say("-");
    }
    for (i, item) in items.iter().enumerate() {
        case.say(if i > 0 { " " } else { "" });
        say_item(case, item);
    }
}

fn say_item(case: &mut Case<'_>, item: &Item) {
    match item {
        Item::Key(key, value) => {
            case.say("K:");
            case.say_bytes(key.as_slice());
            case.say(":");
            case.say_link(value);
        }
        Item::Hole(layer, link) => {
            case.say("H:");
            case.say_number(u64::from(*layer));
            case.say(":");
            case.say_link(link);
        }
    }
}

/// Answers `MAP ; OPERATIONS = ok MAP, or Clash(i)`.
pub fn played(case: &mut Case<'_>) {
    let map = list_of(case);
    let ops = ops_of(case);
    if let Some(played) = case.gave(play(case.alloc, &map, &ops)) {
        case.say("ok ");
        say_items(case, played.as_slice());
    }
}

/// Answers `ITEMS ; OPERATIONS = ok ITEMS, or the fault, and then guarded yes or no`.
pub fn undone(case: &mut Case<'_>) {
    let list = list_of(case);
    let ops = ops_of(case);
    if let Some(left) = case.gave(undo_list(case.alloc, &list, &ops)) {
        case.say("ok ");
        say_items(case, left.as_slice());
    }
    case.say(" guarded ");
    case.say_yes(guarded(&list, &ops));
}

/// Answers `ROOT ; BLOCKS ; OPERATIONS = ok root LINK, or the fault`.
pub fn undone_tree(case: &mut Case<'_>) {
    let root = case.link(" ; ");
    let blocks = blocks_of(case, ",");
    let ops = ops_of(case);
    if is_node_link(&root) {
        match view(case.alloc, &blocks, &root) {
            Ok(tree) => undone_of(case, tree, &ops),
            Err(fault) => say_view_fault(case, fault),
        }
    }
}

fn undone_of(case: &mut Case<'_>, tree: StubTree, ops: &OpList) {
    if are_apart(ops) {
        if let Some(left) = case.gave(undo(case.alloc, tree, ops)) {
            if let Some(root) = case.gave(left.top_link(case.alloc)) {
                case.say("ok root ");
                case.say_link(&root);
            }
        }
    }
}
