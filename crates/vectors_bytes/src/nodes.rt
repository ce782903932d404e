//! Heights of keys, and the nodes of trees.

use mst_list::{KeyBytes, height};
use mst_node::{Entries, Entry, Node, encode_node, read_node, write_node};
use vector_lines::Case;

/// Answers `KEY = HEIGHT`.
pub fn height_of(case: &mut Case<'_>) {
    let key = case.bytes(" ");
    case.say_number(u64::from(height(key.as_slice())));
}

/// Answers `BLOCK = ok left LINK entries KEY>VALUE>RIGHT ..`, where the node is written as this block again, or the fault.
pub fn node(case: &mut Case<'_>) {
    let block = case.bytes(" ");
    if let Some(node) = case.gave(read_node(case.alloc, block.as_slice())) {
        case.say("ok left ");
        case.say_link_or_none(node.left.as_ref());
        case.say(" entries");
        case.say(if node.entries.is_empty() { " -" } else { "" });
        for entry in node.entries.as_slice() {
            say_entry(case, entry);
        }
        let again = encode_node(case.alloc, &node.left, node.entries.as_slice());
        if let Some(again) = case.gave(again) {
            case.must(again.as_slice() == block.as_slice(), ", written otherwise");
        }
    }
}

fn say_entry(case: &mut Case<'_>, entry: &Entry) {
    case.say(" ");
    case.say_bytes(entry.key.as_slice());
    case.say(">");
    case.say_link(&entry.value);
    case.say(">");
    case.say_link_or_none(entry.right.as_ref());
}

/// Answers whether parts, worded so, make a node, the block of which reads as a node again.
pub fn parts<'a>(case: &mut Case<'a>) {
    case.part(" ");
    let left = case.link_or_none(" entries ");
    let mut entries = Entries::new(case.alloc);
    let words = case.part(" ; ");
    if words != "-" {
        for word in words.split(' ') {
            add_entry(case, &mut entries, word);
        }
    }
    match Node::new(left, entries) {
        Some(node) => written(case, &node),
        None => case.say("no node"),
    }
}

// Adds the entry of a word `KEY>VALUE>RIGHT`.
fn add_entry<'a>(case: &mut Case<'a>, entries: &mut Entries, word: &'a str) {
    let rest = case.turn(word);
    let key = case.octets(">");
    let value = case.link(">");
    let right = case.link_or_none(">");
    case.back(rest);
    if let Some(key) = case.gave(KeyBytes::of(&key)) {
        case.did(entries.push(Entry { key, value, right }));
    }
}

fn written(case: &mut Case<'_>, node: &Node) {
    if let Some(block) = case.gave(write_node(case.alloc, node)) {
        if case.gave(read_node(case.alloc, block.as_slice())).is_some() {
            case.say("a node");
        }
    }
}
