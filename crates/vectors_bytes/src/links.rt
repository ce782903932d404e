//! Links: `of` a block, from `binary`, from `text`, the `order` of two, and whether one `is` of a block, with its digest.

use at_cid::{cid_of, parse_binary, parse_text};
use vector_lines::Case;

/// Answers a row of links.
pub fn links(case: &mut Case<'_>) {
    match case.part(" ") {
        "of" => of_block(case),
        "binary" => from_binary(case),
        "text" => from_text(case),
        "order" => order(case),
        _ => is_of(case),
    }
}

fn of_block(case: &mut Case<'_>) {
    let block = case.bytes(" ");
    let link = cid_of(block.as_slice());
    case.say_bytes(link.as_bytes());
    case.say(" ");
    case.say_link(&link);
}

fn from_binary(case: &mut Case<'_>) {
    let binary = case.bytes(" ");
    match parse_binary(binary.as_slice()) {
        Some(link) => {
            case.say_named(&link.kind());
            case.say(" ");
            case.say_link(&link);
        }
        None => case.say("no"),
    }
}

fn from_text(case: &mut Case<'_>) {
    let letters = case.part(" ");
    match parse_text(if letters == "-" {
        b""
    } else {
        letters.as_bytes()
    }) {
        Some(link) => case.say_bytes(link.as_bytes()),
        None => case.say("no"),
    }
}

fn order(case: &mut Case<'_>) {
    let left = case.link(" ");
    let right = case.link(" ");
    case.say_named(&left.cmp(&right));
}

fn is_of(case: &mut Case<'_>) {
    let link = case.link(" ");
    let block = case.bytes(" ");
    case.say_yes(link.is_of(block.as_slice()));
    case.say(" ");
    case.say_bytes(link.digest());
}
