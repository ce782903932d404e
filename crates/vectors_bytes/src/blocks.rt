//! CARs that are read, at once and in pieces, and written.

use at_car::{Blocks, Car, CarFault, Kept, Scan, read, write};
use at_cid::{Cid, cid_of, parse_binary};
use mst_whole::NodeSieve;
use std::alloc::Global;
use vector_lines::Case;

/// So many bytes of a CAR come at once.
const PIECE: usize = 7;

/// Answers `CAR = ok roots LINKS blocks LINKS`, in ascending order, or the fault, where the same is kept of it when it comes in
/// pieces.
pub fn read_car(case: &mut Case<'_>) {
    let given = case.bytes(" ");
    let whole = read(case.alloc, given.as_slice());
    let kept = kept_of(case.alloc, given.as_slice());
    case.must(is_same(&whole, &kept), "otherwise in pieces ");
    if let Some(car) = case.gave(whole) {
        say_car(case, &car);
    }
}

/// What is kept of a CAR that comes in pieces.
pub fn kept_of(alloc: Global, car: &[u8]) -> Result<Kept, CarFault> {
    let mut scan = Scan::new(alloc, NodeSieve::new(alloc));
    for piece in car.chunks(PIECE) {
        if scan.push(piece).is_err() {
            return Err(CarFault::Memory);
        }
    }
    scan.finish()
}

fn is_same(whole: &Result<Car, CarFault>, kept: &Result<Kept, CarFault>) -> bool {
    match (whole, kept) {
        (Ok(car), Ok(kept)) => {
            kept.nodes.len().saturating_add(kept.others.len()) == car.blocks.len()
        }
        (Err(one), Err(other)) => one == other,
        _ => false,
    }
}

fn say_car(case: &mut Case<'_>, car: &Car) {
    case.say("ok roots ");
    case.say_links(car.roots.as_slice(), ",");
    case.say(" blocks ");
    if car.blocks.len() == 0 {
        case.say("-");
    }
    for (i, (link, _)) in car.blocks.iter().enumerate() {
        case.say(if i > 0 { "," } else { "" });
        case.say_link(link);
    }
}

/// Answers `ROOT KIND:BLOCK .. = CAR`.
pub fn write_car(case: &mut Case<'_>) {
    let binary = case.bytes(" ");
    let blocks = blocks_of(case, " ");
    if let Some(root) = parse_binary(binary.as_slice()) {
        if let Some(car) = case.gave(write(case.alloc, &root, &blocks)) {
            case.say_bytes(car.as_slice());
        }
    }
}

/// The blocks of the rest of a row, or up to ` ; `, with a mark between two, `-` being none. Each is put under its link of kind
/// Node, or of kind Raw behind `Raw:`.
pub fn blocks_of(case: &mut Case<'_>, mark: &str) -> Blocks {
    let mut blocks = Blocks::new(case.alloc);
    let text = case.part(" ; ");
    if text == "-" {
        return blocks;
    }
    for word in text.split(mark) {
        let rest = case.turn(word);
        let is_raw = word.starts_with("Raw:");
        if is_raw || word.starts_with("Node:") {
            case.part(":");
        }
        let block = case.bytes(":");
        case.back(rest);
        put(case, &mut blocks, is_raw, block.as_slice());
    }
    blocks
}

// The link of a block of kind Raw, or else Node.
fn link_of(block: &[u8], is_raw: bool) -> Option<Cid> {
    let mut binary = *cid_of(block).as_bytes();
    if is_raw {
        binary[1] = 0x55;
    }
    parse_binary(&binary)
}

fn put(case: &mut Case<'_>, blocks: &mut Blocks, is_raw: bool, block: &[u8]) {
    if let Some(link) = link_of(block, is_raw) {
        if link.is_of(block) {
            case.did(blocks.put(link, block));
        }
    }
}
