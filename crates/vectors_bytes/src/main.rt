//! Rows on links, DAG-CBOR, names, CARs, commit objects and frames, on nodes and trees, and on commits and repositories that are
//! checked: each file of `data/` against what the libraries answer. The words of a run name the files that it compares; without
//! words it compares all.
#![tactic(auto)]

mod blocks;
mod commits;
mod events;
mod items;
mod links;
mod lists;
mod mirrors;
mod names;
mod nodes;
mod pieces;
mod repositories;
mod trees;
mod undoing;
mod verdicts;

use std::process::ExitCode;
use vector_lines::{Case, Subject, run};

const FILES: [&str; 29] = [
    "links",
    "own_links",
    "own_lists",
    "cbor_faults",
    "own_items",
    "own_pieces",
    "names",
    "own_names",
    "car_faults",
    "own_cars",
    "commit_objects",
    "frames",
    "own_frames",
    "own_numbers",
    "own_events",
    "refusals",
    "heights",
    "nodes",
    "parts",
    "views",
    "play",
    "undo",
    "commits",
    "changes",
    "orders",
    "trees",
    "repositories",
    "syncs",
    "mirrors",
];

struct Bytes;

impl Subject for Bytes {
    fn answer(&self, file: &str, case: &mut Case<'_>) {
        match file {
            "links" | "own_links" => links::links(case),
            "own_lists" => lists::lists(case),
            "cbor_faults" | "own_items" => items::item(case),
            "own_pieces" => pieces::pieces(case),
            "names" | "own_names" => names::names(case),
            "car_faults" => blocks::read_car(case),
            "own_cars" => blocks::write_car(case),
            "commit_objects" => commits::commit(case),
            _ => of_events(file, case),
        }
    }
}

// The files on messages.
fn of_events(file: &str, case: &mut Case<'_>) {
    match file {
        "frames" | "own_frames" => events::frame(case),
        "own_numbers" => events::renumbered(case),
        "own_events" => events::own_event(case),
        "refusals" => events::refusal(case),
        "changes" | "orders" | "trees" => verdicts::followed(case),
        "repositories" => repositories::repository(case),
        "syncs" => repositories::sync(case),
        "mirrors" => mirrors::mirrored(case),
        _ => of_trees(file, case),
    }
}

// The files on trees.
fn of_trees(file: &str, case: &mut Case<'_>) {
    match file {
        "heights" => nodes::height_of(case),
        "nodes" => nodes::node(case),
        "parts" => nodes::parts(case),
        "views" => trees::viewed(case),
        "play" => undoing::played(case),
        "undo" => undoing::undone(case),
        "commits" => undoing::undone_tree(case),
        _ => case.say("no such file"),
    }
}

fn main(rt: HostRuntime) -> ExitCode {
    run(&rt, &FILES, &Bytes)
}
