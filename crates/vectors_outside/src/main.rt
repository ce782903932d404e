//! Rows on tapes, guests' targets, tables and panels of authorities, repositories in files, and the streams, doors, wires and
//! feeds of memory: each file of `data/` against what the libraries answer. The words of a run name the files that it compares;
//! without words it compares all.
#![tactic(auto)]

mod guests;
mod judges;
mod repositories;
mod streams;
mod tables;
mod tapes;

use std::process::ExitCode;
use vector_lines::{Case, Subject, run};

const FILES: [&str; 12] = [
    "tapes",
    "own_tapes",
    "targets",
    "tables",
    "panels",
    "files",
    "file_repositories",
    "sources",
    "sinks",
    "feeds",
    "doors",
    "wires",
];

#[derive(Drop)]
struct Outside<'a> {
    rt: &'a HostRuntime,
}

impl Subject for Outside<'_> {
    fn answer(&self, file: &str, case: &mut Case<'_>) {
        match file {
            "tapes" | "own_tapes" => tapes::records(case),
            "targets" => guests::target(case),
            "tables" => tables::answers(case),
            "panels" => judges::panel(case),
            "files" => judges::file(self.rt, case),
            "file_repositories" => repositories::file(self.rt, case),
            "sources" => streams::source(case),
            "sinks" => streams::sink(case),
            "feeds" => streams::feed(case),
            "doors" => guests::door(case),
            "wires" => guests::wire(case),
            _ => case.say("no such file"),
        }
    }
}

fn main(rt: HostRuntime) -> ExitCode {
    run(&rt, &FILES, &Outside { rt: &rt })
}
