//! Rows on the journal's rows, the state and decisions, on logs and disks, on the store, and on requests, replies and lines of
//! operations: each file of `data/` against what the libraries answer. The words of a run name the files that it compares;
//! without words it compares all.
#![tactic(auto)]

mod answers;
mod decisions;
mod disks;
mod journals;
mod judges;
mod queries;
mod runs;
mod sessions;
mod setup;
mod states;
mod steps;

use relay_core::Core;
use std::mem;
use std::process::ExitCode;
use vector_lines::{Case, Subject, run};

const FILES: [&str; 31] = [
    "bodies",
    "own_bodies",
    "accounts",
    "folds",
    "account_states",
    "orders",
    "decisions",
    "own_decisions",
    "premises",
    "log_bytes",
    "picks",
    "appends",
    "builds",
    "worst",
    "days",
    "histories",
    "judging",
    "limits",
    "groups",
    "clocks",
    "repositories",
    "openings",
    "readings",
    "request_lines",
    "parameters",
    "lines",
    "own_lines",
    "queries",
    "requests",
    "own_query_runs",
    "own_line_runs",
];

// The states behind the journals of two files, which requests are answered by, and the logs of two that are run on.
#[derive(Drop)]
struct Store<'a> {
    rt: &'a HostRuntime,
    journal: &'a Core,
    carried: &'a Core,
    query_log: &'a [u8],
    line_log: &'a [u8],
}

impl Subject for Store<'_> {
    fn answer(&self, file: &str, case: &mut Case<'_>) {
        match file {
            "bodies" | "own_bodies" => journals::body(case),
            "accounts" | "folds" => states::folded(case),
            "account_states" => states::account(case),
            "orders" => states::order(case),
            "decisions" | "own_decisions" | "premises" => decisions::decision(case),
            "request_lines" => queries::request_line_of(case),
            "parameters" => queries::parameters(case),
            "lines" | "own_lines" => queries::lines(case),
            "queries" => queries::reply(case, self.journal),
            "requests" => queries::reply(case, self.carried),
            "own_query_runs" => runs::query_run(case, self.query_log),
            "own_line_runs" => runs::lines_run(case, self.line_log),
            _ => on_disks(self.rt, file, case),
        }
    }
}

// The files on disks and on stores.
fn on_disks(rt: &HostRuntime, file: &str, case: &mut Case<'_>) {
    match file {
        "worst" => disks::worst(case),
        "log_bytes" => disks::log(rt, case),
        "picks" => disks::picked(rt, case),
        "appends" => disks::appended(rt, case),
        "builds" => disks::built(rt, case),
        _ => sessions::session(rt, case),
    }
}

fn main(rt: HostRuntime) -> ExitCode {
    let mut journal = Core::new(rt.alloc());
    let mut carried = Core::new(rt.alloc());
    journals::follow_file(&rt, "journal.txt", &mut journal);
    journals::follow_file(&rt, "accounts_of_requests.txt", &mut carried);
    let end = compared(&rt, &journal, &carried);
    mem::drop(journal);
    mem::drop(carried);
    end
}

fn compared(rt: &HostRuntime, journal: &Core, carried: &Core) -> ExitCode {
    let query_log = runs::log_of_file(rt, "journal.txt");
    let line_log = runs::log_of_file(rt, "own_commits.txt");
    let store = Store {
        rt,
        journal,
        carried,
        query_log: query_log.as_slice(),
        line_log: line_log.as_slice(),
    };
    run(rt, &FILES, &store)
}
