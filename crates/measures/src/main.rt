//! What the benchmarks measure by itself, each under a word:
//!
//! - `measures hash` hashes the blocks of its input, each once, and nothing else: what any checker of their commit has to pay.
//! - `measures walk FOLDER DID` checks the repository in the file of a DID, and says what it comes to.
//! - `measures weigh ORDER COUNT` fills a table with so many accounts, in the order `ascending` or `random`.
//! - `measures tape START COUNT` writes the made history of so many messages that is drawn from START as a tape.
//!
//! `measures all` does each of them once, on its input and on a sample.
#![tactic(auto)]

mod hashing;
mod memory;
mod taping;
mod walking;
mod weighing;

use anyhow::{Context, Result, bail};
use hashing::hash;
use std::env;
use std::process::ExitCode;
use taping::write_tape;
use walking::walk;
use weighing::weigh;

fn main(rt: HostRuntime) -> ExitCode {
    match measured(&rt) {
        Ok(()) => ExitCode::SUCCESS,
        Err(error) => {
            let _ = eprintln!(rt; "{error}");
            ExitCode::from(2)
        }
    }
}

fn measured(rt: &HostRuntime) -> Result<()> {
    let mut given = env::args(rt)?;
    let _program = given.next();
    let what = given.next().context("hash, walk, weigh, tape or all")?;
    match what.as_str() {
        "hash" => hash(rt),
        "all" => measure_all(rt),
        _ => {
            let first = given.next().context("a first word")?;
            let second = given.next().context("a second word")?;
            measure(rt, what.as_str(), first.as_str(), second.as_str())
        }
    }
}

fn measure(rt: &HostRuntime, what: &str, first: &str, second: &str) -> Result<()> {
    match what {
        "walk" => walk(rt, first, second),
        "weigh" => weigh(rt, first, second.parse::<u64>()?),
        "tape" => write_tape(rt, first.parse::<u64>()?, second.parse::<u32>()?),
        _ => bail!("hash, walk, weigh, tape or all"),
    }
}

fn measure_all(rt: &HostRuntime) -> Result<()> {
    hash(rt)?;
    walk(rt, ".", "did:plc:ada")?;
    weigh(rt, "random", 1_000)?;
    write_tape(rt, 7, 24)
}
