//! The files of a program, one after another.

use crate::case::Case;
use crate::runs::expanded;
use anyhow::{Context, Result, bail};
use std::process::ExitCode;
use std::{env, fs};

/// The rows that differ of one file, of which so many are printed.
const PRINTED: u64 = 5;

/// What answers the rows of a program's files.
pub trait Subject {
    /// Reads a row of the file of that name, and answers it as the file words it.
    fn answer(&self, file: &str, case: &mut Case<'_>);
}

/// Compares the rows of the files `NAME.txt` with what the subject answers: of those that the program's arguments name, or of
/// all where there are none. Prints the first rows that differ of each file, with their lines, and then how many rows there are.
/// Ends with 0 where every row is as it must be, with 1 where some differ, and with 2 where the run couldn't be finished, the
/// cause then being printed as an error.
pub fn run<S: Subject>(rt: &HostRuntime, names: &[&str], subject: &S) -> ExitCode {
    match compared(rt, names, subject) {
        Ok(differing) => ExitCode::from(u8::from(differing != 0)),
        Err(error) => {
            let _ = eprintln!(rt; "{error}");
            ExitCode::from(2)
        }
    }
}

// How many rows differ of the files that are asked for.
fn compared<S: Subject>(rt: &HostRuntime, names: &[&str], subject: &S) -> Result<u64> {
    let asked = asked(rt)?;
    let mut differing = 0u64;
    for name in names {
        if asked.is_empty() || asked.iter().any(|it| it.as_str() == *name) {
            differing = differing.saturating_add(differing_in(rt, name, subject)?);
        }
    }
    Ok(differing)
}

// The files that the program's arguments name.
fn asked(rt: &HostRuntime) -> Result<Vec<String>> {
    let mut given = env::args(rt)?;
    let _program = given.next();
    let mut names = Vec::new(rt.alloc());
    for name in given {
        names.push(name)?;
    }
    Ok(names)
}

// How many rows of a file differ.
fn differing_in<S: Subject>(rt: &HostRuntime, name: &str, subject: &S) -> Result<u64> {
    let path = format!(in rt.alloc(); "{name}.txt")?;
    let text = fs::read_to_string(rt, path.as_str())?;
    let mut rows = 0u64;
    let mut differing = 0u64;
    for (index, line) in text.lines().enumerate() {
        if line.is_empty() || line.starts_with('#') {
            continue;
        }
        rows = rows.saturating_add(1);
        if let Some(difference) = difference(rt, name, line, subject)? {
            differing = differing.saturating_add(1);
            if differing <= PRINTED {
                let place = index.saturating_add(1);
                println!(rt; "{path}:{place}: {difference}")?;
            }
        }
    }
    println!(rt; "{name} {rows} rows")?;
    Ok(differing)
}

// How the row differs from what the subject answers. An answer that names the fault of running out of memory is no answer.
fn difference<S: Subject>(
    rt: &HostRuntime,
    name: &str,
    line: &str,
    subject: &S,
) -> Result<Option<String>> {
    let row = expanded(rt.alloc(), line)?;
    let (input, wanted) = row.split_once(" = ").context("a row has an answer")?;
    let mut case = Case::new(rt.alloc(), input);
    subject.answer(name, &mut case);
    let got = case.end().context("a row of other parts, or no memory")?;
    if got.as_str() == wanted {
        return Ok(None);
    }
    if got.contains("Memory") {
        bail!("out of memory");
    }
    Ok(Some(format!(in rt.alloc(); "wanted {wanted}, got {got}")?))
}
