//! Which word of a command is wrong.

use crate::arguments::number_from;
use crate::command::{Command, MOST, MOST_TRIED, command_from};
use crate::words_fault::WordsFault;
use at_cid::NUMBERS;
use at_form::LONGEST_SHORT_TEXT;
use at_syntax::{collection_ok, did_ok, host_ok};
use os_edge::Reporter;
use run_base::Status;
use std::fmt::{self, Display, Formatter};

/// What an argument has to be.
#[derive(Clone, Copy)]
enum Argument {
    Number { least: u64, most: u64 },
    Did,
    Host,
    Time,
    Collection,
}

const CURSOR: Argument = Argument::Number {
    least: 0,
    most: NUMBERS - 1,
};

const COUNT: Argument = Argument::Number {
    least: 1,
    most: MOST,
};

impl Argument {
    fn is(self, word: &str) -> bool {
        match self {
            Argument::Number { least, most } => number_from(word, least, most).is_ok(),
            Argument::Did => did_ok(word),
            Argument::Host => host_ok(word),
            Argument::Time => !word.is_empty() && word.len() <= LONGEST_SHORT_TEXT,
            Argument::Collection => word == "-" || collection_ok(word),
        }
    }
}

impl Display for Argument {
    fn fmt<W: fmt::Write>(&self, f: &mut Formatter<W>) -> fmt::Result {
        match *self {
            Argument::Number { least, most } => {
                write!(f, "a number from {least} to {most}, without zeros in front")
            }
            Argument::Did => f.write_str("a DID, such as did:plc:ewvi7nxzyoun6zhxrhs64oiz"),
            Argument::Host => f.write_str("the name of a host, with its port if it has one"),
            Argument::Time => write!(f, "a time of 1 to {LONGEST_SHORT_TEXT} bytes"),
            Argument::Collection => f.write_str("a collection (an NSID), or - for all"),
        }
    }
}

// The arguments of the command of this name, and how it is written, where there is one.
fn form(name: &str) -> Option<(&'static [Argument], &'static str)> {
    let form: (&'static [Argument], &'static str) = match name {
        "check" => (&[], "check"),
        "ingest" => (&[], "ingest"),
        "hosts" => (&[], "hosts"),
        "mirror" => (&[], "mirror"),
        "follow" => (&[Argument::Host, COUNT], "follow HOST N"),
        "replay" => (&[CURSOR], "replay CURSOR"),
        "serve" => (&[COUNT], "serve N"),
        "query" => (&[COUNT], "query N"),
        "account" => (&[Argument::Did], "account DID"),
        "takedown" => (&[Argument::Did, Argument::Time], "takedown DID TIME"),
        "restore" => (&[Argument::Did, Argument::Time], "restore DID TIME"),
        "sync" => (&[Argument::Did, Argument::Time], "sync DID TIME"),
        "cut" => (&[CURSOR], "cut SEQ"),
        "trial" => (
            &[
                CURSOR,
                Argument::Number {
                    least: 1,
                    most: MOST_TRIED,
                },
            ],
            "trial START N",
        ),
        "lines" => (&[CURSOR, Argument::Collection], "lines CURSOR COLL"),
        _ => return None,
    };
    Some(form)
}

// A word that isn't what it has to be.
#[derive(Clone, Copy)]
struct Unexpected<'a> {
    word: &'a str,
    wanted: Argument,
}

impl Display for Unexpected<'_> {
    fn fmt<W: fmt::Write>(&self, f: &mut Formatter<W>) -> fmt::Result {
        let (word, wanted) = (self.word, self.wanted);
        write!(f, "'{word}' is not {wanted}: see relay --help")
    }
}

// A first word that is no command's.
#[derive(Clone, Copy)]
struct Unknown<'a>(&'a str);

impl Display for Unknown<'_> {
    fn fmt<W: fmt::Write>(&self, f: &mut Formatter<W>) -> fmt::Result {
        write!(f, "'{}' is no command: see relay --help", self.0)
    }
}

// Reports which word keeps a name, and what is given with it, from being a command, and what is wanted in its place.
fn explain(reporter: Reporter, name: &str, given: &[String]) {
    let Some((wanted, line)) = form(name) else {
        reporter.report("usage", &Unknown(name));
        return;
    };
    if given.len() != wanted.len() {
        reporter.report("usage: relay DIR", &line);
        return;
    }
    for (word, argument) in given.iter().zip(wanted.iter()) {
        if !argument.is(word.as_str()) {
            let unexpected = Unexpected {
                word: word.as_str(),
                wanted: *argument,
            };
            reporter.report(line, &unexpected);
            return;
        }
    }
}

/// The command that the words are, or the status where they are none, which is reported with the
/// word that is wrong and what is wanted in its place.
pub fn command_or_why(
    reporter: Reporter,
    folder: &str,
    words: &[String],
) -> Result<Command, Status> {
    if folder.is_empty() {
        reporter.report("usage", &"the name of the folder is empty");
        return Err(Status::Usage);
    }
    let [name, given @ ..] = words else {
        reporter.report(folder, &"a command has to follow: see relay --help");
        return Err(Status::Usage);
    };
    match command_from(reporter.rt().alloc(), words) {
        Ok(command) => Ok(command),
        Err(WordsFault::Memory) => Err(Status::Memory),
        Err(WordsFault::NoCommand) => {
            explain(reporter, name.as_str(), given);
            Err(Status::Usage)
        }
    }
}
