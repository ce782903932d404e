//! The words of a run, as a command.
ghost use Rattle.std.specs.Prelude.{◌≡◌, [], ◌∷◌, IfOk, IsErrOf, map, string_bytes};
ghost use Rattle.relay_cli.specs.declared.words_fault.WordsFault.{WordsFault};
ghost use Rattle.relay_cli.specs.Commands.{IsEncoded};

use crate::arguments::{collection_from, did_from, host_from, number_from, time_from};
use crate::words_fault::WordsFault;
use at_cid::{NUMBERS, Words};
use os_edge::Access;
use std::alloc::Global;

/// The greatest count of messages, guests or requests.
pub const MOST: u64 = 1_000_000;

/// The greatest count of messages of a trial.
pub const MOST_TRIED: u64 = 100_000;

/// What is to be done.
#[derive(Debug, Drop)]
pub enum Command {
    /// Checks one message by itself.
    Check,
    /// Takes the messages of a tape.
    Ingest,
    /// Takes messages of this host's feed, at most this number.
    Follow(Words, u64),
    /// Writes the messages after this number.
    Replay(u64),
    /// Serves this number of guests.
    Serve(u64),
    /// Prints the account of this DID.
    Account(Words),
    /// Prints the hosts.
    Hosts,
    /// Takes the account of this DID down, at this time.
    Takedown(Words, Words),
    /// Takes that back.
    Restore(Words, Words),
    /// Fetches and checks the repository of this DID, at this time.
    Sync(Words, Words),
    /// Takes the events up to this number out of the journal.
    Cut(u64),
    /// Makes messages from this start, this number of them, and runs them in two merges.
    Trial(u64, u64),
    /// Mirrors the stream on the input.
    Mirror,
    /// Answers this number of requests.
    Query(u64),
    /// Writes the operations after this number as lines of JSON: those on records of this collection, or all.
    Lines(u64, Option<Words>),
}

impl Command {
    /// What the command does with the folder's journal; none where it has no use for one.
    pub fn access(&self) -> Option<Access> {
        match self {
            Command::Check | Command::Trial(_, _) | Command::Mirror => None,
            Command::Replay(_)
            | Command::Serve(_)
            | Command::Account(_)
            | Command::Hosts
            | Command::Query(_)
            | Command::Lines(_, _) => Some(Access::Reading),
            Command::Ingest
            | Command::Follow(_, _)
            | Command::Takedown(_, _)
            | Command::Restore(_, _)
            | Command::Sync(_, _)
            | Command::Cut(_) => Some(Access::Writing),
        }
    }

    /// Whether the command reads the standard input.
    pub fn reads_input(&self) -> bool {
        matches!(self, Command::Check | Command::Ingest | Command::Mirror)
    }
}

/// The command that the words are.
pub fn command_from(alloc: Global, words: &[String]) -> Result<Command, WordsFault>
    ensures encoded { IfOk result (λ command. IsEncoded (map string_bytes words.now) command) }
    ensures none { IsErrOf result WordsFault.NoCommand → (command : Command)
        → IsEncoded (map string_bytes words.now) command → ⊥ }
{
    match words {
        [name] => alone(name.as_str()),
        [name, one] => with_one(alloc, name.as_str(), one.as_str()),
        [name, one, other] => with_two(alloc, name.as_str(), one.as_str(), other.as_str()),
        _ => Err(WordsFault::NoCommand),
    }
}

// A command of one word.
fn alone(name: &str) -> Result<Command, WordsFault>
    ensures made { IfOk result (λ command. IsEncoded (name.now ∷ []) command) }
    ensures none { IsErrOf result WordsFault.NoCommand → (command : Command)
        → IsEncoded (name.now ∷ []) command → ⊥ }
{
    if name == "check" {
        Ok(Command::Check)
    } else if name == "ingest" {
        Ok(Command::Ingest)
    } else if name == "hosts" {
        Ok(Command::Hosts)
    } else if name == "mirror" {
        Ok(Command::Mirror)
    } else {
        Err(WordsFault::NoCommand)
    }
}

// A command with one argument.
fn with_one(alloc: Global, name: &str, one: &str) -> Result<Command, WordsFault>
    ensures made { IfOk result (λ command. IsEncoded (name.now ∷ one.now ∷ []) command) }
    ensures none { IsErrOf result WordsFault.NoCommand → (command : Command)
        → IsEncoded (name.now ∷ one.now ∷ []) command → ⊥ }
{
    if name == "replay" {
        Ok(Command::Replay(number_from(one, 0, NUMBERS - 1)?))
    } else if name == "serve" {
        Ok(Command::Serve(number_from(one, 1, MOST)?))
    } else if name == "account" {
        Ok(Command::Account(did_from(alloc, one)?))
    } else if name == "cut" {
        Ok(Command::Cut(number_from(one, 0, NUMBERS - 1)?))
    } else if name == "query" {
        Ok(Command::Query(number_from(one, 1, MOST)?))
    } else {
        Err(WordsFault::NoCommand)
    }
}

// A command with two arguments.
fn with_two(alloc: Global, name: &str, one: &str, other: &str) -> Result<Command, WordsFault>
    ensures made { IfOk result (λ command.
        IsEncoded (name.now ∷ one.now ∷ other.now ∷ []) command) }
    ensures none { IsErrOf result WordsFault.NoCommand → (command : Command)
        → IsEncoded (name.now ∷ one.now ∷ other.now ∷ []) command → ⊥ }
{
    if name == "follow" {
        let count = number_from(other, 1, MOST)?;
        Ok(Command::Follow(host_from(alloc, one)?, count))
    } else if name == "trial" {
        let start = number_from(one, 0, NUMBERS - 1)?;
        Ok(Command::Trial(start, number_from(other, 1, MOST_TRIED)?))
    } else if name == "takedown" {
        Ok(Command::Takedown(did_from(alloc, one)?, time_from(alloc, other)?))
    } else if name == "restore" {
        Ok(Command::Restore(did_from(alloc, one)?, time_from(alloc, other)?))
    } else if name == "sync" {
        Ok(Command::Sync(did_from(alloc, one)?, time_from(alloc, other)?))
    } else if name == "lines" {
        let cursor = number_from(one, 0, NUMBERS - 1)?;
        Ok(Command::Lines(cursor, collection_from(alloc, other)?))
    } else {
        Err(WordsFault::NoCommand)
    }
}
