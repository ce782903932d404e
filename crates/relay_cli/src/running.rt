//! The top call.
ghost use Rattle.std.specs.Prelude.{◌≡◌, ◌⊎◌, map, option_map, string_bytes, false};
ghost use Rattle.relay_step.specs.Around.{around};
ghost use Rattle.relay_cli.specs.Commands.{IsInForm, IsEncoded};
ghost use Rattle.read_run.specs.AtWire.{at_wire};
ghost use Rattle.read_run.specs.AtDoor.{at_door};
ghost use Rattle.relay_cli.specs.Ran.{HasCauses, Ran};
ghost use Rattle.relay_cli.specs.Runs.{faults, is_on_journal, outside_tells, place, place_seen, uses_door, uses_feed, uses_input, uses_repos, uses_wire};
ghost use Rattle.run_base.specs.Place.{IsLater, at_place, faults_of, place_of};

use crate::checking::check;
use crate::command::{Command, command_from};
use crate::words_fault::WordsFault;
use at_authority::Judges;
use at_cid::Words;
use mirror_run::mirror;
use read_run::Reads;
use relay_disk::Disk;
use relay_io::{Clock, Door, Feed, LONGEST_FEED_MESSAGE, Repos, Sink, Source, Wire};
use relay_run::Commands;
use relay_store::LONGEST;
use run_base::{Asked, Outside, Pair, Status};
use std::alloc::Global;
use take_run::Takes;
use trial_run::trial;

/// Does what the words say.
pub fn relay<P: Judges, F: Feed, R: Repos, D: Disk, I: Source, O: Sink, G: Door, C: Clock, W: Wire>(
    alloc: Global,
    words: &[String],
    panel: &mut P,
    feed: &mut F,
    repos: &mut R,
    disk: &mut D,
    other: &mut D,
    input: &mut I,
    out: &mut O,
    door: &mut G,
    clock: &mut C,
    wire: &mut W,
) -> Status
    // What the words say is done, unless memory runs out for the words.
    ensures ran { let tells =
        outside_tells D.tells C.tells R.tells I.tells O.tells F.tells G.tells W.tells in
        let before = place (at_place (D.view disk.old) (D.view other.old)
        (around (P.panel panel.old) (C.moments clock.old) (R.repository repos.old))
        (O.written out.old) (faults (D.view disk.old).faults (D.view other.old).faults
        (R.faults repos.old) (C.faults clock.old) (O.faults out.old) (I.faults input.old)
        (F.faults feed.old) (G.faults door.old) (W.faults wire.old)))
        (I.left input.old) (F.behind feed.old) (F.left feed.old)
        (at_door (G.guests door.old) (G.turns door.old) (G.session_faults door.old))
        (at_wire (W.requests wire.old) (W.exchanges wire.old) (W.send_faults wire.old)) in
        let after = place (at_place (D.view disk.new) (D.view other.new)
        (around (P.panel panel.new) (C.moments clock.new) (R.repository repos.new))
        (O.written out.new) (faults (D.view disk.new).faults (D.view other.new).faults
        (R.faults repos.new) (C.faults clock.new) (O.faults out.new) (I.faults input.new)
        (F.faults feed.new) (G.faults door.new) (W.faults wire.new)))
        (I.left input.new) (F.behind feed.new) (F.left feed.new)
        (at_door (G.guests door.new) (G.turns door.new) (G.session_faults door.new))
        (at_wire (W.requests wire.new) (W.exchanges wire.new) (W.send_faults wire.new)) in
        ((command : Command) → IsEncoded (map string_bytes words.now) command
        → Ran D.view tells before after result command
        × HasCauses result before.parts after.parts)
        ⊎ ((result ≡ Status.Memory) × (panel.new ≡ panel.old) × (repos.new ≡ repos.old)
        × (disk.new ≡ disk.old) × (other.new ≡ other.old) × (input.new ≡ input.old)
        × (out.new ≡ out.old) × (clock.new ≡ clock.old) × (feed.new ≡ feed.old)
        × (door.new ≡ door.old) × (wire.new ≡ wire.old)) }

    // What a command has no use for is left alone. Words that are no command touch nothing.
    ensures alone { ((command : Command) → IsEncoded (map string_bytes words.now) command
        → is_on_journal command ≡ false)
        → (panel.new ≡ panel.old) × (disk.new ≡ disk.old) × (other.new ≡ other.old)
        × (clock.new ≡ clock.old) }
    ensures unread { ((command : Command) → IsEncoded (map string_bytes words.now) command
        → uses_input command ≡ false) → input.new ≡ input.old }
    ensures unwritten { ((command : Command) → IsEncoded (map string_bytes words.now) command
        → ⊥) → out.new ≡ out.old }
    ensures unfetched { ((command : Command) → IsEncoded (map string_bytes words.now) command
        → uses_repos command ≡ false) → repos.new ≡ repos.old }
    ensures unasked_feed { ((command : Command) → IsEncoded (map string_bytes words.now) command
        → uses_feed command ≡ false) → feed.new ≡ feed.old }
    ensures unasked_door { ((command : Command) → IsEncoded (map string_bytes words.now) command
        → uses_door command ≡ false) → door.new ≡ door.old }
    ensures unasked_wire { ((command : Command) → IsEncoded (map string_bytes words.now) command
        → uses_wire command ≡ false) → wire.new ≡ wire.old }
    ensures no_command { ((command : Command) → IsEncoded (map string_bytes words.now) command
        → ⊥) → (result ≡ Status.Usage) ⊎ (result ≡ Status.Memory) }
    ensures usage { result ≡ Status.Usage
        → (command : Command) → IsEncoded (map string_bytes words.now) command → ⊥ }
{
    match command_from(alloc, words) {
        Ok(command) => {
            let mut outside = Outside {
                pair: Pair {
                    one: disk,
                    two: other,
                },
                asked: Asked {
                    judges: panel,
                    repos,
                    clock,
                },
                out,
            };
            run(alloc, &command, &mut outside, input, feed, door, wire)
        }
        Err(WordsFault::NoCommand) => Status::Usage,
        Err(WordsFault::Memory) => Status::Memory,
    }
}

// The text of a collection, where one is named.
fn text_in(collection: &Option<Words>) -> Option<&str>
    ensures { option_map (λ text. text.now) result ≡ collection.now }
{
    match collection {
        Some(collection) => Some(collection.as_str()),
        None => None,
    }
}

// Runs a command.
fn run<D: Disk, P: Judges, R: Repos, C: Clock, O: Sink, I: Source, F: Feed, G: Door, W: Wire>(
    alloc: Global,
    command: &Command,
    outside: &mut Outside<D, P, R, C, O>,
    input: &mut I,
    feed: &mut F,
    door: &mut G,
    wire: &mut W,
) -> Status
    requires form { IsInForm command.now }
    ensures ran { let tells =
        outside_tells D.tells C.tells R.tells I.tells O.tells F.tells G.tells W.tells in
        let at = place_seen (place_of D.view P.panel C.moments R.repository O.written
        R.faults C.faults O.faults) I.left I.faults F.behind F.left F.faults
        (λ door. at_door (G.guests door) (G.turns door) (G.session_faults door)) G.faults
        (λ wire. at_wire (W.requests wire) (W.exchanges wire) (W.send_faults wire)) W.faults in
        let before = at outside.old input.old feed.old door.old wire.old in
        let after = at outside.new input.new feed.new door.new wire.new in
        Ran D.view tells before after result command.now
        × HasCauses result before.parts after.parts }
    ensures alone { is_on_journal command.now ≡ false
        → (outside.new.asked.judges.now ≡ outside.old.asked.judges.now)
        × (outside.new.pair.one.now ≡ outside.old.pair.one.now)
        × (outside.new.pair.two.now ≡ outside.old.pair.two.now)
        × (outside.new.asked.clock.now ≡ outside.old.asked.clock.now) }
    ensures unfetched { uses_repos command.now ≡ false
        → outside.new.asked.repos.now ≡ outside.old.asked.repos.now }
    ensures unread { uses_input command.now ≡ false → input.new ≡ input.old }
    ensures unasked_feed { uses_feed command.now ≡ false → feed.new ≡ feed.old }
    ensures unasked_door { uses_door command.now ≡ false → door.new ≡ door.old }
    ensures unasked_wire { uses_wire command.now ≡ false → wire.new ≡ wire.old }
    ensures no_usage { result ≡ Status.Usage → ⊥ }
    ensures later { IsLater (faults_of D.view R.faults C.faults O.faults) outside.old outside.new }
{
    match command {
        Command::Check => check(alloc, LONGEST_FEED_MESSAGE, input, outside.out),
        Command::Ingest => outside.ingest(alloc, LONGEST, LONGEST, input),
        Command::Account(did) => outside.account(alloc, LONGEST, did.as_str()),
        Command::Hosts => outside.hosts(alloc, LONGEST),
        Command::Takedown(did, time) => {
            outside.operate(alloc, LONGEST, did.as_str(), true, time.as_str())
        }
        Command::Restore(did, time) => {
            outside.operate(alloc, LONGEST, did.as_str(), false, time.as_str())
        }
        Command::Sync(did, time) => outside.sync(alloc, LONGEST, did.as_str(), time.as_str()),
        Command::Follow(host, count) => {
            outside.follow(alloc, LONGEST, host.as_str(), *count, feed)
        }
        Command::Cut(seq) => outside.cut(alloc, LONGEST, *seq),
        Command::Replay(cursor) => outside.replay(alloc, LONGEST, *cursor),
        Command::Serve(count) => outside.serve(alloc, LONGEST, *count, door),
        Command::Trial(start, count) => trial(alloc, *start, *count, outside.out),
        Command::Mirror => {
            let repos = &mut *outside.asked.repos;
            mirror(alloc, LONGEST, input, repos, outside.out)
        }
        Command::Query(count) => outside.query(alloc, LONGEST, *count, wire),
        Command::Lines(cursor, text) => outside.lines(alloc, LONGEST, *cursor, text_in(text)),
    }
}
