//! The edge by itself, to be tried against other programs.
//!
//! `edge_run feed HOST CURSOR` writes each message of a host's stream after the cursor, each after its
//! length in four bytes (the most significant first), and ends with 0 where the host closed and with
//! 1 where the feed failed.
//!
//! `edge_run door GUESTS MESSAGES LENGTH [PORT]` serves GUESTS guests, one after another. Each gets
//! MESSAGES messages of LENGTH bytes, all of them the letter `m`. It prints a line for each guest.
//!
//! `edge_run wire REQUESTS LENGTH [PORT]` takes REQUESTS requests, one after another, and sends each a
//! reply of LENGTH bytes, all of them the letter `m`. It prints for each how many bytes it has, and
//! whether the reply was sent.
//!
//! Why one of them failed stands on standard error.
#![tactic(auto)]

ghost use Rattle.std.specs.Prelude.{IsTrue};

use anyhow::{Context, Error, Result, bail};
use at_cid::Octets;
use os_edge::{Reporter, WriterSink};
use relay_io::{Door, Feed, Guest, Wire, write_all};
use std::env;
use std::process::ExitCode;
use ws_edge::{DOOR_PORT, Fault, TcpWire, WIRE_PORT, WsDoor, WsFeed};

// Why a call failed: by the edge, where it says so.
fn reason(fault: Option<Fault>, error: Error) -> Error {
    match fault {
        Some(fault) => fault.into(),
        None => error,
    }
}

// Writes what a host gives.
fn follow(rt: &HostRuntime, host: &str, cursor: u64) -> Result<()> {
    let mut feed = WsFeed::new(rt.alloc(), rt);
    match write_messages(rt, &mut feed, host, cursor) {
        Ok(()) => Ok(()),
        Err(error) => Err(reason(feed.fault(), error)),
    }
}

// Writes the messages of a host, each after its length.
fn write_messages<F: Feed>(rt: &HostRuntime, feed: &mut F, host: &str, cursor: u64) -> Result<()> {
    let Ok(reporter) = Reporter::new(*rt, "edge_run") else {
        bail!("out of memory");
    };
    let mut out = WriterSink::new(reporter, "standard output", rt.stdout());
    let mut message = Octets::new(rt.alloc());
    feed.open(host, cursor)?;
    for _ in 0..u64::MAX {
        if !feed.next(&mut message)? {
            break;
        }
        let length = message.len() as u32;
        write_all(&mut out, &length.to_be_bytes())?;
        write_all(&mut out, message.as_slice())?;
    }
    Ok(())
}

// Sends the message this many times to the guest who waits, and ends the session. Returns how many
// were taken, and how it ended.
fn send_times<G: Door>(door: &mut G, times: u64, message: &[u8]) -> (u64, &'static str)
    requires { IsTrue (G.waits door.old) }
{
    'sends: for i in 0..times {
        if door.send(message).is_err() {
            return (i, "failed");
        }
    }
    if door.close().is_ok() {
        return (times, "closed");
    }
    (times, "failed")
}

// Serves guests, each of whom gets the message so many times.
fn serve(rt: &HostRuntime, port: u16, guests: u64, times: u64, message: &[u8]) -> Result<()> {
    let mut door = WsDoor::new(rt.alloc(), rt, port);
    for _ in 0..guests {
        let guest = match door.next() {
            Ok(guest) => guest,
            Err(error) => return Err(reason(door.fault(), error.into())),
        };
        match guest {
            Guest::Target(target) => {
                let (sent, end) = send_times(&mut door, times, message);
                println!(rt; "{} sent {sent} {end}", target.as_str())?;
            }
            Guest::NoHandshake => println!(rt; "no handshake")?,
            Guest::End => println!(rt; "end")?,
        }
    }
    Ok(())
}

// Replies to requests, each of which gets the same.
fn reply_to(rt: &HostRuntime, port: u16, requests: u64, reply: &[u8]) -> Result<()> {
    let mut wire = TcpWire::new(rt, port);
    let mut request = Octets::new(rt.alloc());
    for _ in 0..requests {
        match wire.next(&mut request) {
            Ok(true) => {}
            Ok(false) => break,
            Err(error) => return Err(reason(wire.fault(), error.into())),
        }
        let length = request.len();
        let end = if wire.send(reply).is_ok() {
            "sent"
        } else {
            "failed"
        };
        println!(rt; "{length} bytes {end}")?;
    }
    Ok(())
}

// Bytes of this length, all of them the letter `m`.
fn content(rt: &HostRuntime, length: &str) -> Result<Vec<u8>> {
    Ok(vec![in rt.alloc(); b'm'; length.parse::<usize>()?]?)
}

fn run(rt: &HostRuntime) -> Result<()> {
    let mut words = env::args(rt)?;
    let _program = words.next();
    let word = words.next().context("feed, door or wire")?;
    let first = words.next().context("a host, or how many")?;
    let second = words
        .next()
        .context("a cursor, or how many messages, or how long a reply is")?;
    match word.as_str() {
        "feed" => follow(rt, first.as_str(), second.parse::<u64>()?),
        "door" => {
            let length = words.next().context("how long a message is")?;
            let message = content(rt, length.as_str())?;
            let port = port_in(words.next(), DOOR_PORT)?;
            let guests = first.parse::<u64>()?;
            serve(rt, port, guests, second.parse::<u64>()?, message.as_slice())
        }
        "wire" => {
            let reply = content(rt, second.as_str())?;
            let port = port_in(words.next(), WIRE_PORT)?;
            reply_to(rt, port, first.parse::<u64>()?, reply.as_slice())
        }
        _ => bail!("feed, door or wire"),
    }
}

// The port that is named, or this one.
fn port_in(word: Option<String>, port: u16) -> Result<u16> {
    match word {
        Some(word) => Ok(word.parse::<u16>()?),
        None => Ok(port),
    }
}

fn main(rt: HostRuntime) -> ExitCode {
    match run(&rt) {
        Ok(()) => ExitCode::SUCCESS,
        Err(error) => {
            let _ = eprintln!(rt; "{error}");
            ExitCode::from(1)
        }
    }
}
