//! The feed's side of a handshake.
ghost use Rattle.std.specs.Prelude.{List, ℕ, IfOk, IfSome};
ghost use Rattle.ws_edge.specs.Handshakes.{IsAnswered, IsHere};

use crate::fault::Fault;
use crate::framed::Framed;
use crate::head::{behind_head, read_piece};
use crate::limits::{ANSWER_SECONDS, CONNECT_SECONDS, LONGEST_HEAD, MOST_FIELDS};
use crate::timed::Timed;
use at_cid::Octets;
use httparse::Status;
use httparse::spans::{EMPTY_HEADER_SPAN, parse_response};
use relay_io::LONGEST_FEED_MESSAGE;
use std::alloc::Global;
use std::io::{Read, Write};
use std::net::{Ipv4Addr, Net, SocketAddr};
use std::random::RandomSource;
use std::time::{Clock, Duration};
use tungstenite::{RandomKeys, Role, WebSocket, WebSocketConfig};
use websocket::handshake::client::{ClientRequest, generate_key, verify_response, write_request};

/// A session with a host.
pub(crate) type Session<S, R> = WebSocket<Framed<Timed<S, R>>, RandomKeys<R>>;

/// Asks a host on this machine for its stream behind a number.
pub(crate) fn ask<R: Net + Clock + RandomSource + Copy>(
    alloc: Global,
    rt: R,
    host: &str,
    cursor: u64,
) -> Result<Session<R::Stream, R>, Fault> {
    let port = port_of(host)?;
    let path = format!(in alloc; "/xrpc/com.atproto.sync.subscribeRepos?cursor={cursor}")?;
    let mut nonce = [0; 16];
    rt.fill_bytes(&mut nonce)?;
    let place = SocketAddr::from((Ipv4Addr::LOCALHOST, port));
    let stream = rt.connect_timeout(place, Duration::from_secs(CONNECT_SECONDS))?;
    let mut stream = Timed::new(stream, rt);
    stream.give(ANSWER_SECONDS);
    let request = ClientRequest {
        host,
        path: path.as_str(),
        key: generate_key(nonce),
        subprotocols: &[],
        extra: &[],
    };
    let behind = shake_hands(alloc, &mut stream, &request)?;
    Ok(session_on(alloc, rt, stream, behind))
}

// The port of a host on this machine: decimal, without a sign and zeros in front.
fn port_of(host: &str) -> Result<u16, Fault>
    ensures here { IfOk result (λ _. (port : List ℕ) × IsHere host.now port) }
{
    let Some(port) = behind_name(host) else {
        return Err(Fault::Elsewhere);
    };
    if port.starts_with('0') || port.starts_with('+') {
        return Err(Fault::Port);
    }
    match port.parse::<u16>() {
        Ok(port) => Ok(port),
        Err(_) => Err(Fault::Port),
    }
}

// What stands behind the name or the number of this machine.
#[tactic(auto, using(crate::proofs::Hosts::by_name, crate::proofs::Hosts::by_number))]
fn behind_name(host: &str) -> Option<&str>
    ensures here { IfSome result (λ port. IsHere host.now port.now) }
{
    match host.strip_prefix("localhost:") {
        Some(port) => Some(port),
        None => host.strip_prefix("127.0.0.1:"),
    }
}

// Sends the request, and reads the answer. What is handed back came behind the answer's head.
fn shake_hands<S: Read + Write>(
    alloc: Global,
    stream: &mut S,
    request: &ClientRequest<'_>,
) -> Result<Vec<u8>, Fault> {
    let mut bytes = Vec::new(alloc);
    write_request(request, &mut bytes)?;
    stream.write_all(bytes.as_slice())?;
    let mut head = Octets::new(alloc);
    for _ in 0..LONGEST_HEAD {
        read_piece(stream, &mut head)?;
        if let Some(behind) = behind_answer(alloc, request, head.as_slice())? {
            return Ok(behind);
        }
    }
    Err(Fault::LongHead)
}

// What stands behind the head of an answer that accepts the request, or `None` where the head isn't
// whole.
fn behind_answer(
    alloc: Global,
    request: &ClientRequest<'_>,
    bytes: &[u8],
) -> Result<Option<Vec<u8>>, Fault>
    ensures answered { IfOk result
        (λ behind. IfSome behind (λ rest. IsAnswered bytes.now request.now rest.items)) }
{
    let mut spans = [EMPTY_HEADER_SPAN; MOST_FIELDS];
    let found = match parse_response(bytes, &mut spans) {
        Ok(Status::Complete(found)) => found,
        Ok(Status::Partial) => return Ok(None),
        Err(e) => return Err(e.into()),
    };
    verify_response(request, bytes, &found, &spans)?;
    Ok(Some(behind_head(alloc, bytes, found.len)?))
}

// The session on a stream whose handshake is done.
fn session_on<S: Read + Write + Drop, R: RandomSource + Clock + Copy>(
    alloc: Global,
    rt: R,
    stream: Timed<S, R>,
    mut behind: Vec<u8>,
) -> Session<S, R> {
    let stream = Framed::new(stream, LONGEST_FEED_MESSAGE, &mut behind);
    let limits = WebSocketConfig::default()
        .max_message_size(Some(LONGEST_FEED_MESSAGE))
        .max_frame_size(Some(LONGEST_FEED_MESSAGE));
    WebSocket::from_partially_read(
        alloc,
        stream,
        RandomKeys::new(rt),
        behind,
        Role::Client,
        Some(limits),
    )
}
