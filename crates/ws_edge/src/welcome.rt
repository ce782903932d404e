//! The door's side of a handshake.
ghost use Rattle.std.specs.Prelude.{◌≡◌, ◌≤◌, [], length, IfOk, IfSome};
ghost use Rattle.httparse.specs.Spans.{IsRequestOf, IsRequestWithin, span_bytes};
ghost use Rattle.websocket.specs.Handshake.{response_bytes};
ghost use Rattle.ws_edge.specs.Handshakes.{IsAccepted, IsAsked};

use crate::fault::Fault;
use crate::framed::Framed;
use crate::head::{behind_head, read_piece};
use crate::leaving::{read_on, send_last};
use crate::limits::{
    LONGEST_HEAD, LONGEST_WORD, MOST_FIELDS, REFUSAL_SECONDS, SESSION_SECONDS, WELCOME_SECONDS,
    WRITE_SIZE,
};
use crate::refusal::refusal;
use crate::serving::Session;
use crate::timed::Timed;
use at_cid::{Octets, Words};
use httparse::Status;
use httparse::spans::{EMPTY_HEADER_SPAN, HeaderSpan, RequestSpans, parse_request};
use std::alloc::Global;
use std::io::{Read, Write};
use std::net::OpenStream;
use std::str;
use std::time::Clock;
use tungstenite::{NoMask, Role, WebSocket, WebSocketConfig};
use websocket::handshake::server::{check_request, write_response};

// A request for a WebSocket.
#[derive(Drop)]
struct Asked {
    target: Words,
    // The answer that accepts it.
    answer: Vec<u8>,
    // The bytes that came behind its head.
    behind: Vec<u8>,
}

/// The handshake with a guest on a new connection: the target that was asked for, and the session.
/// One who is refused is told why.
pub(crate) fn welcome<S: Read + Write + OpenStream + Drop, C: Clock + Copy>(
    alloc: Global,
    stream: S,
    clock: C,
) -> Result<(Words, Session<S, C>), Fault> {
    // Without it the last bytes of a session wait for the guest's acknowledgement of those before.
    let _ = stream.set_nodelay(true);
    let mut stream = Timed::new(stream, clock);
    stream.give(WELCOME_SECONDS);
    let mut asked = match read_request(alloc, &mut stream) {
        Ok(asked) => asked,
        Err(fault) => {
            if fault != Fault::Memory {
                refuse(&mut stream, fault);
            }
            return Err(fault);
        }
    };
    stream.write_all(asked.answer.as_slice())?;
    stream.give(SESSION_SECONDS);
    let stream = Framed::new(stream, LONGEST_WORD, &mut asked.behind);
    let session = WebSocket::from_partially_read(
        alloc,
        stream,
        NoMask,
        asked.behind,
        Role::Server,
        Some(limits()),
    );
    Ok((asked.target, session))
}

// What a guest may say, and how much leaves in one write.
fn limits() -> WebSocketConfig {
    WebSocketConfig::default()
        .read_buffer_size(2 * LONGEST_WORD)
        .write_buffer_size(WRITE_SIZE)
        .max_message_size(Some(LONGEST_WORD))
        .max_frame_size(Some(LONGEST_WORD))
}

// Reads a request, and what it asks for.
fn read_request<S: Read>(alloc: Global, stream: &mut S) -> Result<Asked, Fault> {
    let mut head = Octets::new(alloc);
    for _ in 0..LONGEST_HEAD {
        read_piece(stream, &mut head)?;
        if let Some(asked) = asked_by(alloc, head.as_slice())? {
            return Ok(asked);
        }
    }
    Err(Fault::LongHead)
}

// What these bytes ask for, or `None` where the head isn't whole.
fn asked_by(alloc: Global, bytes: &[u8]) -> Result<Option<Asked>, Fault>
    ensures asked { IfOk result
        (λ asked. IfSome asked (λ a. IsAsked bytes.now a.target a.answer.items a.behind.items)) }
{
    let mut fields = [EMPTY_HEADER_SPAN; MOST_FIELDS];
    let Some(found) = request_in(bytes, &mut fields)? else {
        return Ok(None);
    };
    let accept = accept_of(bytes, &found, &fields)?;
    let target = target_of(alloc, bytes, found)?;
    let answer = answer_with(alloc, &accept)?;
    let behind = behind_head(alloc, bytes, found.len)?;
    Ok(Some(Asked {
        target,
        answer,
        behind,
    }))
}

// The request at the front, or `None` where it isn't whole.
fn request_in(bytes: &[u8], fields: &mut [HeaderSpan]) -> Result<Option<RequestSpans>, Fault>
    ensures within { IfOk result (λ found. IfSome found (IsRequestWithin bytes.now fields.new)) }
    ensures stands { IfOk result (λ found. IfSome found (IsRequestOf bytes.now fields.new)) }
{
    match parse_request(bytes, fields) {
        Ok(Status::Complete(found)) => Ok(Some(found)),
        Ok(Status::Partial) => Ok(None),
        Err(e) => Err(e.into()),
    }
}

// The key that accepts a request for a WebSocket.
fn accept_of(bytes: &[u8], request: &RequestSpans, fields: &[HeaderSpan]) -> Result<[u8; 28], Fault>
    requires { IsRequestWithin bytes.now fields.now request.now }
    ensures accepted { IfOk result (IsAccepted bytes.now request.now fields.now) }
{
    Ok(check_request(bytes, request, fields)?)
}

// The target of a request.
fn target_of(alloc: Global, bytes: &[u8], request: RequestSpans) -> Result<Words, Fault>
    requires ordered { request.path.start ≤ request.path.end }
    requires inside { request.path.end ≤ length bytes.now }
    ensures target { IfOk result (λ target. target ≡ span_bytes bytes.now request.path) }
{
    let Ok(target) = str::from_utf8(request.path.of(bytes)) else {
        return Err(Fault::Handshake);
    };
    Ok(Words::from_str(alloc, target)?)
}

// The answer with this key.
fn answer_with(alloc: Global, accept: &[u8; 28]) -> Result<Vec<u8>, Fault>
    ensures answer { IfOk result (λ answer. answer.items ≡ response_bytes accept.now []) }
{
    let mut answer = Vec::new(alloc);
    write_response(accept, &[], &mut answer)?;
    Ok(answer)
}

// Tells a guest why.
fn refuse<S: Read + Write + OpenStream + Drop, C: Clock + Copy>(
    stream: &mut Timed<S, C>,
    fault: Fault,
) {
    stream.give(REFUSAL_SECONDS);
    if send_last(stream, refusal(fault)) {
        read_on(stream);
    }
}
