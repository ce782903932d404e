//! What a guest who is refused is sent.

use crate::fault::Fault;

/// The answer to a guest whose handshake came to nothing.
pub(crate) fn refusal(fault: Fault) -> &'static [u8] {
    match fault {
        Fault::Method =>
            b"HTTP/1.1 405 Method Not Allowed\r\nAllow: GET\r\nConnection: close\r\nContent-Length: 0\r\n\r\n",
        Fault::NoUpgrade =>
            b"HTTP/1.1 426 Upgrade Required\r\nUpgrade: websocket\r\nSec-WebSocket-Version: 13\r\nConnection: close, Upgrade\r\nContent-Length: 0\r\n\r\n",
        Fault::LongHead =>
            b"HTTP/1.1 431 Request Header Fields Too Large\r\nConnection: close\r\nContent-Length: 0\r\n\r\n",
        Fault::Late =>
            b"HTTP/1.1 408 Request Timeout\r\nConnection: close\r\nContent-Length: 0\r\n\r\n",
        Fault::System(_) | Fault::Closed => b"",
        _ => b"HTTP/1.1 400 Bad Request\r\nConnection: close\r\nContent-Length: 0\r\n\r\n",
    }
}
