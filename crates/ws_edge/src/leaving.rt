//! The last bytes of a connection.

use crate::limits::{MOST_PIECES_BEHIND, PIECE_BEHIND};
use crate::timed::Timed;
use std::io::{Read, Write};
use std::net::OpenStream;
use std::time::Clock;

/// Sends the last bytes of a connection. True exactly where the system took all of them, and the end
/// behind them.
pub(crate) fn send_last<S: Read + Write + OpenStream + Drop, C: Clock + Copy>(
    stream: &mut Timed<S, C>,
    bytes: &[u8],
) -> bool {
    stream.write_all(bytes).is_ok() && stream.end_writing().is_ok()
}

/// Reads what is on its way, until the other side ends or no time is left: a connection that is
/// closed over bytes that nobody read is reset, and the last bytes that were sent can be lost with
/// it.
pub(crate) fn read_on<S: Read + Write + OpenStream + Drop, C: Clock + Copy>(
    stream: &mut Timed<S, C>,
) {
    let mut room = [0; PIECE_BEHIND];
    for _ in 0..MOST_PIECES_BEHIND {
        match stream.read(&mut room) {
            Ok(count) if count > 0 => {}
            _ => return,
        }
    }
}
