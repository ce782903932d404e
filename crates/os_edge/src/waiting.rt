//! Reads and writes that wait.
ghost use Rattle.std.specs.Prelude.{◌≤◌, length, IfOk};

use std::io::{self, ErrorKind, Read, Write};
use std::thread;
use std::time::Duration;

/// The milliseconds between two tries of a call that would have to wait.
const PAUSE: u64 = 10;

// Whether a call is to be made again: a signal came in between, or the other side isn't ready and the
// descriptor, which a parent may share, doesn't wait. Then this waits a little.
fn is_to_be_tried_again(rt: &HostRuntime, error: &io::Error) -> bool {
    match error.kind() {
        ErrorKind::Interrupted => true,
        ErrorKind::WouldBlock => {
            thread::sleep(rt, Duration::from_millis(PAUSE));
            true
        }
        _ => false,
    }
}

/// Reads as `read` does, but waits where nothing has come yet, and goes on after an interruption.
pub(crate) fn read_waiting<R: Read>(
    rt: &HostRuntime,
    reader: &mut R,
    room: &mut [u8],
) -> io::Result<usize>
    ensures within { IfOk result (λ count. count ≤ length room.new) }
{
    for _ in 0..u64::MAX {
        match reader.read(room) {
            Err(error) if is_to_be_tried_again(rt, &error) => {}
            answer => return answer,
        }
    }
    Err(io::Error::from(ErrorKind::TimedOut))
}

/// Writes as `write` does, but waits where there is no room yet, and goes on after an interruption.
pub(crate) fn write_waiting<W: Write>(
    rt: &HostRuntime,
    writer: &mut W,
    piece: &[u8],
) -> io::Result<usize>
    ensures within { IfOk result (λ count. count ≤ length piece.now) }
{
    for _ in 0..u64::MAX {
        match writer.write(piece) {
            Err(error) if is_to_be_tried_again(rt, &error) => {}
            answer => return answer,
        }
    }
    Err(io::Error::from(ErrorKind::TimedOut))
}
