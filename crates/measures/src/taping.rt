//! Made histories as tapes.

use anyhow::{Result, bail};
use relay_gen::{MOST_MESSAGES, make};
use std::io::{BufWriter, Write};

/// Adds a record of a tape: the host's name behind its length, and the message behind its own.
fn write_record<W: Write>(out: &mut W, host: &str, message: &[u8]) -> Result<()> {
    out.write_all(&[u8::try_from(host.len())?])?;
    out.write_all(host.as_bytes())?;
    out.write_all(&u32::try_from(message.len())?.to_be_bytes())?;
    out.write_all(message)?;
    Ok(())
}

/// Writes the made history of so many messages.
pub fn write_tape(rt: &HostRuntime, start: u64, count: u32) -> Result<()> {
    if count == 0 || count > MOST_MESSAGES {
        bail!("1 to {MOST_MESSAGES} messages");
    }
    let Ok(history) = make(rt.alloc(), start, count) else {
        bail!("out of memory");
    };
    let mut out = BufWriter::new(rt.alloc(), rt.stdout())?;
    for i in 0..u32::try_from(history.len())? {
        write_record(&mut out, history.host(i + 1), history.message(i + 1))?;
    }
    out.flush()?;
    Ok(())
}
