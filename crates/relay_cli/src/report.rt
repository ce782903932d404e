//! The lines that are written.
ghost use Rattle.std.specs.Prelude.{◌≡◌, IfOk};
ghost use Rattle.relay_cli.specs.Report.{check_line};

use crate::verdict::CheckVerdict;
use at_cid::{Memory, Octets};
use report_lines::{add_link, add_number, add_refusal};
use std::alloc::Global;

/// Room for the line of an accepted message, of at most 143 bytes: two links of 59, a number of at most ten digits, and what
/// stands beside them.
const LINE_ROOM: usize = 144;

/// The line of a message that was checked, with its line feed.
pub fn report(alloc: Global, verdict: &CheckVerdict) -> Result<Octets, Memory>
    ensures { IfOk result (λ line. line ≡ check_line verdict.now) }
{
    let mut line = Octets::from_vec(Vec::with_capacity(alloc, LINE_ROOM)?);
    match verdict {
        CheckVerdict::Accepted(from, to, ops) => {
            line.extend(b"from ")?;
            add_link(&mut line, from)?;
            line.extend(b" to ")?;
            add_link(&mut line, to)?;
            line.extend(b" ops ")?;
            add_number(&mut line, u64::from(*ops))?;
            line.extend(b"\n")?;
        }
        CheckVerdict::Refused(refusal) => {
            add_refusal(&mut line, refusal)?;
            line.extend(b"\n")?;
        }
    }
    Ok(line)
}
