//! The lines of hosts.

ghost use Rattle.std.specs.Prelude.{◌≡◌, ◌++◌, ◌∷◌, [], IfOk, OnOk, codes, decimal};
ghost use Rattle.host_state.specs.Table.{listed};
ghost use Rattle.report_lines.specs.StateLines.{host_text, hosts_text};

use crate::pieces::add_number;
use at_cid::{Memory, Octets};
use host_state::Hosts;
use std::alloc::Global;

fn add_host(lines: &mut Octets, host: &str, cursor: u64) -> Result<(), Memory>
    ensures { OnOk result (lines.new ≡ lines.old ++ host_text (host.now, cursor)) }
{
    lines.extend(host.as_bytes())?;
    lines.extend(b" ")?;
    add_number(lines, cursor)?;
    lines.extend(b"\n")
}

fn add_end(lines: &mut Octets, count: u64) -> Result<(), Memory>
    ensures { OnOk result (lines.new ≡ lines.old ++ (codes "end " ++ (decimal count ++ 10 ∷ []))) }
{
    lines.extend(b"end ")?;
    add_number(lines, count)?;
    lines.extend(b"\n")
}

/// The lines of hosts in first-seen order, each with its cursor, and a last one with their number.
pub fn host_lines(alloc: Global, hosts: &Hosts) -> Result<Octets, Memory>
    ensures { IfOk result (λ lines. lines ≡ hosts_text (listed hosts.now)) }
{
    let mut lines = Octets::new(alloc);
    'hosts: for place in 0..hosts.len() {
        let Some((host, cursor)) = hosts.at(place) else {
            unreachable!()
        };
        add_host(&mut lines, host, cursor)?;
    }
    add_end(&mut lines, hosts.len() as u64)?;
    Ok(lines)
}
