//! Names of hosts.

ghost use Rattle.std.specs.Prelude.{◌≡◌};
ghost use Rattle.std.specs.List.{list_all};
ghost use Rattle.at_syntax.specs.Host.{is_host, is_host_character};

use crate::characters::is_lower;

/// How many bytes a host name has at most.
pub const LONGEST_HOST: usize = 255;

fn is_host_character(byte: u8) -> bool
    ensures { result ≡ is_host_character byte }
{
    is_lower(byte) || matches!(byte, b'0'..=b'9' | b'.' | b':' | b'-')
}

fn are_host_characters(bytes: &[u8]) -> bool
    ensures { result ≡ list_all is_host_character bytes.now }
{
    bytes.iter().all(|byte| is_host_character(*byte))
}

/// Whether the text is a host name: 1 to 255 bytes of `a-z0-9.:-`.
#[tactic(auto, unfolding(crate::specs::Host::is_host))]
pub fn host_ok(text: &str) -> bool
    ensures { result ≡ is_host text.now }
{
    !text.is_empty() && text.len() <= LONGEST_HOST && are_host_characters(text.as_bytes())
}
