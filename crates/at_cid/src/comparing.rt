//! The order of bytes.

ghost use Rattle.std.specs.Prelude.{◌≡◌, ◌≤◌, ◌+◌, length, take, drop};
ghost use Rattle.std.specs.Int.{w64, from_be_bytes};
ghost use Rattle.at_cid.specs.Order.{key_cmp};

use std::cmp::Ordering;

/// How two lists of bytes compare: by the first byte in which they differ, and a front before the whole. Keys mostly
/// share a long front, so eight bytes at a time are compared, as numbers.
pub fn compare(left: &[u8], right: &[u8]) -> Ordering
    ensures { result ≡ key_cmp left.now right.now }
{
    let both = left.len().min(right.len()) / 8;
    for i in 0..both {
        let (a, b) = (number(left, i * 8), number(right, i * 8));
        if a != b {
            return a.cmp(&b);
        }
    }
    left.split_at(both * 8).1.cmp(right.split_at(both * 8).1)
}

// The number that the eight bytes from `at` on encode, the greatest first.
fn number(bytes: &[u8], at: usize) -> u64
    requires { at + 8 ≤ length bytes.now }
    ensures { result ≡ from_be_bytes w64 (take 8 (drop at bytes.now)) }
{
    u64::from_be_bytes(*bytes[at..at + 8].split_first_chunk::<8>().unwrap().0)
}
