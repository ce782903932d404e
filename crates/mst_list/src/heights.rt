//! The heights of keys.

ghost use Rattle.std.specs.Prelude.{◌≡◌, ◌≤◌, ◌*◌, ◌++◌, ℕ, List, length};
ghost use Rattle.at_cid.specs.declared.cid.TheConstants.{DIGEST_LEN};
ghost use Rattle.sha2.specs.Hashers.{Holds256};
ghost use Rattle.mst_list.specs.Height.{height, leading_zeros};
ghost use Rattle.mst_list.specs.declared.limits.TheConstants.{MOST_HEIGHT};

use sha2::{Digest, Sha256};

#[tactic(auto, unfolding(crate::specs::Height::leading_zeros))]
fn leading_zeros(bytes: &[u8]) -> u32
    requires { length bytes.now ≤ DIGEST_LEN }
    ensures is { result ≡ leading_zeros bytes.now }
    ensures most { result ≤ 2 * MOST_HEIGHT }
{
    let mut zeros = 0;
    for byte in bytes {
        if *byte != 0 {
            return zeros + byte.leading_zeros();
        }
        zeros += 8;
    }
    zeros
}

/// The height of a key: the number of leading zero bits of its SHA-256, divided by 2 and rounded down.
/// (Repository specification, MST structure.)
#[tactic(auto, unfolding(crate::specs::Height::height))]
pub fn height(key: &[u8]) -> u8
    ensures value { result ≡ height key.now }
    ensures most { result ≤ MOST_HEIGHT }
{
    let digest = Sha256::digest(key);
    (leading_zeros(&digest) / 2) as u8
}

/// [`height`] of the key that has these bytes behind those that a hasher was given.
#[tactic(auto, unfolding(crate::specs::Height::height))]
pub fn height_behind(hasher: &Sha256, rest: &[u8]) -> u8
    ensures value { (front : List ℕ) → Holds256 hasher.now front
        → result ≡ height (front ++ rest.now) }
    ensures most { result ≤ MOST_HEIGHT }
{
    let Ok(mut hasher) = hasher.clone() else {
        unreachable!()
    };
    hasher.update(rest);
    let digest = hasher.finalize();
    (leading_zeros(&digest) / 2) as u8
}
