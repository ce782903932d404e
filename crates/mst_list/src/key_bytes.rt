//! The keys of items and of entries.

ghost use Rattle.std.specs.Prelude.{◌≡◌, ◌≤◌, ◌+◌, ◌++◌, length, take, nat_eq, IfOk, IfSome};
ghost use Rattle.std.specs.Cmp.{partial_equiv_from_equiv};
ghost use Rattle.std.specs.Cmp.Lexicographic.{nat_list_eq_equiv, pointwise};
ghost use Rattle.at_cid.specs.Link.{IsBytes};
ghost use Rattle.mst_list.specs.KeyBytes.{kept_bytes};
ghost use Rattle.at_cid.specs.declared.short_text.TheConstants.{MOST_SHORT_BYTES};

use at_cid::{MOST_SHORT_BYTES, Memory, Octets, ghost_bytes};
use std::alloc::Global;
use std::marker::Model;

/// How the bytes of a key are kept: so many of an array, or apart.
#[derive(Debug, Drop)]
enum Kept {
    Short(u8, [u8; MOST_SHORT_BYTES]),
    Long(Octets),
}

/// The bytes of a key. One of at most [`MOST_SHORT_BYTES`] takes no room of its own: those of posts, likes, reposts and
/// follows have no more.
#[derive(Debug, Drop)]
pub struct KeyBytes {
    kept: Kept,
}

impl Model for KeyBytes {
    ghost use Rattle.std.specs.Prelude.{List, ℕ};

    ghost Value = { List ℕ };

    ghost use Rattle.mst_list.specs.KeyBytes.{kept_bytes, IsKept};

    ghost view = { λ a. kept_bytes a.kept };

    ghost invariant = { λ a. IsKept a.kept };
}

impl PartialEq for KeyBytes {
    ghost eq = { pointwise nat_eq };

    ghost laws = { partial_equiv_from_equiv nat_list_eq_equiv };

    #[inline]
    fn eq(&self, other: &KeyBytes) -> bool {
        self.as_slice() == other.as_slice()
    }
}

impl Eq for KeyBytes {
    ghost laws = { nat_list_eq_equiv };
}

/// The bytes of two slices, one behind the other, where they are few.
#[inline(always)]
fn short(front: &[u8], tail: &[u8], count: usize) -> KeyBytes
    requires count { count ≡ length (front.now ++ tail.now) }
    requires few { count ≤ MOST_SHORT_BYTES }
    ensures { result ≡ front.now ++ tail.now }
{
    let mut bytes = [0; MOST_SHORT_BYTES];
    bytes[..front.len()].copy_from_slice(front);
    bytes[front.len()..count].copy_from_slice(tail);
    KeyBytes {
        kept: Kept::Short(count as u8, bytes),
    }
}

/// So many bytes of an array, and others behind them, where they are few.
#[inline(always)]
fn changed(front: &[u8; MOST_SHORT_BYTES], count: usize, tail: &[u8]) -> KeyBytes
    requires { count + length tail.now ≤ MOST_SHORT_BYTES }
    ensures { result ≡ take count front.now ++ tail.now }
{
    let end = count + tail.len();
    let mut bytes = *front;
    bytes[count..end].copy_from_slice(tail);
    KeyBytes {
        kept: Kept::Short(end as u8, bytes),
    }
}

impl KeyBytes {
    /// The bytes of two slices, one behind the other.
    #[inline]
    pub fn joined(alloc: Global, front: &[u8], tail: &[u8]) -> Result<KeyBytes, Memory>
        ensures { IfOk result (λ key. key ≡ front.now ++ tail.now) }
    {
        let count = front.len().saturating_add(tail.len());
        if count <= MOST_SHORT_BYTES {
            return Ok(short(front, tail, count));
        }
        let mut bytes = Vec::with_capacity(alloc, count)?;
        bytes.extend_from_slice(front)?;
        bytes.extend_from_slice(tail)?;
        Ok(KeyBytes {
            kept: Kept::Long(Octets::from_vec(bytes)),
        })
    }

    /// So many of these bytes, and others behind them, where these and those are few.
    #[inline(always)]
    pub fn going_on(&self, count: usize, tail: &[u8]) -> Option<KeyBytes>
        requires { count ≤ length self.now }
        ensures { IfSome result (λ key. key ≡ take count self.now ++ tail.now) }
    {
        match &self.kept {
            Kept::Short(_, bytes) if tail.len() <= MOST_SHORT_BYTES - count => {
                Some(changed(bytes, count, tail))
            }
            _ => None,
        }
    }

    /// A copy of the bytes.
    pub fn from_slice(alloc: Global, bytes: &[u8]) -> Result<KeyBytes, Memory>
        ensures { IfOk result (λ key. key ≡ bytes.now) }
    {
        KeyBytes::joined(alloc, bytes, &[])
    }

    /// A copy of bytes that stand apart.
    pub fn of(bytes: &Octets) -> Result<KeyBytes, Memory>
        ensures { IfOk result (λ key. key ≡ bytes.now) }
    {
        if bytes.len() <= MOST_SHORT_BYTES {
            return Ok(short(bytes.as_slice(), &[], bytes.len()));
        }
        let bytes = bytes.try_clone()?;
        Ok(KeyBytes {
            kept: Kept::Long(bytes),
        })
    }

    /// The bytes.
    #[inline]
    pub fn as_slice(&self) -> &[u8]
        ensures value { result.now ≡ self.now }
        ensures bytes { IsBytes self.now }
    {
        match &self.kept {
            Kept::Short(count, bytes) => {
                let bytes = &bytes[..*count as usize];
                ghost_bytes(bytes);
                bytes
            }
            Kept::Long(bytes) => bytes.as_slice(),
        }
    }

    /// How many bytes there are.
    #[inline]
    pub fn len(&self) -> usize
        ensures { result ≡ length self.now }
    {
        self.as_slice().len()
    }

    /// The same bytes once more.
    pub fn try_clone(&self) -> Result<KeyBytes, Memory>
        ensures { IfOk result (λ made. made ≡ self.now) }
    {
        match &self.kept {
            Kept::Short(count, bytes) => Ok(KeyBytes {
                kept: Kept::Short(*count, *bytes),
            }),
            Kept::Long(bytes) => {
                let bytes = bytes.try_clone()?;
                Ok(KeyBytes {
                    kept: Kept::Long(bytes),
                })
            }
        }
    }
}
