//! Facts for the prover.
//!
//! A call of a function `ghost_..` does nothing when it runs. Its contract states what the type of its argument
//! guarantees, so that the proof of what comes behind the call can use it. The prefix is reserved: no function that does
//! work has it, in this crate or in one above.

ghost use Rattle.std.specs.Prelude.{◌<◌, ◌^◌, length, IfSome};
ghost use Rattle.std.specs.Str.{IsUtf8};
ghost use Rattle.at_cid.specs.Link.{IsBytes, IsLink, IsLinkOrNone};

use crate::cid::Cid;

/// The elements of a slice of bytes are bytes, and there are fewer than 2^63.
#[inline]
pub fn ghost_bytes(bytes: &[u8])
    ensures bytes { IsBytes bytes.now }
    ensures length { length bytes.now < 2 ^ 63 }
{
    let _length: usize = bytes.len();
}

/// A text is UTF-8, and has fewer than 2^63 bytes.
#[inline]
pub fn ghost_text(text: &str)
    ensures utf8 { IsUtf8 text.now }
    ensures bytes { IsBytes text.now }
    ensures length { length text.now < 2 ^ 63 }
{
    ghost_bytes(text.as_bytes());
}

/// The same of a text, where there is one.
#[inline]
pub fn ghost_text_or_none(text: Option<&str>)
    ensures utf8 { IfSome text.entry (λ text. IsUtf8 text.now) }
    ensures bytes { IfSome text.entry (λ text. IsBytes text.now) }
    ensures length { IfSome text.entry (λ text. length text.now < 2 ^ 63) }
{
    if let Some(text) = text {
        ghost_text(text);
    }
}

/// The bytes of a link have the form of one.
#[inline]
pub fn ghost_link(link: &Cid)
    ensures { IsLink link.now }
{
    let _bytes = link.as_bytes();
}

/// The same of a link, where there is one.
#[inline]
pub fn ghost_link_or_none(link: &Option<Cid>)
    ensures { IsLinkOrNone link.now }
{
    if let Some(link) = link {
        ghost_link(link);
    }
}
