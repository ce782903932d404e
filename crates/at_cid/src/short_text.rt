//! Texts of few bytes, which take no room of their own.

ghost use Rattle.std.specs.Prelude.{◌≡◌, ◌≤◌, ◌+◌, [], ◌++◌, length, true};
ghost use Rattle.std.specs.Str.{is_utf8};
ghost use Rattle.at_cid.specs.declared.short_text.TheConstants.{MOST_SHORT_BYTES};

use std::marker::Model;

/// The most bytes of a text, or of a key of a tree, that takes no room of its own.
pub const MOST_SHORT_BYTES: usize = 38;

/// A text of at most [`MOST_SHORT_BYTES`], seen in contracts as the list of its bytes: the first ones of an array.
#[derive(Debug, Drop)]
pub(crate) struct ShortText {
    count: u8,
    bytes: [u8; MOST_SHORT_BYTES],
}

impl Model for ShortText {
    ghost use Rattle.std.specs.Prelude.{List, ℕ, take};
    ghost use Rattle.at_cid.specs.ShortText.{IsShort};

    ghost Value = { List ℕ };

    ghost view = { λ a. take a.count a.bytes };

    ghost invariant = { λ a. IsShort a.count a.bytes };
}

impl ShortText {
    /// The empty text.
    pub(crate) fn new() -> ShortText
        ensures { result ≡ [] }
    {
        ShortText {
            count: 0,
            bytes: [0; MOST_SHORT_BYTES],
        }
    }

    /// A copy of a text that is short enough.
    #[inline]
    pub(crate) fn of(text: &str) -> ShortText
        requires { length text.now ≤ MOST_SHORT_BYTES }
        ensures { result ≡ text.now }
    {
        let mut made = ShortText::new();
        made.add(text);
        made
    }

    /// The text.
    #[tactic(auto, using(crate::proofs::Utf8::texts_by_test))]
    pub(crate) fn as_str(&self) -> &str
        ensures { result.now ≡ self.now }
    {
        // Only texts are written into the array, so they aren't tested again.
        unsafe { str::from_utf8_unchecked(self.as_bytes()) }
    }

    /// The bytes of the text.
    #[inline]
    pub(crate) fn as_bytes(&self) -> &[u8]
        ensures value { result.now ≡ self.now }
        ensures utf8 { is_utf8 self.now ≡ true }
    {
        &self.bytes[..self.count as usize]
    }

    /// How many bytes the text has.
    #[inline]
    pub(crate) fn len(&self) -> usize
        ensures value { result ≡ length self.now }
        ensures within { length self.now ≤ MOST_SHORT_BYTES }
    {
        self.count as usize
    }

    /// Adds a text at the end, for which there is room.
    #[inline]
    pub(crate) fn add(&mut self, text: &str)
        requires { length self.old + length text.now ≤ MOST_SHORT_BYTES }
        ensures { self.new ≡ self.old ++ text.now }
    {
        let (len, whole) = (self.len(), self.len() + text.len());
        self.bytes[len..whole].copy_from_slice(text.as_bytes());
        self.count = whole as u8;
    }

    /// The same text once more.
    pub(crate) fn again(&self) -> ShortText
        ensures { result ≡ self.now }
    {
        ShortText {
            count: self.count,
            bytes: self.bytes,
        }
    }
}
