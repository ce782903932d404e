//! Text that grows, seen in contracts as the list of its bytes.

ghost use Rattle.std.specs.Prelude.{◌≡◌, List, ℕ, [], ◌++◌, length, ◌==◌, true, nat_eq, string_bytes, encode_utf8, OnErr, OnOk, IfOk};
ghost use Rattle.std.specs.Cmp.{partial_equiv_from_equiv};
ghost use Rattle.std.specs.Cmp.Lexicographic.{nat_list_eq_equiv, pointwise};
ghost use Rattle.std.specs.Str.{is_utf8};
ghost use Rattle.at_cid.specs.Link.{IsBytes};

use crate::ghost_facts::ghost_bytes;
use crate::memory::Memory;
use crate::short_text::{MOST_SHORT_BYTES, ShortText};
use std::alloc::Global;
use std::marker::Model;

/// How the bytes of a text are kept: in place, or apart.
#[derive(Debug, Drop)]
enum Kept {
    Short(ShortText),
    Long(String),
}

/// A text in UTF-8.
///
/// A text of at most 38 bytes takes no room of its own: DIDs, the paths of posts and likes, the names of fields.
/// What grows it answers [`Memory`] where there is no room, and then leaves it as it was.
#[derive(Debug, Drop)]
pub struct Words {
    alloc: Global,
    kept: Kept,
}

impl Model for Words {
    ghost use Rattle.std.specs.Prelude.{List, ℕ};
    ghost use Rattle.at_cid.specs.Words.{kept_bytes};

    ghost Value = { List ℕ };

    ghost view = { λ a. kept_bytes a.kept };
}

impl PartialEq for Words {
    ghost eq = { pointwise nat_eq };

    ghost laws = { partial_equiv_from_equiv nat_list_eq_equiv };

    #[inline]
    fn eq(&self, other: &Words) -> bool {
        self.as_bytes() == other.as_bytes()
    }
}

impl Eq for Words {
    ghost laws = { nat_list_eq_equiv };
}

impl Words {
    /// The empty text. Takes no memory.
    pub fn new(alloc: Global) -> Words
        ensures { result ≡ [] }
    {
        Words {
            alloc,
            kept: Kept::Short(ShortText::new()),
        }
    }

    /// A copy of the text.
    #[inline]
    pub fn from_str(alloc: Global, text: &str) -> Result<Words, Memory>
        ensures { IfOk result (λ made. made ≡ text.now) }
    {
        if text.len() <= MOST_SHORT_BYTES {
            let kept = Kept::Short(ShortText::of(text));
            return Ok(Words { alloc, kept });
        }
        let mut made = Words::new(alloc);
        made.extend(text)?;
        Ok(made)
    }

    /// The text.
    #[tactic(auto, using(crate::proofs::Utf8::tests_of_text))]
    pub fn as_str(&self) -> &str
        ensures value { result.now ≡ self.now }
        ensures utf8 { is_utf8 self.now ≡ true }
        ensures bytes { IsBytes self.now }
    {
        let text = match &self.kept {
            Kept::Short(text) => text.as_str(),
            Kept::Long(text) => text.as_str(),
        };
        ghost_bytes(text.as_bytes());
        text
    }

    /// The bytes of the text.
    #[inline]
    #[tactic(auto, using(crate::proofs::Utf8::tests_of_text))]
    pub fn as_bytes(&self) -> &[u8]
        ensures value { result.now ≡ self.now }
        ensures utf8 { is_utf8 self.now ≡ true }
        ensures bytes { IsBytes self.now }
    {
        let bytes = match &self.kept {
            Kept::Short(text) => text.as_bytes(),
            Kept::Long(text) => text.as_str().as_bytes(),
        };
        ghost_bytes(bytes);
        bytes
    }

    /// How many bytes the text has.
    #[inline]
    pub fn len(&self) -> usize
        ensures { result ≡ length self.now }
    {
        match &self.kept {
            Kept::Short(text) => text.len(),
            Kept::Long(text) => text.len(),
        }
    }

    /// Whether it is the empty text.
    #[inline]
    pub fn is_empty(&self) -> bool
        ensures { result ≡ (length self.now == 0) }
    {
        self.len() == 0
    }

    /// Adds a character at the end.
    #[inline]
    pub fn push(&mut self, letter: char) -> Result<(), Memory>
        ensures ok { OnOk result (self.new ≡ self.old ++ encode_utf8 letter) }
        ensures err { OnErr result (self.new ≡ self.old) }
    {
        let mut room = [0; 4];
        self.extend(letter.encode_utf8(&mut room))
    }

    /// Adds a text at the end.
    #[inline]
    pub fn extend(&mut self, text: &str) -> Result<(), Memory>
        ensures ok { OnOk result (self.new ≡ self.old ++ text.now) }
        ensures err { OnErr result (self.new ≡ self.old) }
    {
        match &mut self.kept {
            Kept::Short(short) => {
                if text.len() <= MOST_SHORT_BYTES - short.len() {
                    short.add(text);
                } else {
                    let whole = joined(self.alloc, short.as_str(), text)?;
                    self.kept = Kept::Long(whole);
                }
            }
            Kept::Long(long) => long.push_str(text)?,
        }
        Ok(())
    }

    /// The same text once more.
    pub fn try_clone(&self) -> Result<Words, Memory>
        ensures { IfOk result (λ made. made ≡ self.now) }
    {
        let kept = match &self.kept {
            Kept::Short(text) => Kept::Short(text.again()),
            Kept::Long(text) => Kept::Long(text.clone()?),
        };
        Ok(Words {
            alloc: self.alloc,
            kept,
        })
    }
}

// Two texts, one behind the other, as a string.
fn joined(alloc: Global, front: &str, tail: &str) -> Result<String, Memory>
    ensures { IfOk result (λ whole. string_bytes whole ≡ front.now ++ tail.now) }
{
    let mut whole = String::with_capacity(alloc, front.len().saturating_add(tail.len()))?;
    whole.push_str(front)?;
    whole.push_str(tail)?;
    Ok(whole)
}
