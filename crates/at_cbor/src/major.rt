//! The major types of heads.

ghost use Rattle.std.specs.Prelude.{◌≡◌};
ghost use Rattle.at_cbor.specs.Majors.{major_number, major_in};

/// The major type of a head: the high three bits of its first byte (RFC 8949, section 3.1).
#[derive(Clone, Copy, Debug, PartialEq, Eq)]
pub enum Major {
    /// A whole number from 0 on.
    Unsigned,
    /// A whole number below 0.
    Negative,
    /// A string of bytes.
    Bytes,
    /// A text in UTF-8.
    Text,
    /// An array of values.
    List,
    /// A map of keys and values.
    Map,
    /// A tag in front of a value.
    Tag,
    /// A simple value: false, true, null and others.
    Simple,
}

impl Major {
    /// The major type that a first byte names.
    #[tactic(auto, unfolding(crate::specs::Majors::major_in))]
    #[inline]
    pub(crate) fn of_byte(first: u8) -> Major
        ensures { result ≡ major_in first }
    {
        match first / 32 {
            0 => Major::Unsigned,
            1 => Major::Negative,
            2 => Major::Bytes,
            3 => Major::Text,
            4 => Major::List,
            5 => Major::Map,
            6 => Major::Tag,
            _ => Major::Simple,
        }
    }

    /// Its number, from 0 to 7.
    #[inline]
    pub(crate) fn number(self) -> u8
        ensures { result ≡ major_number self }
    {
        match self {
            Major::Unsigned => 0,
            Major::Negative => 1,
            Major::Bytes => 2,
            Major::Text => 3,
            Major::List => 4,
            Major::Map => 5,
            Major::Tag => 6,
            Major::Simple => 7,
        }
    }
}
