//! The kinds of characters that names are made of.

ghost use Rattle.std.specs.Prelude.{◌≡◌};
ghost use Rattle.at_syntax.specs.Characters.{is_lower, is_alphanumeric};

/// Whether the byte is one of `a` to `z`.
pub fn is_lower(byte: u8) -> bool
    ensures { result ≡ is_lower byte }
{
    byte >= b'a' && byte <= b'z'
}

/// Whether the byte is one of `A` to `Z`, `a` to `z` and `0` to `9`.
pub fn is_alphanumeric(byte: u8) -> bool
    ensures { result ≡ is_alphanumeric byte }
{
    matches!(byte, b'A'..=b'Z' | b'a'..=b'z' | b'0'..=b'9')
}
