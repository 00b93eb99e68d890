//! Tests of one byte.

ghost use Rattle.std.specs.Prelude.{◌≡◌};
ghost use Rattle.net_lexer.specs.Bytes.{is_digit, is_white, is_sign, is_word_start, is_word_byte, is_run_start, is_run_byte};

/// White space: bytes 9 to 13, and 32.
pub fn is_white(byte: u8) -> bool
    ensures { result ≡ is_white byte }
{
    matches!(byte, 9..=13 | b' ')
}

/// 0 to 9.
pub fn is_digit(byte: u8) -> bool
    ensures { result ≡ is_digit byte }
{
    byte.is_ascii_digit()
}

/// A plus or a minus.
pub fn is_sign(byte: u8) -> bool
    ensures { result ≡ is_sign byte }
{
    matches!(byte, b'+' | b'-')
}

/// A word begins with a letter or an underscore.
pub fn is_word_start(byte: u8) -> bool
    ensures { result ≡ is_word_start byte }
{
    byte.is_ascii_alphabetic() || byte == b'_'
}

/// A word goes on with letters, digits and underscores.
pub fn is_word_byte(byte: u8) -> bool
    ensures { result ≡ is_word_byte byte }
{
    is_word_start(byte) || is_digit(byte)
}

/// A run begins with a digit, a sign or a point.
pub fn is_run_start(byte: u8) -> bool
    ensures { result ≡ is_run_start byte }
{
    is_digit(byte) || matches!(byte, b'+' | b'-' | b'.')
}

/// A run goes on with letters, digits, underscores, signs and points.
pub fn is_run_byte(byte: u8) -> bool
    ensures { result ≡ is_run_byte byte }
{
    is_word_byte(byte) || matches!(byte, b'+' | b'-' | b'.')
}
