//! Bytes by what they can begin.

ghost use Rattle.std.specs.Prelude.{◌≡◌};
ghost use Rattle.sql_reader.specs.Bytes.{class_of};

/// What a byte can begin.
#[derive(Clone, Copy)]
pub enum Class {
    Blank,
    /// A letter or `_`.
    Letter,
    Digit,
    Quote,
    Minus,
    /// The first byte of a symbol.
    Sign,
    /// No token begins with it.
    Bad,
}

pub fn class_at(byte: u8) -> Class
    ensures { result ≡ class_of byte }
{
    match byte {
        b' ' | b'\t' | b'\n' | b'\r' => Class::Blank,
        b'a'..=b'z' | b'A'..=b'Z' | b'_' => Class::Letter,
        b'0'..=b'9' => Class::Digit,
        b'\'' => Class::Quote,
        b'-' => Class::Minus,
        b',' | b'.' | b';' | b'(' | b')' | b'*' | b'=' | b'<' | b'>' | b'!' => Class::Sign,
        _ => Class::Bad,
    }
}
