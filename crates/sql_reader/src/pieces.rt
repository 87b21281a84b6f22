//! The piece at the front of a text: a blank, a comment, or what spells a token.

ghost use Rattle.std.specs.Prelude.{◌≡◌, ℕ, ◌<◌, ◌≤◌, ◌^◌, ◌∷◌, length, map, false, List};
ghost use Rattle.std.specs.Prelude.{Option, Some, None, IfOk, IfSome};
ghost use Rattle.std.specs.Option.{option_map};
ghost use Rattle.sql_reader.specs.Lexing.{shown, named_kind, signed};
ghost use Rattle.sql_reader.specs.Words.{word_of};
ghost use Rattle.sql_reader.specs.Pieces.{in_comment};
ghost use Rattle.sql_reader.specs.Bytes.{is_digit};
ghost use Rattle.sql_reader.specs.Cutting.{name_cut, digits_cut, comment_cut, minus_cut, short_cut, long_cut};
ghost use Rattle.sql_reader.specs.Cutting.{sign_cut, quoting_of, piece_cut, integer_cut, magnitude_of, begins_with};
ghost use Rattle.sql_reader.specs.Cutting.{IsPiece, IsQuoted, quoted_cut};
ghost use Rattle.std.specs.List.{prefix_len};
ghost use Rattle.sql_reader.specs.declared.tokens.Kind.TheVariants as kinds;
ghost use Rattle.orca_base.specs.Name.{continues_name};

use crate::classes::{Class, class_at};
use crate::tokens::Kind;
use crate::words::{one_byte_symbol, two_byte_symbol, word};
use orca_base::Text;
use std::alloc::{AllocError, Global};

/// The byte as it stands in a text: `?` where it isn't ASCII.
fn shown_char(byte: u8) -> char
    ensures { result ≡ shown byte }
{
    if byte < 128 { char::from(byte) } else { '?' }
}

fn text_of(alloc: Global, bytes: &[u8]) -> Result<Text, AllocError>
    ensures { IfOk result (λ text. text ≡ map shown bytes.now) }
{
    let mut text = String::new(alloc);
    for byte in bytes {
        text.push(shown_char(*byte))?;
    }
    Ok(Text::of(text))
}

fn is_name_byte(byte: u8) -> bool
    ensures { result ≡ continues_name byte }
{
    byte.is_ascii_alphanumeric() || byte == b'_'
}

fn is_digit_byte(byte: u8) -> bool
    ensures { result ≡ is_digit byte }
{
    48 <= byte && byte <= 57
}

#[tactic(auto, unfolding(crate::specs::Pieces::in_comment))]
fn is_comment_byte(byte: u8) -> bool
    ensures { result ≡ in_comment byte }
{
    byte != 10 && (byte >= 32 || byte == 9 || byte == 13) && byte != 127 && byte < 128
}

fn name_len(text: &[u8]) -> usize
    ensures value { result ≡ prefix_len continues_name text.now }
    ensures bound { result ≤ length text.now }
{
    text.iter().take_while(|byte| is_name_byte(**byte)).count()
}

fn digits_len(text: &[u8]) -> usize
    ensures value { result ≡ prefix_len is_digit text.now }
    ensures bound { result ≤ length text.now }
{
    text.iter().take_while(|byte| is_digit_byte(**byte)).count()
}

fn comment_len(body: &[u8]) -> usize
    ensures value { result ≡ prefix_len in_comment body.now }
    ensures bound { result ≤ length body.now }
{
    body.iter()
        .take_while(|byte| is_comment_byte(**byte))
        .count()
}

fn name_or_word(alloc: Global, text: &[u8]) -> Result<Kind, AllocError>
    ensures { IfOk result (λ kind. kind ≡ named_kind text.now (word_of text.now)) }
{
    match word(text) {
        Some(word) => Ok(Kind::Mark(word)),
        None => Ok(Kind::Name(text_of(alloc, text)?)),
    }
}

type Piece<'t> = Option<(Option<Kind>, &'t [u8])>;

fn name_piece(alloc: Global, text: &[u8]) -> Result<Piece<'_>, AllocError>
    ensures { IfOk result (λ piece. IsPiece piece (name_cut text.now)) }
{
    let (name, rest) = text.split_at(name_len(text));
    Ok(Some((Some(name_or_word(alloc, name)?), rest)))
}

/// The number that digits spell, where it is below 2 ^ 63.
fn magnitude(digits: &[u8]) -> Option<u64>
    ensures { result ≡ magnitude_of digits.now }
{
    let mut number: u64 = 0;
    for digit in digits {
        number = number
            .checked_mul(10)?
            .checked_add(u64::from(digit.saturating_sub(48)))?;
    }
    if number < 0x8000_0000_0000_0000 {
        Some(number)
    } else {
        None
    }
}

fn integer(negative: bool, magnitude: u64) -> Kind
    requires { magnitude < 2 ^ 63 }
    ensures { result ≡ kinds.Integer (signed negative magnitude) }
{
    if negative {
        Kind::Integer(0 - magnitude as i64)
    } else {
        Kind::Integer(magnitude as i64)
    }
}

fn is_followed(rest: &[u8]) -> bool
    ensures { result ≡ begins_with continues_name rest.now }
{
    match rest {
        [byte, ..] => is_name_byte(*byte),
        [] => false,
    }
}

fn comment_piece(body: &[u8]) -> Piece<'_>
    ensures { IsPiece result (comment_cut body.now) }
{
    let (_, rest) = body.split_at(comment_len(body));
    Some((None, rest))
}

fn integer_piece<'t>(negative: bool, digits: &[u8], rest: &'t [u8]) -> Piece<'t>
    ensures { IsPiece result (integer_cut negative digits.now rest.now) }
{
    match magnitude(digits) {
        Some(number) if !is_followed(rest) => Some((Some(integer(negative, number)), rest)),
        _ => None,
    }
}

fn digits_piece(negative: bool, text: &[u8]) -> Piece<'_>
    ensures { IsPiece result (digits_cut negative text.now) }
{
    let (digits, rest) = text.split_at(digits_len(text));
    integer_piece(negative, digits, rest)
}

/// What stands behind a minus.
fn minus_piece(text: &[u8]) -> Piece<'_>
    ensures { IsPiece result (minus_cut text.now) }
{
    match text {
        [b'-', body @ ..] => comment_piece(body),
        [byte, ..] if is_digit_byte(*byte) => digits_piece(true, text),
        _ => None,
    }
}

fn short_piece<'t>(byte: u8, rest: &'t [u8]) -> Piece<'t>
    ensures { IsPiece result (short_cut byte rest.now) }
{
    match one_byte_symbol(byte) {
        Some(mark) => Some((Some(Kind::Mark(mark)), rest)),
        None => None,
    }
}

fn long_piece<'t>(first: u8, second: u8, rest: &'t [u8]) -> Piece<'t>
    ensures { IsPiece result (long_cut first second rest.now) }
{
    match two_byte_symbol(first, second) {
        Some(mark) => Some((Some(Kind::Mark(mark)), rest)),
        None => None,
    }
}

/// A symbol of two bytes, or else of one: its first byte, and the bytes behind that.
fn sign_piece(first: u8, text: &[u8]) -> Piece<'_>
    ensures { IsPiece result (sign_cut (first ∷ text.now)) }
{
    let long = match text {
        [second, rest @ ..] => long_piece(first, *second, rest),
        [] => None,
    };
    match long {
        Some(piece) => Some(piece),
        None => short_piece(first, text),
    }
}

/// What a byte does to a quoted text.
enum Quoting {
    /// It is part of the text.
    Part(u8),
    /// It is a quote, which closes the text unless another follows.
    MayClose,
    /// The quote before it closed the text.
    Closed,
}

fn quoting_at(after_quote: bool, byte: u8) -> Quoting
    ensures { result ≡ quoting_of after_quote byte }
{
    match (after_quote, byte == b'\'') {
        (false, false) => Quoting::Part(byte),
        (false, true) => Quoting::MayClose,
        (true, true) => Quoting::Part(byte),
        (true, false) => Quoting::Closed,
    }
}

type Quoted<'t> = Option<(Text, &'t [u8])>;

/// The text up to its closing quote, and the bytes behind that.
fn quoted_text(alloc: Global, bytes: &[u8]) -> Result<Quoted<'_>, AllocError>
    ensures { IfOk result (λ found. IsQuoted found bytes.now) }
{
    let mut text = String::new(alloc);
    let mut after_quote = false;
    let mut rest = bytes;
    'bytes: loop {
        let (byte, more) = match rest.split_first() {
            None if after_quote => return Ok(Some((Text::of(text), rest))),
            None => return Ok(None),
            Some((byte, more)) => (*byte, more),
        };
        match quoting_at(after_quote, byte) {
            Quoting::Part(byte) => {
                text.push(shown_char(byte))?;
                after_quote = false;
            }
            Quoting::MayClose => after_quote = true,
            Quoting::Closed => return Ok(Some((Text::of(text), rest))),
        }
        rest = more;
    }
}

fn quoted_piece(alloc: Global, bytes: &[u8]) -> Result<Piece<'_>, AllocError>
    ensures { IfOk result (λ piece. IsPiece piece (quoted_cut bytes.now)) }
{
    match quoted_text(alloc, bytes)? {
        Some((text, rest)) => Ok(Some((Some(Kind::Quoted(text)), rest))),
        None => Ok(None),
    }
}

/// The piece at the front: what token it spells, if it spells one, and the bytes behind it.
#[tactic(auto, unfolding(crate::specs::Cutting::piece_cut))]
pub fn piece(alloc: Global, text: &[u8]) -> Result<Piece<'_>, AllocError>
    ensures { IfOk result (λ piece. IsPiece piece (piece_cut text.now)) }
{
    let (byte, rest) = match text.split_first() {
        Some((byte, rest)) => (*byte, rest),
        None => return Ok(None),
    };
    match class_at(byte) {
        Class::Blank => Ok(Some((None, rest))),
        Class::Letter => name_piece(alloc, text),
        Class::Digit => Ok(digits_piece(false, text)),
        Class::Quote => quoted_piece(alloc, rest),
        Class::Minus => Ok(minus_piece(rest)),
        Class::Sign => Ok(sign_piece(byte, rest)),
        Class::Bad => Ok(None),
    }
}
