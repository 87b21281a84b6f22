//! Words and symbols by their spelling.

ghost use Rattle.std.specs.Prelude.{◌≡◌, map};
ghost use Rattle.sql_reader.specs.Words.{is_spelled, meaning, word_of, function_of, short_symbol, long_symbol};

use crate::tokens::{Function, Mark};

/// Whether the text is the word, in any case.
fn is_word(text: &[u8], word: &[u8]) -> bool
    ensures { result ≡ is_spelled text.now word.now }
{
    text.eq_ignore_ascii_case(word)
}

/// The reserved words, in any case, with their marks.
const WORDS: [(&[u8], Mark); 28] = [
    (b"select", Mark::Select),
    (b"from", Mark::From),
    (b"where", Mark::Where),
    (b"and", Mark::And),
    (b"group", Mark::Group),
    (b"by", Mark::By),
    (b"order", Mark::Order),
    (b"asc", Mark::Asc),
    (b"desc", Mark::Desc),
    (b"as", Mark::As),
    (b"distinct", Mark::Reserved),
    (b"having", Mark::Reserved),
    (b"limit", Mark::Reserved),
    (b"join", Mark::Reserved),
    (b"on", Mark::Reserved),
    (b"or", Mark::Reserved),
    (b"not", Mark::Reserved),
    (b"union", Mark::Reserved),
    (b"in", Mark::Reserved),
    (b"is", Mark::Reserved),
    (b"like", Mark::Reserved),
    (b"between", Mark::Reserved),
    (b"null", Mark::Reserved),
    (b"inner", Mark::Reserved),
    (b"left", Mark::Reserved),
    (b"right", Mark::Reserved),
    (b"full", Mark::Reserved),
    (b"cross", Mark::Reserved),
];

fn first_match(text: &[u8], words: &[(&[u8], Mark)]) -> Option<Mark>
    ensures { result ≡ meaning text.now (map (λ word. (word.0.now, word.1)) words.now) }
{
    for (word, mark) in words {
        if is_word(text, word) {
            return Some(*mark);
        }
    }
    None
}

/// The reserved word that a text is.
#[tactic(auto, unfolding(crate::specs::Words::word_of))]
pub fn word(text: &[u8]) -> Option<Mark>
    ensures { result ≡ word_of text.now }
{
    first_match(text, &WORDS)
}

/// The function that a text names.
#[tactic(auto, unfolding(crate::specs::Words::function_of))]
pub fn function_named(text: &[u8]) -> Option<Function>
    ensures { result ≡ function_of text.now }
{
    if is_word(text, b"count") {
        Some(Function::Count)
    } else if is_word(text, b"sum") {
        Some(Function::Sum)
    } else if is_word(text, b"min") {
        Some(Function::Min)
    } else if is_word(text, b"max") {
        Some(Function::Max)
    } else {
        None
    }
}

pub fn one_byte_symbol(byte: u8) -> Option<Mark>
    ensures { result ≡ short_symbol byte }
{
    match byte {
        b',' => Some(Mark::Comma),
        b'.' => Some(Mark::Dot),
        b';' => Some(Mark::Semicolon),
        b'(' => Some(Mark::Open),
        b')' => Some(Mark::Close),
        b'*' => Some(Mark::Star),
        b'=' => Some(Mark::Equal),
        b'<' => Some(Mark::Less),
        b'>' => Some(Mark::Greater),
        _ => None,
    }
}

/// `!=` is `<>`.
pub fn two_byte_symbol(first: u8, second: u8) -> Option<Mark>
    ensures { result ≡ long_symbol first second }
{
    match (first, second) {
        (b'<', b'=') => Some(Mark::LessEqual),
        (b'>', b'=') => Some(Mark::GreaterEqual),
        (b'<', b'>') => Some(Mark::NotEqual),
        (b'!', b'=') => Some(Mark::NotEqual),
        _ => None,
    }
}
