//! Texts that are made of parts.
use std::alloc::{AllocError, Global};
use std::process::Abort;

/// Puts a number and this end behind the text.
pub fn push_number(text: &mut String, number: u64, end: &str) -> Result<(), AllocError> {
    write!(text, "{number}{end}")
}

/// These words, and the number behind them.
pub fn numbered_line(alloc: Global, words: &str, number: u64) -> Result<String, AllocError> {
    let mut text = String::from_str(alloc, words)?;
    push_number(&mut text, number, "")?;
    Ok(text)
}

/// A list of this many parts, each numbered.
pub fn numbered(alloc: Global, front: &str, back: &str, count: u64) -> Result<String, AllocError> {
    let mut text = String::new(alloc);
    for i in 0..count {
        text.push_str(if i == 0 { "" } else { "," })?;
        text.push_str(front)?;
        push_number(&mut text, i, back)?;
    }
    Ok(text)
}

/// Asserts what was told of this input.
pub fn assert_told(rt: &impl Abort, told: &str, wanted: &str, of: &str) {
    assert!(rt; told == wanted, "{told}, not {wanted}, of {of}");
}
