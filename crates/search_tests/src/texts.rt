//! What a printed text has to be.

use std::process::Abort;

// Asserts that the text is this one.
pub fn assert_text(rt: &impl Abort, text: &[u8], wanted: &str) {
    assert!(rt; text == wanted.as_bytes(), "not {wanted}");
}
