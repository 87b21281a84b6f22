//! Texts that the select keeps, which the query alone copies.
ghost use Rattle.std.specs.Prelude.{◌≡◌, IfOk};
ghost use Rattle.std.specs.Str.{bytes_eq};

use orca_base::Text;
use std::alloc::{AllocError, Global};
use std::marker::Model;

/// A text of the select: a literal, or an output name.
#[derive(Drop)]
pub struct Written<'a> {
    text: &'a Text,
}

impl<'a> Model for Written<'a> {
    ghost use Rattle.std.specs.Prelude.{List, ℕ};

    ghost Value = { List ℕ };

    ghost view = { λ w. w.text.now };
}

impl<'a> Written<'a> {
    pub fn of(text: &'a Text) -> Written<'a>
        ensures { result ≡ text.now }
    {
        Written { text }
    }

    pub fn is(&self, other: &Text) -> bool
        ensures { result ≡ bytes_eq self.now other.now }
    {
        self.text.as_str() == other.as_str()
    }

    pub fn copy(&self, alloc: Global) -> Result<Text, AllocError>
        ensures { IfOk result (λ copied. copied ≡ self.now) }
    {
        self.text.copy(alloc)
    }
}
