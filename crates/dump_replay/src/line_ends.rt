//! The ends of lines.
ghost use Rattle.std.specs.Prelude.{◌≡◌, ℕ, List, MatchOption};
ghost use Rattle.dump_replay.specs.Lines.{IsCut};

use memchr::memchr;

/// A line without its newline, and what is behind that.
#[derive(Clone, Copy)]
pub struct Cut<'t> {
    pub line: &'t [u8],
    pub rest: &'t [u8],
}

/// The first line of a text, if a newline ends it.
pub fn cut_line(text: &[u8]) -> Option<Cut<'_>>
    ensures { MatchOption result ((line rest : List ℕ) → IsCut text.now line rest → ⊥)
        (λ cut. IsCut text.now cut.line.now cut.rest.now) }
{
    let end = memchr(b'\n', text)?;
    let (line, behind) = text.split_at(end);
    Some(Cut {
        line,
        rest: &behind[1..],
    })
}
