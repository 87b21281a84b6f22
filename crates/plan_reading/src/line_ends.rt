//! The ends of lines.
#![tactic(auto)]

ghost use Rattle.std.specs.Prelude.{◌≡◌, ◌≢◌, ◌++◌, ℕ, ◌≤◌, List, length, codes, MatchOption};
ghost use Rattle.std.specs.List.{prefix_len};
ghost use Rattle.plan_reading.specs.Reading.{is_inner, IsCutAt};

/// A line without its newline, and what is behind that.
#[derive(Clone, Copy)]
pub struct Cut<'t> {
    pub line: &'t [u8],
    pub rest: &'t [u8],
}

/// The first line of a text, if a newline ends it.
pub fn cut_line(text: &[u8]) -> Option<Cut<'_>>
    ensures { MatchOption result ((line rest : List ℕ) → IsCutAt text.now line rest → ⊥)
        (λ cut. IsCutAt text.now cut.line.now cut.rest.now) }
{
    let (line, end) = text.split_at(inner_len(text));
    let rest = behind_newline(end)?;
    Some(Cut { line, rest })
}

fn behind_newline(text: &[u8]) -> Option<&[u8]>
    ensures { MatchOption result ((rest : List ℕ) → text.now ≢ codes "\n" ++ rest)
        (λ x. text.now ≡ codes "\n" ++ x.now) }
{
    text.strip_prefix(b"\n")
}

fn inner_len(text: &[u8]) -> usize
    ensures value { result ≡ prefix_len is_inner text.now }
    ensures bound { result ≤ length text.now }
{
    text.iter().take_while(|byte| **byte != 10).count()
}
