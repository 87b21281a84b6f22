//! Reads the line of a node.
#![tactic(auto)]

ghost use Rattle.std.specs.Prelude.{◌≡◌, ◌≢◌, ◌++◌, ℕ, ◌<◌, ◌≤◌, ◌^◌, List, length, codes, decimal, MatchOption};
ghost use Rattle.std.specs.Prelude.{IsTrue};
ghost use Rattle.std.specs.List.{prefix_len, list_all};
ghost use Rattle.std.specs.Char.{is_ascii_digit};
ghost use Rattle.query_core.specs.declared.query.Query.{Query};
ghost use Rattle.plan_lines.specs.Text.{indent};
ghost use Rattle.plan_reading.specs.Reading.{is_space, is_bare, ArePartsOf, IsLine, NoLine};
ghost use Rattle.plan_reading.specs.Texts.{IsNodeTexts};
ghost use Rattle.plan_reading.specs.Named.{named_text, HasForm};
ghost use Rattle.plan_reading.specs.declared.named.Named.{Named as AnyNamed};

use crate::line::NodeLine;
use crate::named::Named;
use crate::numbers::number;
use crate::texts::NodeText;

/// The parts of a line of a node.
#[derive(Clone, Copy)]
pub struct Parts<'l> {
    pub spaces: &'l [u8],
    pub name: &'l [u8],
    pub rows: &'l [u8],
    pub cost: &'l [u8],
}

/// The line that the bytes say, without its newline.
pub fn read_line(texts: &[NodeText], line: &[u8]) -> Option<NodeLine>
    requires { length line.now < 2 ^ 32 }
    ensures { (q : Query) → IsNodeTexts q texts.now →
        MatchOption result (NoLine q line.now) (IsLine q line.now) }
{
    let found = parts_of(line)?;
    let level = level_of(found.spaces)?;
    let node = node_named(texts, found.name)?;
    let rows = number(found.rows)?;
    let cost = number(found.cost)?;
    Some(NodeLine {
        level,
        node,
        rows,
        cost,
    })
}

fn parts_of(line: &[u8]) -> Option<Parts<'_>>
    ensures { MatchOption result
        ((s n r c : List ℕ) → ArePartsOf line.now s n r c → ⊥)
        (λ p. ArePartsOf line.now p.spaces.now p.name.now p.rows.now p.cost.now) }
{
    let (spaces, rest) = line.split_at(spaces_len(line));
    let (front, back) = rest.split_at(bare_len(rest));
    let name = before_rows(front)?;
    let numbers = behind_sign(back)?;
    let (rows, behind) = numbers.split_at(digits_len(numbers));
    let cost = behind_cost(behind)?;
    Some(Parts {
        spaces,
        name,
        rows,
        cost,
    })
}

fn before_rows(text: &[u8]) -> Option<&[u8]>
    ensures { MatchOption result ((front : List ℕ) → text.now ≢ front ++ codes " rows")
        (λ x. text.now ≡ x.now ++ codes " rows") }
{
    text.strip_suffix(b" rows")
}

fn behind_sign(text: &[u8]) -> Option<&[u8]>
    ensures { MatchOption result ((rest : List ℕ) → text.now ≢ codes "=" ++ rest)
        (λ x. text.now ≡ codes "=" ++ x.now) }
{
    text.strip_prefix(b"=")
}

fn behind_cost(text: &[u8]) -> Option<&[u8]>
    ensures { MatchOption result ((rest : List ℕ) → text.now ≢ codes " cost=" ++ rest)
        (λ x. text.now ≡ codes " cost=" ++ x.now) }
{
    text.strip_prefix(b" cost=")
}

fn spaces_len(text: &[u8]) -> usize
    ensures value { result ≡ prefix_len is_space text.now }
    ensures bound { result ≤ length text.now }
{
    text.iter().take_while(|byte| **byte == 32).count()
}

fn bare_len(text: &[u8]) -> usize
    ensures value { result ≡ prefix_len is_bare text.now }
    ensures bound { result ≤ length text.now }
{
    text.iter()
        .take_while(|byte| **byte != 61 && **byte != 10)
        .count()
}

fn digits_len(text: &[u8]) -> usize
    ensures value { result ≡ prefix_len is_ascii_digit text.now }
    ensures bound { result ≤ length text.now }
{
    text.iter().take_while(|byte| byte.is_ascii_digit()).count()
}

/// The level that so many spaces are for: half as many.
fn level_of(spaces: &[u8]) -> Option<u32>
    requires few { length spaces.now < 2 ^ 32 }
    requires spaced { IsTrue (list_all is_space spaces.now) }
    ensures { MatchOption result
        ((d : ℕ) → spaces.now ≡ indent d → ⊥)
        (λ d. spaces.now ≡ indent d) }
{
    if spaces.len() % 2 == 0 {
        Some((spaces.len() / 2) as u32)
    } else {
        None
    }
}

/// The node of this text.
fn node_named(texts: &[NodeText], text: &[u8]) -> Option<Named>
    ensures { (q : Query) → IsNodeTexts q texts.now → MatchOption result
        ((n : AnyNamed) → HasForm q n → text.now ≡ named_text q n → ⊥)
        (λ n. HasForm q n × (text.now ≡ named_text q n)) }
{
    for entry in texts {
        if entry.text.as_str().as_bytes() == text {
            return Some(entry.node);
        }
    }
    None
}
