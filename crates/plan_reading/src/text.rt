//! Reads the lines of a text.
#![tactic(auto)]

ghost use Rattle.std.specs.Prelude.{◌≡◌, ◌≢◌, ◌++◌, ℕ, ◌<◌, ◌≤◌, ◌^◌, List, length, MatchOption, IfSome, IfOk, IfErr};
ghost use Rattle.std.specs.Prelude.{IsTrue, ◌↔◌};
ghost use Rattle.query_core.specs.declared.query.Query.{Query as AnyQuery};
ghost use Rattle.request_props.specs.Numbered.{IsProps};
ghost use Rattle.plan_lines.specs.Text.{output_line as the_output_line};
ghost use Rattle.plan_reading.specs.Texts.{IsNodeTexts};
ghost use Rattle.plan_reading.specs.Formed.{most_bytes, HasCost, LacksCost, IsNext, HasNoNext, IsRead, AreLines};
ghost use Rattle.plan_reading.specs.Formed.{HasNodeFault, MayFollow};

use crate::line::NodeLine;
use crate::line_ends::cut_line;
use crate::numbers::number;
use crate::reader::read_line;
use crate::texts::{NodeText, node_texts};
use plan_lines::output_line;
use query_core::Query;
use request_props::Props;
use std::alloc::{AllocError, AllocFailed, Global};

/// What the lines of a text say: the number of the first, and the lines of nodes.
#[derive(Drop)]
pub struct Lines {
    pub cost: u64,
    pub nodes: Vec<NodeLine>,
}

/// Why a text isn't made of the lines of a plan. Lines are counted from 0.
#[derive(Clone, Copy, Debug, PartialEq, Eq)]
pub enum LineFault {
    /// This is the first line that is missing, isn't ended by a newline, or hasn't its form.
    Form { line: u32 },
    Memory,
}

impl From<AllocError> for LineFault {
    ghost use Rattle.std.specs.Prelude.{◌≡◌};
    ghost use Rattle.plan_reading.specs.declared.text.LineFault.TheVariants.{Memory};

    ghost from_gives = { λ _ e. e ≡ Memory };

    fn from(_: AllocError) -> LineFault {
        LineFault::Memory
    }
}

impl<T: Drop> From<AllocFailed<T>> for LineFault {
    ghost use Rattle.std.specs.Prelude.{◌≡◌};
    ghost use Rattle.plan_reading.specs.declared.text.LineFault.TheVariants.{Memory};

    ghost from_gives = { λ _ e. e ≡ Memory };

    fn from(_: AllocFailed<T>) -> LineFault {
        LineFault::Memory
    }
}

/// What the text begins with, and what is behind it.
#[derive(Clone, Copy)]
struct FirstLine<'t> {
    cost: u64,
    rest: &'t [u8],
}

/// The line of a node, and what is behind it.
#[derive(Clone, Copy)]
struct NextLine<'t> {
    line: NodeLine,
    rest: &'t [u8],
}

/// Reads a text of at most 1,048,576 bytes.
pub fn read_lines(
    alloc: Global,
    query: &Query,
    props: &Props,
    text: &[u8],
) -> Result<Lines, LineFault>
    requires props { IsProps query.now props.now }
    requires short { length text.now ≤ most_bytes }
    ensures { IsRead query.now text.now result }
{
    let texts = node_texts(alloc, query, props)?;
    let output = output_line(alloc, query)?;
    read_by(alloc, texts.as_slice(), output.as_bytes(), text)
}

// The same by the texts of nodes and the line of the output.
fn read_by(
    alloc: Global,
    texts: &[NodeText],
    output: &[u8],
    text: &[u8],
) -> Result<Lines, LineFault>
    requires short { length text.now ≤ most_bytes }
    ensures { (q : AnyQuery) → IsNodeTexts q texts.now → output.now ≡ the_output_line q →
        IsRead q text.now result }
{
    let Some(first) = first_line(text) else {
        return Err(LineFault::Form { line: 0 });
    };
    let Some(rest) = behind(first.rest, output) else {
        return Err(LineFault::Form { line: 1 });
    };
    let nodes = read_nodes(alloc, texts, rest)?;
    Ok(Lines {
        cost: first.cost,
        nodes,
    })
}

// The line of the cost.
fn first_line(text: &[u8]) -> Option<FirstLine<'_>>
    ensures found { MatchOption result (LacksCost text.now)
        (λ f. HasCost text.now f.cost f.rest.now) }
    ensures shorter { IfSome result (λ f. length f.rest.now ≤ length text.now) }
{
    let cut = cut_line(text)?;
    let digits = behind(cut.line, b"cost ")?;
    let cost = number(digits)?;
    Some(FirstLine {
        cost,
        rest: cut.rest,
    })
}

// What is behind the piece with which the text begins.
fn behind<'t>(text: &'t [u8], piece: &[u8]) -> Option<&'t [u8]>
    ensures found { MatchOption result ((rest : List ℕ) → text.now ≢ piece.now ++ rest)
        (λ rest. text.now ≡ piece.now ++ rest.now) }
{
    text.strip_prefix(piece)
}

// The lines of nodes.
fn read_nodes(alloc: Global, texts: &[NodeText], text: &[u8]) -> Result<Vec<NodeLine>, LineFault>
    requires { length text.now ≤ most_bytes }
    ensures ok { (q : AnyQuery) → IsNodeTexts q texts.now →
        IfOk result (λ nodes. AreLines q text.now nodes.items) }
    ensures fault { (q : AnyQuery) → IsNodeTexts q texts.now →
        IfErr result (HasNodeFault q text.now) }
{
    let mut nodes = Vec::new(alloc);
    let mut rest = text;
    let mut last = None;
    'lines: while last.is_none() || !rest.is_empty() {
        let Some(next) = next_line(texts, last, rest) else {
            return Err(LineFault::Form {
                line: nodes.len() as u32 + 2,
            });
        };
        nodes.push(next.line)?;
        last = Some(next.line.level);
        rest = next.rest;
    }
    Ok(nodes)
}

// The line of a node behind one of this level, or as the first.
fn next_line<'t>(texts: &[NodeText], last: Option<u32>, text: &'t [u8]) -> Option<NextLine<'t>>
    requires { length text.now ≤ most_bytes }
    ensures found { (q : AnyQuery) → IsNodeTexts q texts.now → MatchOption result
        (HasNoNext q last text.now) (λ n. IsNext q last text.now n.line n.rest.now) }
    ensures shorter { IfSome result (λ n. length n.rest.now < length text.now) }
{
    let cut = cut_line(text)?;
    let line = read_line(texts, cut.line)?;
    if may_follow(last, line.level) {
        Some(NextLine {
            line,
            rest: cut.rest,
        })
    } else {
        None
    }
}

// Whether a line may stand at this level behind one of the last level.
fn may_follow(last: Option<u32>, level: u32) -> bool
    ensures { IsTrue result ↔ MayFollow last level }
{
    match last {
        Some(before) => 1 <= level && level - 1 <= before,
        None => level == 0,
    }
}
