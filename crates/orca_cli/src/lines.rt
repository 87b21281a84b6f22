//! What is printed of a query that was generated: first lines.
ghost use Rattle.std.specs.Prelude.{◌≡◌, ◌++◌, IfOk};
ghost use Rattle.command_line.specs.Command.{shape_word};
ghost use Rattle.orca_cli.specs.Searches.{IsSearch};
ghost use Rattle.orca_cli.specs.Sections.{HasFirstLines, first_line as the_first_line, gen_line as the_gen_line};
ghost use Rattle.orca_cli.specs.Sections.{gen_words as the_gen_words};
ghost use Rattle.orca_cli.specs.Views.{text_of};

use crate::answer::Search;
use crate::ending::Ending;
use crate::planning::PlanLines;
use crate::sections::{memo_first_line, trace_first_line};
use command_line::{GenInput, Settings};
use query_generator::GenShape;
use std::alloc::{AllocError, Global};

/// What was generated, and the first lines of the plan, of the memo and of the trace.
pub fn with_first_lines(
    alloc: Global,
    input: GenInput,
    settings: Settings,
    search: Search<'_>,
    plan: PlanLines,
) -> Result<Ending, AllocError>
    requires { IsSearch search settings.workers }
    ensures status { IfOk result (λ made. made.status ≡ plan.status) }
    ensures text { IfOk result (λ made. HasFirstLines input search.entry.query.now
        plan.lines.items (text_of made)) }
{
    let memo = memo_first_line(alloc, settings, search)?;
    let trace = trace_first_line(alloc, settings, search)?;
    let line = gen_line(alloc, input)?;
    let text = with_lines_of(line, &plan.lines, &memo, &trace)?;
    Ending::of(alloc, plan.status, text)
}

// The text, and behind it the plan's first line and those of the memo and of the trace.
fn with_lines_of(
    front: Vec<u8>,
    plan: &[u8],
    memo: &[u8],
    trace: &[u8],
) -> Result<Vec<u8>, AllocError>
    ensures { IfOk result (λ text. text.items
        ≡ front.items ++ the_first_line plan.now ++ memo.now ++ trace.now) }
{
    let mut text = front;
    text.extend_from_slice(first_line(plan))?;
    text.extend_from_slice(memo)?;
    text.extend_from_slice(trace)?;
    Ok(text)
}

// The line of what was generated.
fn gen_line(alloc: Global, input: GenInput) -> Result<Vec<u8>, AllocError>
    ensures { IfOk result (λ line. line.items ≡ the_gen_line input) }
{
    let shape = shape_name(input.shape);
    line_with(alloc, input.number, input.tables, shape)
}

// The same with the word of the shape.
fn line_with(alloc: Global, number: u64, tables: u32, shape: &str) -> Result<Vec<u8>, AllocError>
    ensures { IfOk result (λ line. line.items ≡ the_gen_words number tables shape.now) }
{
    let line = format!(in alloc; "gen number={number} tables={tables} shape={shape}\n")?;
    Ok(line.into_bytes())
}

// The word of a shape.
fn shape_name(shape: GenShape) -> &'static str
    ensures { result.now ≡ shape_word shape }
{
    match shape {
        GenShape::Chain => "chain",
        GenShape::Star => "star",
        GenShape::Clique => "clique",
    }
}

// The text up to its first line feed.
fn first_line(text: &[u8]) -> &[u8]
    ensures { result.now ≡ the_first_line text.now }
{
    for (at, byte) in text.iter().enumerate() {
        if *byte == b'\n' {
            return &text[..at + 1];
        }
    }
    text
}
