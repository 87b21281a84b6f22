//! The lines of stages.
ghost use Rattle.std.specs.Prelude.{◌≡◌, IfOk};
ghost use Rattle.orca_cli.specs.Staged.{ran_line as the_ran_line, stage_line as the_stage_line};
ghost use Rattle.orca_cli.specs.Staged.{stage_lines as the_stage_lines};
ghost use Rattle.orca_cli.specs.Views.{bytes_of_texts};

use orca_base::List;
use std::alloc::{AllocError, Global};

/// How many stages ran, and a line for each, one behind the other.
pub fn stage_lines(alloc: Global, ran: &List<Option<u64>>) -> Result<Vec<Vec<u8>>, AllocError>
    ensures { IfOk result (λ texts. bytes_of_texts texts.items ≡ the_stage_lines ran.now) }
{
    let mut texts = Vec::new(alloc);
    texts.push(ran_line(alloc, ran.len() as u64)?)?;
    for (number, cost) in ran.as_slice().iter().enumerate() {
        texts.push(stage_line(alloc, number as u64, *cost)?)?;
    }
    Ok(texts)
}

// How many stages ran.
fn ran_line(alloc: Global, ran: u64) -> Result<Vec<u8>, AllocError>
    ensures { IfOk result (λ line. line.items ≡ the_ran_line ran) }
{
    let line = format!(in alloc; "stages ran={ran}\n")?;
    Ok(line.into_bytes())
}

// The number of a stage, and what its least plan costs, or that it has none.
fn stage_line(alloc: Global, number: u64, cost: Option<u64>) -> Result<Vec<u8>, AllocError>
    ensures { IfOk result (λ line. line.items ≡ the_stage_line number cost) }
{
    let line = match cost {
        Some(cost) => format!(in alloc; "stage {number} cost {cost}\n")?,
        None => format!(in alloc; "stage {number} no plan\n")?,
    };
    Ok(line.into_bytes())
}
