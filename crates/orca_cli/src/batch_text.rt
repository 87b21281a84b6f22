//! What is printed of a batch.
ghost use Rattle.std.specs.Prelude.{◌≡◌, ◌++◌, IfOk, OnOk, map, vec_len};
ghost use Rattle.orca_cli.specs.Batches.{batch_line as the_batch_line, query_line as the_query_line, texts_from};
ghost use Rattle.orca_cli.specs.Status.{status_number};
ghost use Rattle.orca_cli.specs.Views.{bytes_of_texts, line_end, text_of};

use crate::ending::Ending;
use crate::status::Status;
use std::alloc::{AllocError, Global};

/// The ending of a batch whose lines ended so.
pub fn batch_ending(alloc: Global, endings: Vec<Ending>) -> Result<Ending, AllocError>
    ensures status { IfOk result (λ made. made.status ≡ Status.Planned) }
    ensures text { IfOk result (λ made. text_of made
        ≡ the_batch_line (vec_len endings) ++ texts_from 0 (map line_end endings.items)) }
{
    let mut texts = Vec::new(alloc);
    texts.push(batch_line(alloc, endings.len() as u64)?)?;
    let mut number = 0u64;
    for ending in endings {
        texts.push(query_line(alloc, number, ending.status)?)?;
        append(&mut texts, ending.texts)?;
        number += 1;
    }
    Ok(Ending {
        status: Status::Planned,
        texts,
    })
}

// The texts, and behind them more.
fn append(texts: &mut Vec<Vec<u8>>, more: Vec<Vec<u8>>) -> Result<(), AllocError>
    ensures { OnOk result (bytes_of_texts texts.new.items
        ≡ bytes_of_texts texts.old.items ++ bytes_of_texts more.items) }
{
    for text in more {
        texts.push(text)?;
    }
    Ok(())
}

// How many queries there are.
fn batch_line(alloc: Global, queries: u64) -> Result<Vec<u8>, AllocError>
    ensures { IfOk result (λ line. line.items ≡ the_batch_line queries) }
{
    let line = format!(in alloc; "batch queries={queries}\n")?;
    Ok(line.into_bytes())
}

// The number of a query, and its status.
fn query_line(alloc: Global, number: u64, status: Status) -> Result<Vec<u8>, AllocError>
    ensures { IfOk result (λ line. line.items ≡ the_query_line number status) }
{
    let status = status.number();
    let line = format!(in alloc; "query {number} status {status}\n")?;
    Ok(line.into_bytes())
}
