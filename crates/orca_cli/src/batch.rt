//! Batches: each line of a list is answered by itself, as an item that any worker may take.
ghost use Rattle.std.specs.Prelude.{IfOk, IfErr};
ghost use Rattle.query_core.specs.Catalog.{IsCatalog};
ghost use Rattle.command_line.specs.Options.{AreSettings};
ghost use Rattle.orca_cli.specs.Batches.{IsBatch, IsLineEnd};
ghost use Rattle.orca_cli.specs.Lists.{IsListRefused};
ghost use Rattle.orca_cli.specs.Views.{EndsWith, IsListed, line_end, text_of};

use crate::asked::Listed;
use crate::batch_text::batch_ending;
use crate::ending::{End, Ending};
use crate::lists::queries_of;
use crate::queries::query_of_text;
use crate::search::searched_alone;
use batch_pool::{Batch, run_all, run_alone};
use command_line::Settings;
use job_engine::RunNote;
use orca_io::Gate;
use query_core::Catalog;
use std::alloc::{AllocError, Global};
use std::marker::Model;
use std::sync::Wait;
use std::thread::Threads;

/// The lines of a list over a catalogue.
#[derive(Drop)]
struct Lines<'b> {
    catalog: &'b Catalog,
    settings: Settings,
    lines: &'b [&'b [u8]],
}

impl<'b> Model for Lines<'b> {
    ghost use Rattle.std.specs.Prelude.{◌≤◌, length};
    ghost use Rattle.query_core.specs.Catalog.{IsCatalog};
    ghost use Rattle.command_line.specs.Options.{AreSettings};
    ghost use Rattle.orca_cli.specs.Items.{LinesOver};
    ghost use Rattle.orca_cli.specs.Views.{lines_read};

    ghost Value = { LinesOver };

    ghost view = { λ b. record { catalog = b.catalog.now; settings = b.settings; lines = lines_read b.lines.now } };

    ghost invariant = { λ b. IsCatalog b.catalog.now × AreSettings b.settings × (length b.lines.now ≤ 1000) };
}

impl<'b> Batch for Lines<'b> {
    ghost use Rattle.std.specs.Prelude.{length};
    ghost use Rattle.orca_cli.specs.Items.{EndsItem};

    type Output = Ending;

    ghost items = { λ over. length over.lines };

    ghost gives = { EndsItem };

    fn len(&self) -> u32 {
        self.lines.len() as u32
    }

    fn run(&self, alloc: Global, item: u32) -> Result<Ending, AllocError> {
        line_ending(
            alloc,
            self.catalog,
            self.settings,
            self.lines[item as usize],
        )
    }
}

// The ending of a line, whose search has a note of its own.
fn line_ending(
    alloc: Global,
    catalog: &Catalog,
    settings: Settings,
    line: &[u8],
) -> Result<Ending, AllocError>
    requires catalogue { IsCatalog catalog.now }
    requires settings { AreSettings settings }
    ensures { IfOk result (λ ending. IsLineEnd catalog.now settings line.now (line_end ending)) }
{
    let settings = Settings {
        workers: 1,
        by_worker: false,
        ..settings
    };
    match query_of_text(alloc, line, catalog, settings.options) {
        Ok(asked) => {
            let mut note = RunNote::new();
            searched_alone(alloc, settings, None, &asked, &mut note)
        }
        Err(End::Told(ending)) => Ok(ending),
        Err(End::Memory) => Err(AllocError),
    }
}

/// The ending of a batch, whose lines one worker takes; or how the run ends where its list is refused. It returns.
pub fn batch_alone(alloc: Global, settings: Settings, listed: &Listed) -> Result<Ending, End>
    requires listed { IsListed listed.now }
    requires settings { AreSettings settings }
    ensures ended { IfOk result (λ ending. IsBatch listed.now.catalog settings
        listed.now.list.items ending.status (text_of ending)) }
    ensures stops { IfErr result
        (EndsWith (IsListRefused settings.capacity listed.now.list.items)) }
{
    let lines = queries_of(alloc, &listed.list, settings.capacity)?;
    let over = Lines {
        catalog: &listed.catalog,
        settings,
        lines: &lines,
    };
    let run = run_alone(alloc, &over)?;
    Ok(batch_ending(alloc, run.outputs)?)
}

/// The same, where so many workers as are chosen take the lines.
pub fn batch_by_crew<R: Threads + Wait + Sync, G: Gate>(
    rt: &R,
    alloc: Global,
    settings: Settings,
    listed: &Listed,
    gate: &G,
) -> Result<Ending, End>
    requires listed { IsListed listed.now }
    requires settings { AreSettings settings }
    ensures ended { IfOk result (λ ending. IsBatch listed.now.catalog settings
        listed.now.list.items ending.status (text_of ending)) }
    ensures stops { IfErr result
        (EndsWith (IsListRefused settings.capacity listed.now.list.items)) }
{
    let lines = queries_of(alloc, &listed.list, settings.capacity)?;
    let over = Lines {
        catalog: &listed.catalog,
        settings,
        lines: &lines,
    };
    let run = run_all(rt, alloc, &over, settings.workers, gate)?;
    Ok(batch_ending(alloc, run.outputs)?)
}
