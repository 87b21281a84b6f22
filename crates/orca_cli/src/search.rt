//! The search of a query, and the ending of a run by what it gives.
ghost use Rattle.std.specs.Prelude.{◌≡◌, None, IfOk};
ghost use Rattle.request_props.specs.Numbered.{IsProps};
ghost use Rattle.command_line.specs.Numbers.{IsWithin};
ghost use Rattle.command_line.specs.Options.{AreSettings};
ghost use Rattle.orca_cli.specs.Answers.{IsSearchEnd};
ghost use Rattle.orca_cli.specs.Dumps.{replay_settings as the_replay_settings};
ghost use Rattle.orca_cli.specs.Sections.{Tells};
ghost use Rattle.orca_cli.specs.Views.{IsReplayable, text_of};

use crate::answer::ending_of;
use crate::asked::{Asked, Replayed};
use crate::dumps::replay_settings;
use crate::ending::Ending;
use command_line::{GenInput, Settings};
use job_engine::{RunNote, search_alone, search_by_crew};
use orca_io::Gate;
use std::alloc::{AllocError, Global};
use std::sync::Wait;
use std::thread::Threads;

/// The ending of a query that one worker searches. It returns.
pub fn searched_alone(
    alloc: Global,
    settings: Settings,
    generated: Option<GenInput>,
    asked: &Asked,
    note: &mut RunNote,
) -> Result<Ending, AllocError>
    requires props { IsProps asked.now.query asked.now.props }
    requires settings { AreSettings settings }
    requires alone { settings.workers ≡ 1 }
    ensures { IfOk result
        (λ ending. IsSearchEnd (Tells generated settings asked.now.query) settings
        asked.now.query note.new ending.status (text_of ending)) }
{
    let outcome = search_alone(alloc, &asked.query, &asked.props, settings.capacity, note)?;
    ending_of(alloc, settings, generated, asked, &outcome)
}

/// The ending of a query that the workers search whom the command chooses.
pub fn searched_by_crew<R: Threads + Wait + Sync, G: Gate>(
    rt: &R,
    alloc: Global,
    settings: Settings,
    generated: Option<GenInput>,
    asked: &Asked,
    gate: &G,
    note: &mut RunNote,
) -> Result<Ending, AllocError>
    requires props { IsProps asked.now.query asked.now.props }
    requires settings { AreSettings settings }
    ensures { IfOk result
        (λ ending. IsSearchEnd (Tells generated settings asked.now.query) settings
        asked.now.query note.new ending.status (text_of ending)) }
{
    let outcome = search_by_crew(
        rt,
        alloc,
        &asked.query,
        &asked.props,
        settings.capacity,
        settings.workers,
        gate,
        note,
    )?;
    ending_of(alloc, settings, generated, asked, &outcome)
}

/// The ending of a dump's query that one worker searches, with what the dump chooses. It returns.
pub fn replayed_alone(
    alloc: Global,
    workers: u32,
    replayed: &Replayed,
    note: &mut RunNote,
) -> Result<Ending, AllocError>
    requires ready { IsReplayable replayed.now }
    requires alone { workers ≡ 1 }
    ensures { IfOk result
        (λ ending. IsSearchEnd
        (Tells None (the_replay_settings replayed.now.options workers) replayed.now.asked.query)
        (the_replay_settings replayed.now.options workers) replayed.now.asked.query note.new
        ending.status (text_of ending)) }
{
    let settings = replay_settings(replayed.options, workers);
    searched_alone(alloc, settings, None, &replayed.asked, note)
}

/// The same by as many workers.
pub fn replayed_by_crew<R: Threads + Wait + Sync, G: Gate>(
    rt: &R,
    alloc: Global,
    workers: u32,
    replayed: &Replayed,
    gate: &G,
    note: &mut RunNote,
) -> Result<Ending, AllocError>
    requires ready { IsReplayable replayed.now }
    requires workers { IsWithin 1 64 workers }
    ensures { IfOk result
        (λ ending. IsSearchEnd
        (Tells None (the_replay_settings replayed.now.options workers) replayed.now.asked.query)
        (the_replay_settings replayed.now.options workers) replayed.now.asked.query note.new
        ending.status (text_of ending)) }
{
    let settings = replay_settings(replayed.options, workers);
    searched_by_crew(rt, alloc, settings, None, &replayed.asked, gate, note)
}
