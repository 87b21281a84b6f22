//! The sections that may stand behind the plan.
ghost use Rattle.std.specs.Prelude.{ℕ, ◌≡◌, ◌++◌, List, false, IfOk};
ghost use Rattle.query_core.specs.declared.query.Query.{Query as AnyQuery};
ghost use Rattle.orca_cli.specs.Searches.{IsSearch};
ghost use Rattle.orca_cli.specs.Sections.{GoesOn, IsBehind, IsByWorker, IsMemo, IsSectionText, IsTrace};
ghost use Rattle.orca_cli.specs.Sections.{StartsMemo, StartsTrace, is_asked as the_is_asked};
ghost use Rattle.orca_cli.specs.Views.{text_of};

use crate::answer::Search;
use crate::ending::Ending;
use crate::planning::PlanLines;
use command_line::Settings;
use goal_children::{children_are_over_the_query, goal_lists_are_known};
use job_trace::{crew_text, memo_line, memo_text, trace_line, trace_text};
use std::alloc::{AllocError, Global};
use xform_rules::members_are_known;

/// What may be asked for behind the plan.
#[derive(Clone, Copy)]
pub enum Section {
    /// The groups and their members.
    Memo,
    /// The goals, each with those that it waits for.
    Trace,
    /// The goals, each with the worker that finished it.
    ByWorker,
}

/// Whether the command asks for a section.
pub fn asks_for_sections(settings: Settings) -> bool
    ensures none { result ≡ false → (query : AnyQuery) (front : List ℕ) → GoesOn settings query front front }
{
    settings.memo || settings.trace || settings.by_worker
}

/// The plan, and behind it the sections that are asked for.
pub fn with_sections(
    alloc: Global,
    settings: Settings,
    search: Search<'_>,
    plan: PlanLines,
) -> Result<Ending, AllocError>
    requires { IsSearch search settings.workers }
    ensures status { IfOk result (λ made. made.status ≡ plan.status) }
    ensures text { IfOk result
        (λ made. GoesOn settings search.entry.query.now plan.lines.items (text_of made)) }
{
    let ending = Ending::of(alloc, plan.status, plan.lines)?;
    let ending = with_section(alloc, Section::Memo, settings, search, ending)?;
    let ending = with_section(alloc, Section::Trace, settings, search, ending)?;
    with_section(alloc, Section::ByWorker, settings, search, ending)
}

// The ending, and the section behind it where it is asked for.
fn with_section(
    alloc: Global,
    section: Section,
    settings: Settings,
    search: Search<'_>,
    ending: Ending,
) -> Result<Ending, AllocError>
    requires { IsSearch search settings.workers }
    ensures status { IfOk result (λ made. made.status ≡ ending.status) }
    ensures text { IfOk result
        (λ made. IsBehind settings search.entry.query.now section (text_of ending) (text_of made)) }
{
    if section.is_asked(settings) {
        let text = section.text(alloc, settings, search)?;
        followed(ending, text)
    } else {
        Ok(ending)
    }
}

impl Section {
    // Whether the command asks for it.
    fn is_asked(self, settings: Settings) -> bool
        ensures { result ≡ the_is_asked settings self }
    {
        match self {
            Section::Memo => settings.memo,
            Section::Trace => settings.trace,
            Section::ByWorker => settings.by_worker,
        }
    }

    // The bytes of its text.
    fn text(
        self,
        alloc: Global,
        settings: Settings,
        search: Search<'_>,
    ) -> Result<Vec<u8>, AllocError>
        requires { IsSearch search settings.workers }
        ensures { IfOk result
            (λ text. IsSectionText settings search.entry.query.now self text.items) }
    {
        match self {
            Section::Memo => memo_section(alloc, settings, search),
            Section::Trace => trace_section(alloc, settings, search),
            Section::ByWorker => crew_section(alloc, settings, search),
        }
    }
}

// The bytes of the memo's text.
fn memo_section(
    alloc: Global,
    settings: Settings,
    search: Search<'_>,
) -> Result<Vec<u8>, AllocError>
    requires { IsSearch search settings.workers }
    ensures { IfOk result (λ text. IsMemo search.entry.query.now text.items) }
{
    // The words of members are those of expressions that groups can hold.
    members_are_known();
    memo_text(alloc, search.query, search.members)
}

// The bytes of the trace's text.
fn trace_section(
    alloc: Global,
    settings: Settings,
    search: Search<'_>,
) -> Result<Vec<u8>, AllocError>
    requires { IsSearch search settings.workers }
    ensures { IfOk result (λ text. IsTrace search.entry.query.now text.items) }
{
    // The words of members are those of expressions that groups can hold, and those of goals are over these.
    members_are_known();
    goal_lists_are_known();
    let Search {
        query,
        props,
        members,
        goals,
        who: _,
    } = search;
    trace_text(alloc, query, props, members, goals)
}

// The bytes of the text by worker.
fn crew_section(
    alloc: Global,
    settings: Settings,
    search: Search<'_>,
) -> Result<Vec<u8>, AllocError>
    requires { IsSearch search settings.workers }
    ensures { IfOk result
        (λ text. IsByWorker search.entry.query.now settings.workers text.items) }
{
    // The words of goals are those of goals over the query.
    goal_lists_are_known();
    crew_text(alloc, search.query, search.props, search.goals, search.who)
}

/// The bytes of the first line of the memo's text.
pub fn memo_first_line(
    alloc: Global,
    settings: Settings,
    search: Search<'_>,
) -> Result<Vec<u8>, AllocError>
    requires { IsSearch search settings.workers }
    ensures { IfOk result (λ line. StartsMemo search.entry.query.now line.items) }
{
    // The words of members are those of expressions that groups can hold.
    members_are_known();
    memo_line(alloc, search.query, search.members)
}

/// The bytes of the first line of the trace's text.
pub fn trace_first_line(
    alloc: Global,
    settings: Settings,
    search: Search<'_>,
) -> Result<Vec<u8>, AllocError>
    requires { IsSearch search settings.workers }
    ensures { IfOk result (λ line. StartsTrace search.entry.query.now line.items) }
{
    // The words of goals are those of goals over the query, which have words.
    goal_lists_are_known();
    children_are_over_the_query();
    trace_line(alloc, search.goals)
}

// The ending with one more text behind its own.
fn followed(ending: Ending, section: Vec<u8>) -> Result<Ending, AllocError>
    ensures status { IfOk result (λ made. made.status ≡ ending.status) }
    ensures text { IfOk result
        (λ made. text_of made ≡ text_of ending ++ section.items) }
{
    let mut texts = ending.texts;
    texts.push(section)?;
    Ok(Ending {
        status: ending.status,
        texts,
    })
}
