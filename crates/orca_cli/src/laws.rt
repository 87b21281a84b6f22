//! What follows from how commands are read, and how runs end.
ghost use Rattle.orca_cli.specs.Causes.{EndsHaveCauses};
ghost use Rattle.orca_cli.specs.DumpCauses.{EndsHaveDumpCauses};
ghost use Rattle.orca_cli.specs.Laws.{BindsOnce, LinesAsPlanned, OneBatch, OneCheck, OneGenerated, OneOutcome};
ghost use Rattle.orca_cli.specs.Laws.{OneStages};
ghost use Rattle.orca_cli.specs.DumpLaws.{DumpsReplay, OneReplay, ReplaysAsPlanned};

use dump_replay::{dumps_are_one, dumps_bind_alike};
use goal_children::goal_lists_are_known;
use job_outcome::entries_fit_or_not;
use job_trace::{memos_are_known, traces_are_known};
use plan_space::least_is_one;
use query_core::links_are_one;
use stage_plan::stages_have_one_answer;
use text_check::outcomes_are_one;
use xform_rules::members_are_known;

/// The status and the text of a run are determined by what the two files hold, as long as no read
/// fails and memory lasts: no other run over the same bytes ends in another way, by however many
/// workers, but for their numbers in the lines by worker. Those of `gen` are determined by what it is
/// given. Those of stages are determined by the files and the stages, and those of a check by its three
/// files. Those of a batch are determined by its files, and each of its lines ends as a plan of that line.
pub fn one_outcome()
    ensures outcome { OneOutcome }
    ensures generated { OneGenerated }
    ensures stages { OneStages }
    ensures batch { OneBatch }
    ensures lines { LinesAsPlanned }
    ensures check { OneCheck }
{
    least_is_one();
    entries_fit_or_not();
    sql_reader::one_outcome();
    links_are_one();
    members_are_known();
    memos_are_known();
    goal_lists_are_known();
    traces_are_known();
    stages_have_one_answer();
    outcomes_are_one();
}

/// A text is bound once for all stages: with the rules of a stage off it asks for the query in that stage.
pub fn stages_are_bound_once()
    ensures { BindsOnce }
{}

/// A replay ends as a plan of what its dump says, by however many workers. So the replay of a dump that
/// was written ends as a plan of what was dumped.
pub fn replays_are_plans()
    ensures planned { ReplaysAsPlanned }
    ensures one { OneReplay }
    ensures dumped { DumpsReplay }
{
    least_is_one();
    entries_fit_or_not();
    sql_reader::one_outcome();
    links_are_one();
    members_are_known();
    memos_are_known();
    goal_lists_are_known();
    traces_are_known();
    dumps_are_one();
    dumps_bind_alike();
}

/// What follows from how a run ends: it is complete, and each status has its causes.
pub fn endings_have_causes()
    ensures causes { EndsHaveCauses }
    ensures dumps { EndsHaveDumpCauses }
{
    // A text asks for one query, or has one fault, a query has room or not, and a plan's text has one outcome.
    sql_reader::one_outcome();
    links_are_one();
    entries_fit_or_not();
    outcomes_are_one();
    // A text says one dump, or has one fault.
    dumps_are_one();
}
