//! The engine of a query's search: a board of its members and goals, and the turns of its goals.
#![tactic(auto)]

ghost use Rattle.std.specs.Prelude.{◌≡◌, ◌<◌, ◌≤◌, ◌^◌, IfOk, OnErr};
ghost use Rattle.std.specs.Coded.{Coded-set};
ghost use Rattle.query_core.specs.Goals.{goal_bit};
ghost use Rattle.request_props.specs.Numbered.{IsProps};
ghost use Rattle.board_rule.specs.Looks.{ShowsFull};
ghost use Rattle.board_rule.specs.Seats.{parted, part, joined};
ghost use Rattle.goal_board.specs.Seats.{hands};
ghost use Rattle.goal_space.specs.Words.{goal_word};
ghost use Rattle.goal_space.specs.Goals.{root_goal_of};

use crate::query_turns::QueryTurns;
use goal_rules::Rules;
use goal_space::{GoalKind, goals_are_known, goals_ask_for_members};
use job_outcome::{Outcome, outcome_of};
use job_scheduler::{Scheduler, Stepped, Worker};
use plan_space::root_request_is_collected;
use query_core::{Goal, Query};
use request_props::Props;
use std::alloc::{AllocError, Global};

/// The search of a query until its root's goal is finished, or the board is full. Its capacity is how many entries the
/// query may have. The board may have fewer cells.
#[derive(Drop)]
pub struct Engine<'q> {
    pub(crate) scheduler: Scheduler<Rules<'q>, QueryTurns<'q>>,
    pub(crate) rules: Rules<'q>,
    pub(crate) root: Goal,
    pub(crate) cells: u32,
    pub(crate) capacity: u32,
    ghost of_rules: { scheduler.board.setup.rules ≡ rules } by { Coded-set rules-code scheduler.board.setup.rules rules },
    ghost same_cells: { scheduler.board.setup.capacity ≡ cells },
    ghost same_goal: { scheduler.goal ≡ root.0 },
    ghost its_root: { root.0 ≡ goal_word (root_goal_of rules.query.now) },
    ghost few: { cells ≤ 2 ^ 20 },
}

impl<'q> Engine<'q> {
    ghost use Rattle.job_scheduler.specs.Steps.{Keeps};
    ghost use Rattle.job_scheduler.specs.declared.stepped.Stepped.TheVariants as stepped;
    ghost use Rattle.job_outcome.specs.Outcomes.{IsDoneCase, IsFullCase};
    ghost use Rattle.job_engine.specs.Searching.{query_of, IsWorker, IsFresh, ShowsRoot};
    ghost use Rattle.job_engine.specs.Searching.{StepsIn, StepsAloneIn, GivesFor};

    /// A search with a board of `capacity` cells, and its first worker, whose number is 0. All memory of the search is
    /// taken here, but for that of hints.
    pub fn start(
        alloc: Global,
        query: &'q Query,
        props: &'q Props,
        capacity: u32,
    ) -> Result<(Engine<'q>, Worker<Rules<'q>>), AllocError>
        requires props { IsProps query.now props.now }
        requires capacity { (1 ≤ capacity) × (capacity ≤ 2 ^ 20) }
        ensures query { IfOk result (λ made. query_of made.0 ≡ query.now) }
        ensures capacity { IfOk result (λ made. (made.0.capacity ≡ capacity) × (made.0.cells ≡ capacity)) }
        ensures worker { IfOk result (λ made. IsFresh made.0 made.1) }
    {
        Engine::start_on(alloc, query, props, capacity, capacity)
    }

    // The same with a board of `cells` cells, for a query that may have `capacity` entries.
    pub(crate) fn start_on(
        alloc: Global,
        query: &'q Query,
        props: &'q Props,
        cells: u32,
        capacity: u32,
    ) -> Result<(Engine<'q>, Worker<Rules<'q>>), AllocError>
        requires props { IsProps query.now props.now }
        requires cells { (1 ≤ cells) × (cells ≤ 2 ^ 20) }
        ensures query { IfOk result (λ made. query_of made.0 ≡ query.now) }
        ensures capacity { IfOk result (λ made. (made.0.capacity ≡ capacity) × (made.0.cells ≡ cells)) }
        ensures worker { IfOk result (λ made. IsFresh made.0 made.1) }
    {
        let rules = Rules::new(query, props);
        let root = root_word(query, props);
        let turns = QueryTurns { rules, props };
        let (scheduler, worker) = Scheduler::start(alloc, rules, turns, root.0, cells)?;
        let engine = Engine {
            scheduler,
            rules,
            root,
            cells,
            capacity,
        };
        Ok((engine, worker))
    }

    /// Claims one goal that is ready and makes its turn, or tells why there is none. It waits for nobody and takes no
    /// memory that it can't do without.
    pub fn step(&self, worker: &mut Worker<Rules<'q>>) -> Stepped
        requires worker { IsWorker self.now worker.old }
        ensures worker { IsWorker self.now worker.new }
        ensures number { worker.new.number ≡ worker.old.number }
        ensures keeps { Keeps (hands worker.old.seat) (hands worker.new.seat) }
        ensures steps { StepsIn self.now worker.old.number (hands worker.old.seat)
            result (hands worker.new.seat) }
        ensures alone { StepsAloneIn self.now (hands worker.old.seat) result (hands worker.new.seat) }
        ensures closed { ShowsRoot self.now (hands worker.old.seat) → result ≡ stepped.Done }
        ensures full { ShowsFull (hands worker.old.seat).looks → result ≡ stepped.Full }
    {
        // For the proof: each member is asked for by a goal, so where the root's goal is finished no entry is
        // missing.
        goals_ask_for_members();
        self.scheduler.step(worker)
    }

    /// A new worker with this number, which has seen what this one has.
    pub fn split(
        &self,
        alloc: Global,
        worker: &mut Worker<Rules<'q>>,
        number: u32,
    ) -> Result<Worker<Rules<'q>>, AllocError>
        requires worker { IsWorker self.now worker.old }
        requires parts { 2 ≤ (hands worker.old.seat).parts }
        requires number { number < 64 }
        ensures this { IsWorker self.now worker.new }
        ensures other { IfOk result (λ other. IsWorker self.now other) }
        ensures number { IfOk result (λ other. other.number ≡ number) }
        ensures left { IfOk result (λ other. hands worker.new.seat ≡ parted (hands worker.old.seat)) }
        ensures right { IfOk result (λ other. hands other.seat ≡ part (hands worker.old.seat)) }
        ensures same { worker.new.number ≡ worker.old.number }
        ensures err { OnErr result (hands worker.new.seat ≡ hands worker.old.seat) }
    {
        self.scheduler.split(alloc, worker, number)
    }

    /// Takes in another worker. Its hints are dropped.
    pub fn join(&self, worker: &mut Worker<Rules<'q>>, other: Worker<Rules<'q>>)
        requires worker { IsWorker self.now worker.old }
        requires other { IsWorker self.now other }
        ensures worker { IsWorker self.now worker.new }
        ensures hands { hands worker.new.seat ≡ joined (hands worker.old.seat) (hands other.entry.seat) }
        ensures same { worker.new.number ≡ worker.old.number }
    {
        self.scheduler.join(worker, other)
    }

    /// Ends the search, whose last worker this is.
    pub fn close(self, worker: Worker<Rules<'q>>) -> Outcome
        requires worker { IsWorker self worker }
        requires parts { (hands worker.seat).parts ≡ 64 }
        ensures gives { GivesFor self.entry (hands worker.entry.seat) result }
        ensures finished { ShowsRoot self.entry (hands worker.entry.seat) → IsDoneCase result }
        ensures full { ShowsFull (hands worker.entry.seat).looks → IsFullCase result }
    {
        let Engine {
            scheduler,
            rules,
            root,
            cells,
            capacity: _,
        } = self;
        outcome_of(&rules, root, cells, scheduler.close(worker))
    }
}

// The word of the goal of the whole query.
fn root_word(query: &Query, props: &Props) -> Goal
    requires { IsProps query.now props.now }
    ensures number { result.0 ≡ goal_word (root_goal_of query.now) }
    ensures high { goal_bit ≤ result.0 }
{
    // For the proof: what was collected for the whole query is what is asked of it, and its goals have words.
    root_request_is_collected();
    goals_are_known();
    GoalKind::Opt(query.group(query.root()), props.root).word()
}
