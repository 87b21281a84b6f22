//! The queries of a batch, as items of a pool.
use crate::outcome::{ListedOutcome, listed};
use batch_pool::Batch;
use job_engine::{RunNote, search_alone};
use query_core::Query;
use request_props::Props;
use std::alloc::{AllocError, Global};
use std::marker::Model;

/// Queries with their props. Contracts see the queries and the capacity.
#[derive(Drop)]
pub(crate) struct QueryBatch<'q> {
    pub queries: &'q [Query],
    pub props: &'q [Props],
    pub capacity: u32,
}

impl<'q> Model for QueryBatch<'q> {
    ghost use Rattle.std.specs.Prelude.{ℕ, ◌≤◌, ◌^◌, length};
    ghost use Rattle.std.specs.Prelude.{List as AnyList};
    ghost use Rattle.query_core.specs.declared.query.Query.{Query};
    ghost use Rattle.batch_search.specs.Batches.{AreProps};

    ghost Value = { AnyList Query × ℕ };

    ghost view = { λ b. (b.queries.now, b.capacity) };

    ghost invariant = { λ b. (length b.queries.now ≤ 1000) × AreProps b.queries.now b.props.now
        × (1 ≤ b.capacity) × (b.capacity ≤ 2 ^ 20) };
}

impl<'q> Batch for QueryBatch<'q> {
    ghost use Rattle.std.specs.Prelude.{length};
    ghost use Rattle.batch_search.specs.Batches.{EndsItem};

    type Output = ListedOutcome;

    ghost items = { λ b. length b.0 };

    ghost gives = { λ b item outcome. EndsItem b.0 b.1 item outcome };

    fn len(&self) -> u32 {
        self.queries.len() as u32
    }

    fn run(&self, alloc: Global, item: u32) -> Result<ListedOutcome, AllocError> {
        let at = item as usize;
        let mut note = RunNote::new();
        let outcome = search_alone(
            alloc,
            &self.queries[at],
            &self.props[at],
            self.capacity,
            &mut note,
        )?;
        listed(alloc, outcome)
    }
}
