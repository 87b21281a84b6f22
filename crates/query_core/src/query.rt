ghost use Rattle.std.specs.Prelude.{◌≡◌, ◌≤◌, IfOk};
ghost use Rattle.std.proofs.Props.{props};
ghost use Rattle.query_core.specs.Tables.{AreTables};
ghost use Rattle.query_core.specs.Items.{AreItems};
ghost use Rattle.query_core.specs.Conditions.{ArePredicates};
ghost use Rattle.query_core.specs.Links.{AreLinks};
ghost use Rattle.query_core.specs.Grouping.{IsGrouping};
ghost use Rattle.query_core.specs.Results.{IsOutput, IsOrder, AreOptions};

use crate::aggregate::Agg;
use crate::options::Options;
use crate::output::{OrderKey, OutItem};
use crate::predicate::{Link, Pred};
use crate::table::{Item, QueryTable};
use orca_base::List;

/// A bound query: what is to be planned.
#[derive(Drop)]
pub struct Query {
    /// How many segments the database has: 1 to 1,000.
    pub segments: u64,
    /// The tables of FROM, in text order.
    pub tables: List<QueryTable>,
    /// The columns that the query uses, each once.
    pub items: List<Item>,
    /// The predicates of WHERE, in text order.
    pub preds: List<Pred>,
    /// The pairs of tables that may be joined.
    pub links: List<Link>,
    /// Whether the query has a GROUP BY column or an aggregate.
    pub grouped: bool,
    pub group_by: List<u32>,
    pub aggs: List<Agg>,
    /// The select list, in text order.
    pub output: List<OutItem>,
    pub order: List<OrderKey>,
    pub options: Options,
    pub ghost has_segments: { 1 ≤ segments },
    pub ghost segments_fit: { segments ≤ 1000 },
    pub ghost tables_valid: { AreTables tables } by { Prim.hlevel props },
    pub ghost items_valid: { AreItems tables items } by { Prim.hlevel props },
    pub ghost preds_valid: { ArePredicates items preds } by { Prim.hlevel props },
    pub ghost links_valid: { AreLinks tables items preds links } by { Prim.hlevel props },
    pub ghost grouping_valid: { IsGrouping items grouped group_by aggs } by { Prim.hlevel props },
    pub ghost output_valid: { IsOutput items grouped group_by aggs output } by { Prim.hlevel props },
    pub ghost order_valid: { IsOrder items grouped group_by aggs order } by { Prim.hlevel props },
    pub ghost options_valid: { AreOptions options } by { Prim.hlevel props },
}
