//! The types that all layers share: the catalogue, the bound query, and the words of the search.
#![tactic(auto)]

mod aggregate;
mod ascending;
mod candidates;
mod catalog;
pub mod connected;
mod crossing;
mod expression_words;
mod expressions;
mod goal_words;
mod groups;
mod histogram;
mod holding;
mod keys;
mod links;
mod next_candidate;
mod options;
mod output;
mod predicate;
mod query;
pub mod sets;
mod splits;
mod table;
mod words;

pub use aggregate::{Agg, AggFunc};
pub use ascending::count_below;
pub use candidates::{candidates_are_in_order, candidates_are_known, groups_are_known};
pub use catalog::{Catalog, ColumnInfo, Placing, TableInfo};
pub use expression_words::expressions_are_one;
pub use expressions::{
    AFTER_JOINS, Access, Children, ExprParts, FIRST_JOIN, Logical, Operator, Physical, PhysicalExpr,
};
pub use goal_words::goals_are_one;
pub use histogram::{Bucket, Histogram};
pub use holding::table_in;
pub use keys::{FIRST_SET_KEY, KEYS, ONE_TABLE_KEYS};
pub use links::{links_are_one, links_of};
pub use next_candidate::bound_after;
pub use options::{Options, RootDist};
pub use output::{OrderKey, OutItem};
pub use predicate::{CmpOp, Link, Operand, Pred};
pub use query::Query;
pub use splits::sides_are_known;
pub use table::{Item, QueryTable};
pub use words::{Expr, Goal, GoalParts, Key, KeyParts};
