//! Small queries for tests, on 4 segments. Each is a text over tables, read and bound as any query is.
#![tactic(auto)]

mod groupings;
mod joins;
mod props;
mod single;
mod told;
mod worked;

pub use groupings::{filtered_count, grouped, hashed_count, per_group, totals};
pub use joins::{
    chain, chain_of_four, chain_of_four_without, compared_tables, cross_product, cycle,
    cycle_of_four_predicates, hashed_alike, huge_tables, large_and_small, one_linked_pair,
    one_linked_pair_without, star_of_four, star_of_four_without, two_equalities, two_tables,
    two_tables_descending, without_a_plan,
};
pub use props::{implied, props_of};
pub use single::{filtered_table, one_table, ranged_table, sorted_table, three_indexes};
pub use told::{JOIN_MEMO, SCAN_BY_WORKER, SCAN_ROOT, SCAN_TRACE};
pub use worked::query_over;
