//! The rules that turn group expressions into others of the same group.
#![tactic(auto)]

mod closure;
mod expand_n_ary;
mod implemented;
mod join_associate;
mod join_commute;
mod joins_held;
mod laws;
mod membership;
mod one_order;
mod results;
mod rules;
mod split_agg;
mod splits;
mod usable_indexes;
mod words;

pub use closure::{members_are_known, members_of, words_of};
pub use implemented::implementing_rules;
pub use laws::{
    members_are_candidates, results_are_candidates, results_are_known, rules_are_known,
};
pub use membership::{in_closure, in_closure_at};
pub use results::{applies_at, exploring_rules, result_at};
pub use rules::{Condition, Exploration, Rule, Work, rule_named, rule_of};
pub use splits::splits_are_complete;
pub use words::{applies, nth_result};
