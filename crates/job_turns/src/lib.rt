//! The turns of the jobs: what each kind of goal does once it is claimed.
#![tactic(auto)]

mod board_search;
mod enforcers;
mod equated_joins;
mod expressions;
mod group_members;
mod groups;
mod job_turn;
mod known_best;
mod laws;
mod made_joins;
mod members;
mod modes;
mod one_turn;
mod operator_rules;
mod over_query;
mod requests;
mod rule_results;
mod words;

pub use board_moves::{Settled, Turned};
pub use board_search::BoardSearch;
pub use groups::settled;
pub use one_turn::turn;
