//! The children of a goal, one after the other.
#![tactic(auto)]

mod asked;
mod children;
mod choice;
mod expressions;
mod finding;
mod group_members;
mod jobs;
mod laws;
mod lists;
mod members;
mod memo;
mod words;

pub use children::child;
pub use finding::known_goal;
pub use group_members::{GroupMembers, put_expressions};
pub use laws::{
    children_are_one, children_are_over_the_query, goal_lists_are_known, goals_are_over_the_query,
};
pub use lists::list_children_by_group;
pub use words::put_goals;
