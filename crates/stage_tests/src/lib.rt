//! Queries planned in stages; tests alone.
#![tactic(auto)]

#[cfg(test)]
mod stage_tests;
