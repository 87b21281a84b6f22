//! Texts planned over catalogues in JSON; tests alone.
#![tactic(auto)]

#[cfg(test)]
mod plan_tests;
