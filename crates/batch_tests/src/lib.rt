//! Batches of numbers, and of queries; tests alone.
#![tactic(auto)]

#[cfg(test)]
mod pool_tests;
#[cfg(test)]
mod search_tests;
