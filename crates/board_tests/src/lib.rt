//! What sets of words, the board's calls and the hints of places do: tests, and the rules of their boards.
#![tactic(auto)]

#[cfg(test)]
mod call_tests;
#[cfg(test)]
mod hint_tests;
mod numbers;
#[cfg(test)]
mod word_tests;

pub use numbers::Numbers;
