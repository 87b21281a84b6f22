//! The engine, what its board gives, what it finds against the plain search and a listing of all plans; tests alone.
#![tactic(auto)]

#[cfg(test)]
mod answer_tests;
#[cfg(test)]
mod child_tests;
#[cfg(test)]
mod gate_tests;
#[cfg(test)]
mod listing;
#[cfg(test)]
mod listing_tests;
#[cfg(test)]
mod outcome_tests;
#[cfg(test)]
mod ranked;
#[cfg(test)]
mod run_tests;
#[cfg(test)]
mod searches;
#[cfg(test)]
mod settled_tests;
#[cfg(test)]
mod thread_tests;
#[cfg(test)]
mod trace_tests;
#[cfg(test)]
mod turn_tests;
