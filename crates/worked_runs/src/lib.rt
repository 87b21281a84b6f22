//! Whole runs of the top call over worked catalogues and queries; tests alone.
#![tactic(auto)]

#[cfg(test)]
mod batch_tests;
#[cfg(test)]
mod check_tests;
#[cfg(test)]
mod crew_tests;
#[cfg(test)]
mod dump_tests;
#[cfg(test)]
mod failing_tests;
#[cfg(test)]
mod gate_tests;
#[cfg(test)]
mod gen_tests;
#[cfg(test)]
mod grouped_tests;
#[cfg(test)]
mod join_tests;
#[cfg(test)]
mod memo_tests;
#[cfg(test)]
mod option_tests;
#[cfg(test)]
mod runs;
#[cfg(test)]
mod stages_tests;
#[cfg(test)]
mod tests;
