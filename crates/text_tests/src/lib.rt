//! Printed plans of the running example, read back and judged; tests alone.
#![tactic(auto)]

#[cfg(test)]
mod tests;
