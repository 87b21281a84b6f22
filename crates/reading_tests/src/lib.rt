//! What is read, and what is written to be read: catalogues, queries, the words of a command, and their files; tests
//! alone.
#![tactic(auto)]

#[cfg(test)]
mod bind_tests;
#[cfg(test)]
mod catalog_tests;
#[cfg(test)]
mod command_tests;
#[cfg(test)]
mod dump_tests;
#[cfg(test)]
mod generator_tests;
#[cfg(test)]
mod io_tests;
#[cfg(test)]
mod print_tests;
#[cfg(test)]
mod sql_tests;
#[cfg(test)]
mod texts;
#[cfg(test)]
mod version_two_tests;
#[cfg(test)]
mod written_tests;
