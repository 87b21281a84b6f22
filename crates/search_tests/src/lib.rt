//! Worked queries: what they imply, rules, plans and the check of plans, printed texts, words of goals; tests alone.
#![tactic(auto)]

#[cfg(test)]
mod closure_tests;
#[cfg(test)]
mod cost_tests;
#[cfg(test)]
mod goal_word_tests;
#[cfg(test)]
mod grouped_node_tests;
#[cfg(test)]
mod histogram_tests;
#[cfg(test)]
mod least_tests;
#[cfg(test)]
mod limits_tests;
#[cfg(test)]
mod made_tests;
#[cfg(test)]
mod membership_tests;
#[cfg(test)]
mod memo_tests;
#[cfg(test)]
mod node_tests;
#[cfg(test)]
mod nodes;
#[cfg(test)]
mod outer_columns_tests;
#[cfg(test)]
mod plan_check_tests;
#[cfg(test)]
mod plan_text_tests;
#[cfg(test)]
mod props_tests;
#[cfg(test)]
mod query_words_tests;
#[cfg(test)]
mod replicated_tests;
#[cfg(test)]
mod rows_tests;
#[cfg(test)]
mod rules_tests;
#[cfg(test)]
mod texts;
