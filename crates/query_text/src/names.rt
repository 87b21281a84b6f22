//! The names of operators.
#![tactic(auto)]

ghost use Rattle.std.specs.Prelude.{◌≡◌};
ghost use Rattle.query_text.specs.Names.{physical_name};

use query_core::Physical;

/// The name of a physical operator.
pub fn name_of_operator(operator: Physical) -> &'static str
    ensures { result.now ≡ physical_name operator }
{
    match operator {
        Physical::Scan => "Scan",
        Physical::IndexScan(_) => "IndexScan",
        Physical::Filter(_) => "Filter",
        Physical::IndexSeek(_) => "IndexSeek",
        Physical::HashJoin(_, _) => "HashJoin",
        Physical::MergeJoin(_, _) => "MergeJoin",
        Physical::LoopJoin(_, _) => "LoopJoin",
        Physical::HashAgg(_) => "HashAgg",
        Physical::StreamAgg(_) => "StreamAgg",
        Physical::PartialAgg(_) => "PartialAgg",
    }
}
