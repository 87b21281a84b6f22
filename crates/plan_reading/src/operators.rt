//! Operators over other groups, and the list of all operators.
#![tactic(auto)]

ghost use Rattle.std.specs.Prelude.{◌≡◌};
ghost use Rattle.plan_reading.specs.Operators as operators;

use query_core::{KeyParts, Physical};

/// The same operator over these groups, the first of which is a single child.
pub fn over_groups(operator: Physical, a: KeyParts, b: KeyParts) -> Physical
    ensures { result ≡ operators.over_groups operator a b }
{
    match operator {
        Physical::Scan => Physical::Scan,
        Physical::IndexScan(index) => Physical::IndexScan(index),
        Physical::Filter(_) => Physical::Filter(a),
        Physical::IndexSeek(index) => Physical::IndexSeek(index),
        Physical::HashJoin(_, _) => Physical::HashJoin(a, b),
        Physical::MergeJoin(_, _) => Physical::MergeJoin(a, b),
        Physical::LoopJoin(_, _) => Physical::LoopJoin(a, b),
        Physical::HashAgg(_) => Physical::HashAgg(a),
        Physical::StreamAgg(_) => Physical::StreamAgg(a),
        Physical::PartialAgg(_) => Physical::PartialAgg(a),
    }
}

/// The operator as a line names it.
pub fn unplaced(operator: Physical) -> Physical
    ensures { result ≡ operators.unplaced operator }
{
    over_groups(operator, KeyParts::Get(0), KeyParts::Get(0))
}

/// The operators that read by no index.
pub fn direct_operators() -> [Physical; 8]
    ensures { result ≡ operators.direct_operators }
{
    let any = KeyParts::Get(0);
    [
        Physical::Scan,
        Physical::Filter(any),
        Physical::HashJoin(any, any),
        Physical::MergeJoin(any, any),
        Physical::LoopJoin(any, any),
        Physical::HashAgg(any),
        Physical::StreamAgg(any),
        Physical::PartialAgg(any),
    ]
}

/// Those that read by the index of this number.
pub fn index_operators(index: u32) -> [Physical; 2]
    ensures { result ≡ operators.index_operators index }
{
    [Physical::IndexScan(index), Physical::IndexSeek(index)]
}
