//! What nodes cost, and how many rows a segment has.

use cost_units::{Class, CostShape, local, share};

#[test]
fn costs_are_those_of_worked_examples(rt: HostRuntime) {
    assert!(rt; local(CostShape::Sort(250)) == 2001);
    assert!(rt; local(CostShape::Broadcast(1000)) == 4001);
    let most = 1_000_000_000_000;
    assert!(rt; local(CostShape::LoopJoin(most, most)) == 1_000_000_000_000_000);
}

#[test]
fn spread_rows_are_shared_out_and_rounded_up(rt: HostRuntime) {
    assert!(rt; share(10, Class::Spread, 4) == 3);
    assert!(rt; share(10, Class::One, 4) == 10);
    assert!(rt; share(10, Class::Copies, 4) == 10);
}
