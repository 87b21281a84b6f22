//! The node that a line names over plans of some groups.
#![tactic(auto)]

ghost use Rattle.std.specs.Prelude.{◌≡◌, ◌<◌};
ghost use Rattle.query_core.specs.Keys.{IsGroupInRange};
ghost use Rattle.plan_space.specs.Gives.{first_group as the_first_group};
ghost use Rattle.plan_space.specs.Modes.{modes_end};
ghost use Rattle.plan_tree.specs.Seen.{kids_seen};
ghost use Rattle.plan_reading.specs.NodeOver.{node_over as the_node_over, native as the_native};
ghost use Rattle.plan_reading.specs.NodeOver.{number_in as the_number_in, IsSmall, HasSmallMode};
ghost use Rattle.plan_reading.specs.NodeOver.{second_group as the_second_group, joined_group as the_joined_group};
ghost use Rattle.plan_reading.specs.NodeOver.{native_over as the_native_over, group_over as the_group_over};
ghost use Rattle.plan_reading.specs.NodeOver.{group_below as the_group_below};
ghost use Rattle.text_check.specs.Grown.{HasMode, HaveRanges};

use plan_reading::{Named, over_groups};
use plan_space::{Mode, NodeKind};
use plan_tree::Kids;
use query_core::{KeyParts, Logical, Physical, PhysicalExpr};

/// The one node that may be meant.
pub fn node_over(named: Named, below: Kids) -> NodeKind
    requires small { HasSmallMode named }
    requires groups { HaveRanges (kids_seen below) }
    ensures node { result ≡ the_node_over named (kids_seen below) }
    ensures mode { HasMode result }
{
    match named {
        Named::Native(operator, table, mode) => {
            let implemented = operator.implements(KeyParts::Get(table));
            native_over(implemented, operator, table, mode, below)
        }
        Named::Enforcer(enforcer) => NodeKind::Enforcer(enforcer),
    }
}

// The operator that implements this, over the plans.
fn native_over(
    implemented: Logical,
    operator: Physical,
    table: u32,
    mode: Mode,
    below: Kids,
) -> NodeKind
    requires small { IsSmall mode }
    requires groups { HaveRanges (kids_seen below) }
    ensures node { result ≡ the_native_over implemented operator table mode (kids_seen below) }
    ensures mode { HasMode result }
{
    let left = group_below(implemented, table, below);
    let over = over_groups(operator, left, second_group(below));
    native(group_over(implemented, table, below), over, mode)
}

// The group in which this is implemented.
fn group_over(implemented: Logical, table: u32, below: Kids) -> KeyParts
    requires { HaveRanges (kids_seen below) }
    ensures { result ≡ the_group_over implemented table (kids_seen below) }
{
    match implemented {
        Logical::Get => KeyParts::Get(table),
        Logical::Select(_) => KeyParts::Filter(table),
        Logical::NJoin => joined_group(below),
        Logical::Join(_, _) => joined_group(below),
        Logical::Agg(_) => KeyParts::Agg,
        Logical::Partial(_) => KeyParts::Partial,
    }
}

// The first of the groups below.
fn group_below(implemented: Logical, table: u32, below: Kids) -> KeyParts
    requires { HaveRanges (kids_seen below) }
    ensures { result ≡ the_group_below implemented table (kids_seen below) }
{
    match implemented {
        Logical::Get => first_group(below),
        Logical::Select(_) => KeyParts::Get(table),
        Logical::NJoin => first_group(below),
        Logical::Join(_, _) => first_group(below),
        Logical::Agg(_) => first_group(below),
        Logical::Partial(_) => first_group(below),
    }
}

// The group that joins the tables of the plans.
fn joined_group(below: Kids) -> KeyParts
    requires { HaveRanges (kids_seen below) }
    ensures { result ≡ the_joined_group (kids_seen below) }
{
    KeyParts::Join(first_group(below).tables() | second_group(below).tables())
}

fn native(group: KeyParts, operator: Physical, mode: Mode) -> NodeKind
    requires { IsSmall mode }
    ensures node { result ≡ the_native group operator mode }
    ensures mode { HasMode result }
{
    NodeKind::Native(PhysicalExpr { group, operator }, number_in(mode))
}

// The number of a mode.
fn number_in(mode: Mode) -> u32
    requires { IsSmall mode }
    ensures number { result ≡ the_number_in mode }
    ensures few { result < modes_end }
{
    match mode {
        Mode::Plain(number) => number,
        Mode::Copied(number) => 64 + number,
        Mode::Hashed(number) => 128 + number,
    }
}

fn first_group(below: Kids) -> KeyParts
    requires { HaveRanges (kids_seen below) }
    ensures group { result ≡ the_first_group (kids_seen below) }
    ensures in_range { IsGroupInRange result }
{
    match below {
        Kids::Nothing => KeyParts::Get(0),
        Kids::One(kid) => kid.group,
        Kids::Two(left, _) => left.group,
    }
}

fn second_group(below: Kids) -> KeyParts
    requires { HaveRanges (kids_seen below) }
    ensures group { result ≡ the_second_group (kids_seen below) }
    ensures in_range { IsGroupInRange result }
{
    match below {
        Kids::Nothing => KeyParts::Get(0),
        Kids::One(_) => KeyParts::Get(0),
        Kids::Two(_, right) => right.group,
    }
}
