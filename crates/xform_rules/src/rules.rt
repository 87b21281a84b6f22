//! The rules, what is known of each, and which of them are on.
#![tactic(auto)]

ghost use Rattle.std.specs.Prelude.{◌≡◌, ◌≤◌, IsTrue, ◌↔◌, IfSome, Some};
ghost use Rattle.std.specs.List.{Contains};
ghost use Rattle.xform_rules.specs.Rules.{all_rules, rule_name, rule_number, rule_limit, IsOn};
ghost use Rattle.xform_rules.specs.Rules.{explores as the_explores, binds as the_binds};
ghost use Rattle.xform_rules.specs.Rules.{can_be_off as the_can_be_off, work_of};
ghost use Rattle.xform_rules.specs.Rules.{most_results, most_allowed, is_exploring, is_binding};
ghost use Rattle.xform_rules.specs.Rules.{can_stop, can_be_without, binds_member};

use Condition::{Always, Equated, Grouping, OwnIndex, UsableIndex};
use Exploration::{Association, Commutation, Expansion, Split};
use Work::{Explores, Implements};
use query_core::{Query, sets};

/// A rule. The first four explore; the others implement.
#[derive(Clone, Copy, Debug, PartialEq, Eq)]
pub enum Rule {
    ExpandNAry,
    JoinCommute,
    JoinAssociate,
    SplitAgg,
    GetToScan,
    GetToIndexScan,
    SelectToFilter,
    SelectToIndexSeek,
    JoinToHash,
    JoinToMerge,
    JoinToLoop,
    AggToHash,
    AggToStream,
    PartialToHash,
}

/// What a rule does with a logical expression.
#[derive(Clone, Copy)]
pub enum Work {
    /// It says otherwise what is wanted.
    Explores(Exploration),
    /// It says how this is made, under a condition.
    Implements(Condition),
}

/// How a rule that explores says it otherwise.
#[derive(Clone, Copy)]
pub enum Exploration {
    /// A join in no order becomes the join of one of its tables with the others.
    Expansion,
    /// The sides of a join change places.
    Commutation,
    /// A join over a join is bracketed the other way.
    Association,
    /// Groups are made of groups that are not complete.
    Split,
}

/// When a rule that implements gives its operator.
#[derive(Clone, Copy)]
pub enum Condition {
    Always,
    /// Some predicate equates the sides of the join.
    Equated,
    /// There is a column to group by.
    Grouping,
    /// One operator for each index of the table.
    OwnIndex,
    /// One operator for each index by which the table's own predicates find rows.
    UsableIndex,
}

/// What is known of a rule.
#[derive(Clone, Copy)]
struct Facts {
    number: u32,
    name: &'static str,
    work: Work,
}

impl Rule {
    /// The rules, in the order of their numbers.
    pub fn all() -> [Rule; 14]
        ensures value { result ≡ all_rules }
        ensures every { (rule : Rule) → Contains result rule }
    {
        [
            Rule::ExpandNAry,
            Rule::JoinCommute,
            Rule::JoinAssociate,
            Rule::SplitAgg,
            Rule::GetToScan,
            Rule::GetToIndexScan,
            Rule::SelectToFilter,
            Rule::SelectToIndexSeek,
            Rule::JoinToHash,
            Rule::JoinToMerge,
            Rule::JoinToLoop,
            Rule::AggToHash,
            Rule::AggToStream,
            Rule::PartialToHash,
        ]
    }

    #[inline(always)]
    fn facts(self) -> Facts
        ensures number { result.number ≡ rule_number self }
        ensures name { result.name.now ≡ rule_name self }
        ensures work { result.work ≡ work_of self }
    {
        match self {
            Rule::ExpandNAry => row(1, "ExpandNAry", Explores(Expansion)),
            Rule::JoinCommute => row(2, "JoinCommute", Explores(Commutation)),
            Rule::JoinAssociate => row(3, "JoinAssociate", Explores(Association)),
            Rule::SplitAgg => row(4, "SplitAgg", Explores(Split)),
            Rule::GetToScan => row(5, "GetToScan", Implements(Always)),
            Rule::GetToIndexScan => row(6, "GetToIndexScan", Implements(OwnIndex)),
            Rule::SelectToFilter => row(7, "SelectToFilter", Implements(Always)),
            Rule::SelectToIndexSeek => row(8, "SelectToIndexSeek", Implements(UsableIndex)),
            Rule::JoinToHash => row(9, "JoinToHash", Implements(Equated)),
            Rule::JoinToMerge => row(10, "JoinToMerge", Implements(Equated)),
            Rule::JoinToLoop => row(11, "JoinToLoop", Implements(Always)),
            Rule::AggToHash => row(12, "AggToHash", Implements(Always)),
            Rule::AggToStream => row(13, "AggToStream", Implements(Grouping)),
            Rule::PartialToHash => row(14, "PartialToHash", Implements(Always)),
        }
    }

    /// The number of the rule: 1 to 14.
    #[inline(always)]
    pub fn number(self) -> u32
        ensures value { result ≡ rule_number self }
        ensures some { 1 ≤ result }
        ensures most { result ≤ 14 }
    {
        self.facts().number
    }

    /// The name of the rule.
    pub fn name(self) -> &'static str
        ensures { result.now ≡ rule_name self }
    {
        self.facts().name
    }

    /// What the rule does.
    #[inline(always)]
    pub fn work(self) -> Work
        ensures { result ≡ work_of self }
    {
        self.facts().work
    }

    /// How many results it can have at an expression: one for each index of a table, or one.
    #[inline(always)]
    pub fn limit(self) -> u32
        ensures { result ≡ rule_limit self }
    {
        self.work().limit()
    }

    /// Whether it gives other logical expressions. The other rules give physical ones.
    #[inline(always)]
    pub fn explores(self) -> bool
        ensures { result ≡ the_explores self }
    {
        self.work().explores()
    }

    /// Whether it binds a member of the left child's group.
    #[inline(always)]
    pub fn binds(self) -> bool
        ensures { result ≡ the_binds self }
    {
        self.work().binds()
    }

    /// Whether it can be switched off.
    pub fn can_be_off(self) -> bool
        ensures { result ≡ the_can_be_off self }
    {
        self.work().can_stop()
    }
}

/// What is known of a rule, in one row.
#[inline(always)]
fn row(number: u32, name: &'static str, work: Work) -> Facts
    ensures number { result.number ≡ number }
    ensures name { result.name.now ≡ name.now }
    ensures work { result.work ≡ work }
{
    Facts { number, name, work }
}

impl Work {
    #[inline(always)]
    fn limit(self) -> u32
        ensures { result ≡ most_results self }
    {
        match self {
            Explores(_) => 1,
            Implements(condition) => condition.limit(),
        }
    }

    #[inline(always)]
    fn explores(self) -> bool
        ensures { result ≡ is_exploring self }
    {
        match self {
            Explores(_) => true,
            Implements(_) => false,
        }
    }

    #[inline(always)]
    fn binds(self) -> bool
        ensures { result ≡ is_binding self }
    {
        match self {
            Explores(way) => way.binds(),
            Implements(_) => false,
        }
    }

    fn can_stop(self) -> bool
        ensures { result ≡ can_stop self }
    {
        match self {
            Explores(way) => way.can_stop(),
            Implements(_) => true,
        }
    }
}

impl Exploration {
    #[inline(always)]
    fn binds(self) -> bool
        ensures { result ≡ binds_member self }
    {
        match self {
            Expansion => false,
            Commutation => false,
            Association => true,
            Split => false,
        }
    }

    fn can_stop(self) -> bool
        ensures { result ≡ can_be_without self }
    {
        match self {
            Expansion => false,
            Commutation => true,
            Association => true,
            Split => true,
        }
    }
}

impl Condition {
    // How many operators it allows at most.
    #[inline(always)]
    fn limit(self) -> u32
        ensures { result ≡ most_allowed self }
    {
        match self {
            Always => 1,
            Equated => 1,
            Grouping => 1,
            OwnIndex => 16,
            UsableIndex => 16,
        }
    }
}

/// The rule of a number.
pub fn rule_of(number: u32) -> Option<Rule>
    ensures found { IfSome result (λ rule. rule_number rule ≡ number) }
    ensures only { (rule : Rule) → rule_number rule ≡ number → result ≡ Some rule }
{
    match number {
        1 => Some(Rule::ExpandNAry),
        2 => Some(Rule::JoinCommute),
        3 => Some(Rule::JoinAssociate),
        4 => Some(Rule::SplitAgg),
        5 => Some(Rule::GetToScan),
        6 => Some(Rule::GetToIndexScan),
        7 => Some(Rule::SelectToFilter),
        8 => Some(Rule::SelectToIndexSeek),
        9 => Some(Rule::JoinToHash),
        10 => Some(Rule::JoinToMerge),
        11 => Some(Rule::JoinToLoop),
        12 => Some(Rule::AggToHash),
        13 => Some(Rule::AggToStream),
        14 => Some(Rule::PartialToHash),
        _ => None,
    }
}

/// The rule of a name.
pub fn rule_named(name: &str) -> Option<Rule>
    ensures found { IfSome result (λ rule. rule_name rule ≡ name.now) }
    ensures only { (rule : Rule) → rule_name rule ≡ name.now → result ≡ Some rule }
{
    let rules = Rule::all();
    for rule in &rules {
        if rule.name() == name {
            return Some(*rule);
        }
    }
    None
}

/// Whether the query leaves the rule on.
pub fn is_on(query: &Query, rule: Rule) -> bool
    ensures { IsTrue result ↔ IsOn query.now rule }
{
    !sets::has(query.options.off, rule.number())
}
