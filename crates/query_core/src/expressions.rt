//! Group expressions: an operator over groups.
#![tactic(auto)]

ghost use Rattle.std.specs.Prelude.{◌≡◌, MatchOption};
ghost use Rattle.query_core.specs.Expressions.{children_of, expr_of, fields_of, logical_fields, physical_children};
ghost use Rattle.query_core.specs.Expressions.{physical_fields, is_logical as the_is_logical, AreFirstOf, IsJoinNumber};
ghost use Rattle.query_core.specs.Expressions.{implements as the_implements, access as the_access};
ghost use Rattle.query_core.specs.Expressions.{unfiltered as the_unfiltered};

use crate::words::KeyParts;

/// Operators have numbers from 1 on, all below this one.
pub const OPERATORS: u32 = 17;

/// The operators that stand on two groups have the numbers from this one on.
pub const FIRST_JOIN: u32 = 8;

/// The numbers of those that stand on two groups end below this one.
pub const AFTER_JOINS: u32 = 12;

/// What is wanted of a group's rows.
#[derive(Clone, Copy, PartialEq, Eq)]
pub enum Logical {
    /// The rows of a table.
    Get,
    /// The rows of a table that meet its own predicates.
    Select(KeyParts),
    /// The join of all tables of the set, in no order.
    NJoin,
    /// The join of the left group and the right one.
    Join(KeyParts, KeyParts),
    /// The groups of GROUP BY.
    Agg(KeyParts),
    /// Groups that are not complete, as each segment makes them.
    Partial(KeyParts),
}

/// How a group's rows are made.
#[derive(Clone, Copy, PartialEq, Eq)]
pub enum Physical {
    /// The table is read where it lies.
    Scan,
    /// The table is read in the order of its index of this number.
    IndexScan(u32),
    /// Each row is tested.
    Filter(KeyParts),
    /// The rows are found by the index of this number.
    IndexSeek(u32),
    /// The rows of the right group are put into a hash table, and each row of the left one looks there.
    HashJoin(KeyParts, KeyParts),
    /// Both groups are read in the order of the columns that are compared.
    MergeJoin(KeyParts, KeyParts),
    /// Each row of the left group is compared with each row of the right one.
    LoopJoin(KeyParts, KeyParts),
    /// The groups stand in a hash table.
    HashAgg(KeyParts),
    /// The rows come in the order of GROUP BY, so each group is complete before the next begins.
    StreamAgg(KeyParts),
    /// Each segment makes groups of its own rows.
    PartialAgg(KeyParts),
}

/// What a group expression does, with the groups that it stands on.
#[derive(Clone, Copy, PartialEq, Eq)]
pub enum Operator {
    Logical(Logical),
    Physical(Physical),
}

/// The groups that an operator stands on.
#[derive(Clone, Copy, PartialEq, Eq)]
pub enum Children {
    Zero,
    One(KeyParts),
    /// The left group and the right one.
    Two(KeyParts, KeyParts),
}

/// How a physical operator comes to its rows.
#[derive(Clone, Copy)]
pub enum Access {
    /// As the logical operator that it implements says.
    Direct,
    /// By the table's index of this number.
    Index(u32),
}

/// What a word has of an operator.
#[derive(Clone, Copy)]
pub struct Fields {
    /// The operator's number, 1 to 16.
    pub number: u32,
    /// The number of the index that it reads, else 0.
    pub index: u32,
    pub children: Children,
}

/// A group expression: its group, and its operator.
#[derive(Clone, Copy, PartialEq, Eq)]
pub struct ExprParts {
    pub group: KeyParts,
    pub operator: Operator,
}

/// A group expression that says how its group's rows are made.
#[derive(Clone, Copy, PartialEq, Eq)]
pub struct PhysicalExpr {
    pub group: KeyParts,
    pub operator: Physical,
}

impl PhysicalExpr {
    #[inline(always)]
    pub fn new(group: KeyParts, operator: Physical) -> PhysicalExpr
        ensures { result ≡ record { group = group; operator = operator } }
    {
        PhysicalExpr { group, operator }
    }

    /// The same as an expression of either kind.
    #[inline(always)]
    pub fn parts(self) -> ExprParts
        ensures { result ≡ expr_of self }
    {
        ExprParts::physical(self.group, self.operator)
    }

    /// The groups that it stands on.
    #[inline(always)]
    pub fn children(self) -> Children
        ensures { result ≡ physical_children self.operator }
    {
        self.operator.fields().children
    }
}

impl ExprParts {
    /// An expression that says what is wanted of the group's rows.
    #[inline(always)]
    pub fn logical(group: KeyParts, operator: Logical) -> ExprParts
        ensures { result ≡ record { group = group; operator = Operator.Logical operator } }
    {
        ExprParts {
            group,
            operator: Operator::Logical(operator),
        }
    }

    /// An expression that says how the group's rows are made.
    #[inline(always)]
    pub fn physical(group: KeyParts, operator: Physical) -> ExprParts
        ensures { result ≡ record { group = group; operator = Operator.Physical operator } }
    {
        ExprParts {
            group,
            operator: Operator::Physical(operator),
        }
    }

    /// The physical expression that it is, if it is one.
    #[inline(always)]
    pub fn as_physical(self) -> Option<PhysicalExpr>
        ensures { MatchOption result
            ((e : PhysicalExpr) → self ≡ expr_of e → ⊥)
            (λ e. self ≡ expr_of e) }
    {
        match self.operator {
            Operator::Logical(_) => None,
            Operator::Physical(operator) => Some(PhysicalExpr::new(self.group, operator)),
        }
    }

    /// The groups that it stands on.
    #[inline(always)]
    pub fn children(self) -> Children
        ensures { result ≡ children_of self.operator }
    {
        self.operator.fields().children
    }
}

impl Operator {
    /// Whether it says what is wanted, and not how it is made.
    #[inline(always)]
    pub fn is_logical(self) -> bool
        ensures { result ≡ the_is_logical self }
    {
        match self {
            Operator::Logical(_) => true,
            Operator::Physical(_) => false,
        }
    }

    /// The groups that it stands on.
    #[inline(always)]
    pub fn children(self) -> Children
        ensures { result ≡ children_of self }
    {
        self.fields().children
    }

    /// The operator of this number that stands on the two groups.
    pub fn on_two(number: u32, left: KeyParts, right: KeyParts) -> Operator
        requires { IsJoinNumber number }
        ensures { fields_of result ≡
            record { number = number; index = 0; children = Children.Two left right } }
    {
        match Operator::of(Fields::new(number, 0, Children::Two(left, right))) {
            Some(operator) => operator,
            None => unreachable!(),
        }
    }

    #[inline(always)]
    pub(crate) fn fields(self) -> Fields
        ensures { result ≡ fields_of self }
    {
        match self {
            Operator::Logical(operator) => operator.fields(),
            Operator::Physical(operator) => operator.fields(),
        }
    }

    /// The operator that has these fields.
    pub(crate) fn of(fields: Fields) -> Option<Operator>
        ensures { MatchOption result
            ((o : Operator) → fields_of o ≡ fields → ⊥)
            (λ o. fields_of o ≡ fields) }
    {
        if let Some(operator) = Logical::of(fields) {
            return Some(Operator::Logical(operator));
        }
        match Physical::of(fields) {
            Some(operator) => Some(Operator::Physical(operator)),
            None => None,
        }
    }

    /// The operator of this number, which reads the index of this number and stands on the first of these groups. It is
    /// for numbers that are known to be those of one.
    pub(crate) fn over(number: u32, index: u32, left: KeyParts, right: KeyParts) -> Operator
        ensures { (o : Operator) → (fields_of o).number ≡ number → (fields_of o).index ≡ index →
            AreFirstOf (children_of o) left right → o ≡ result }
    {
        match number {
            1 => Operator::Logical(Logical::Get),
            2 => Operator::Physical(Physical::Scan),
            3 => Operator::Physical(Physical::IndexScan(index)),
            4 => Operator::Logical(Logical::Select(left)),
            5 => Operator::Physical(Physical::Filter(left)),
            6 => Operator::Physical(Physical::IndexSeek(index)),
            7 => Operator::Logical(Logical::NJoin),
            8 => Operator::Logical(Logical::Join(left, right)),
            9 => Operator::Physical(Physical::HashJoin(left, right)),
            10 => Operator::Physical(Physical::MergeJoin(left, right)),
            11 => Operator::Physical(Physical::LoopJoin(left, right)),
            12 => Operator::Logical(Logical::Agg(left)),
            13 => Operator::Physical(Physical::HashAgg(left)),
            14 => Operator::Physical(Physical::StreamAgg(left)),
            15 => Operator::Logical(Logical::Partial(left)),
            _ => Operator::Physical(Physical::PartialAgg(left)),
        }
    }
}

/// Whether the operator of this number says what is wanted, and not how it is made.
pub(crate) fn is_logical_number(number: u32) -> bool
    ensures { (o : Operator) → (fields_of o).number ≡ number → result ≡ the_is_logical o }
{
    matches!(number, 1 | 4 | 7 | 8 | 12 | 15)
}

impl Logical {
    #[inline(always)]
    fn fields(self) -> Fields
        ensures { result ≡ logical_fields self }
    {
        match self {
            Logical::Get => Fields::new(1, 0, Children::Zero),
            Logical::Select(child) => Fields::new(4, 0, Children::One(child)),
            Logical::NJoin => Fields::new(7, 0, Children::Zero),
            Logical::Join(left, right) => Fields::new(8, 0, Children::Two(left, right)),
            Logical::Agg(child) => Fields::new(12, 0, Children::One(child)),
            Logical::Partial(child) => Fields::new(15, 0, Children::One(child)),
        }
    }

    fn of(fields: Fields) -> Option<Logical>
        ensures { MatchOption result
            ((o : Logical) → logical_fields o ≡ fields → ⊥)
            (λ o. logical_fields o ≡ fields) }
    {
        match (fields.number, fields.index, fields.children) {
            (1, 0, Children::Zero) => Some(Logical::Get),
            (4, 0, Children::One(child)) => Some(Logical::Select(child)),
            (7, 0, Children::Zero) => Some(Logical::NJoin),
            (8, 0, Children::Two(left, right)) => Some(Logical::Join(left, right)),
            (12, 0, Children::One(child)) => Some(Logical::Agg(child)),
            (15, 0, Children::One(child)) => Some(Logical::Partial(child)),
            _ => None,
        }
    }
}

impl Physical {
    /// The logical operator of the group that it implements.
    pub fn implements(self, group: KeyParts) -> Logical
        ensures { result ≡ the_implements group self }
    {
        match self {
            Physical::Scan => Logical::Get,
            Physical::IndexScan(_) => Logical::Get,
            Physical::Filter(child) => Logical::Select(child),
            Physical::IndexSeek(_) => Logical::Select(unfiltered(group)),
            Physical::HashJoin(left, right) => Logical::Join(left, right),
            Physical::MergeJoin(left, right) => Logical::Join(left, right),
            Physical::LoopJoin(left, right) => Logical::Join(left, right),
            Physical::HashAgg(child) => Logical::Agg(child),
            Physical::StreamAgg(child) => Logical::Agg(child),
            Physical::PartialAgg(child) => Logical::Partial(child),
        }
    }

    /// How it comes to its rows.
    pub fn access(self) -> Access
        ensures { result ≡ the_access self }
    {
        match self {
            Physical::Scan => Access::Direct,
            Physical::IndexScan(index) => Access::Index(index),
            Physical::Filter(_) => Access::Direct,
            Physical::IndexSeek(index) => Access::Index(index),
            Physical::HashJoin(_, _) => Access::Direct,
            Physical::MergeJoin(_, _) => Access::Direct,
            Physical::LoopJoin(_, _) => Access::Direct,
            Physical::HashAgg(_) => Access::Direct,
            Physical::StreamAgg(_) => Access::Direct,
            Physical::PartialAgg(_) => Access::Direct,
        }
    }

    #[inline(always)]
    fn fields(self) -> Fields
        ensures { result ≡ physical_fields self }
    {
        match self {
            Physical::Scan => Fields::new(2, 0, Children::Zero),
            Physical::IndexScan(index) => Fields::new(3, index, Children::Zero),
            Physical::Filter(child) => Fields::new(5, 0, Children::One(child)),
            Physical::IndexSeek(index) => Fields::new(6, index, Children::Zero),
            Physical::HashJoin(left, right) => Fields::new(9, 0, Children::Two(left, right)),
            Physical::MergeJoin(left, right) => Fields::new(10, 0, Children::Two(left, right)),
            Physical::LoopJoin(left, right) => Fields::new(11, 0, Children::Two(left, right)),
            Physical::HashAgg(child) => Fields::new(13, 0, Children::One(child)),
            Physical::StreamAgg(child) => Fields::new(14, 0, Children::One(child)),
            Physical::PartialAgg(child) => Fields::new(16, 0, Children::One(child)),
        }
    }

    fn of(fields: Fields) -> Option<Physical>
        ensures { MatchOption result
            ((o : Physical) → physical_fields o ≡ fields → ⊥)
            (λ o. physical_fields o ≡ fields) }
    {
        match (fields.number, fields.index, fields.children) {
            (2, 0, Children::Zero) => Some(Physical::Scan),
            (3, index, Children::Zero) => Some(Physical::IndexScan(index)),
            (5, 0, Children::One(child)) => Some(Physical::Filter(child)),
            (6, index, Children::Zero) => Some(Physical::IndexSeek(index)),
            (9, 0, Children::Two(left, right)) => Some(Physical::HashJoin(left, right)),
            (10, 0, Children::Two(left, right)) => Some(Physical::MergeJoin(left, right)),
            (11, 0, Children::Two(left, right)) => Some(Physical::LoopJoin(left, right)),
            (13, 0, Children::One(child)) => Some(Physical::HashAgg(child)),
            (14, 0, Children::One(child)) => Some(Physical::StreamAgg(child)),
            (16, 0, Children::One(child)) => Some(Physical::PartialAgg(child)),
            _ => None,
        }
    }
}

/// The rows of a table before its own predicates are applied.
fn unfiltered(group: KeyParts) -> KeyParts
    ensures { result ≡ the_unfiltered group }
{
    match group {
        KeyParts::Get(table) => KeyParts::Get(table),
        KeyParts::Filter(table) => KeyParts::Get(table),
        KeyParts::Join(set) => KeyParts::Join(set),
        KeyParts::Partial => KeyParts::Partial,
        KeyParts::Agg => KeyParts::Agg,
    }
}

impl Fields {
    #[inline(always)]
    pub(crate) fn new(number: u32, index: u32, children: Children) -> Fields
        ensures { result ≡ record { number = number; index = index; children = children } }
    {
        Fields {
            number,
            index,
            children,
        }
    }
}
