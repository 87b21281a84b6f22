//! Group expressions as numbers. Nothing else packs or unpacks an expression.
#![tactic(auto)]

ghost use Rattle.std.specs.Prelude.{◌≡◌, ◌<◌, ◌≤◌, ◌+◌, ◌/◌, ◌%◌, ◌^◌, ◌↔◌, MatchOption};
ghost use Rattle.std.specs.Option.{option_map};
ghost use Rattle.query_core.specs.declared.expressions.ExprParts.{ExprParts};
ghost use Rattle.query_core.specs.declared.words.KeyParts.{KeyParts};
ghost use Rattle.query_core.specs.Keys.{key_number, IsGroupInRange};
ghost use Rattle.query_core.specs.Goals.{FitsExpr};
ghost use Rattle.query_core.specs.Expressions.{children_of, key_field, left_number, right_number, word_of};
ghost use Rattle.query_core.specs.Expressions.{is_logical, left_key, right_key, AreInRange, IsPacked, HasWord};
ghost use Rattle.query_core.specs.Expressions.{IsWord};

use crate::expressions::{Children, ExprParts, Fields, Operator, is_logical_number};
use crate::keys::KEYS;
use crate::words::{Expr, Key, KeyParts};

impl Expr {
    /// The word of a group expression.
    #[inline(always)]
    pub fn make(parts: ExprParts) -> Expr
        requires { IsPacked parts }
        ensures number { result.0 ≡ word_of parts }
        ensures small { FitsExpr result.0 }
    {
        let key = Key::make(parts.group).0 as u64;
        let fields = parts.operator.fields();
        let (left, right) = fields.children.numbers();
        let (number, index) = (fields.number as u64, fields.index as u64);
        Expr((key << 36) + (number << 31) + (index << 26) + ((left as u64) << 13) + right as u64)
    }

    /// The group expression of this word, if it is that of one.
    pub fn parts(self) -> Option<ExprParts>
        ensures { MatchOption result
            ((e : ExprParts) → IsPacked e → word_of e ≡ self.0 → ⊥)
            (λ e. IsPacked e × (word_of e ≡ self.0)) }
    {
        let group = self.key_field().parts()?;
        let children = Children::of(field(self.0, 13, 13), field(self.0, 0, 13))?;
        let fields = Fields::new(self.number_field(), field(self.0, 26, 5), children);
        let operator = Operator::of(fields)?;
        Some(ExprParts { group, operator })
    }

    /// The group expression that the word is known to have.
    #[inline(always)]
    pub fn known_parts(self) -> ExprParts
        requires { IsWord self.0 }
        ensures has { HasWord self.0 result }
        ensures only { (e : ExprParts) → HasWord self.0 e → e ≡ result }
    {
        let group = self.key_field().known_parts();
        let left = known_child(field(self.0, 13, 13));
        let right = known_child(field(self.0, 0, 13));
        let operator = Operator::over(self.number_field(), field(self.0, 26, 5), left, right);
        ExprParts { group, operator }
    }

    /// The key of its group.
    pub fn key(self) -> Key
        requires { IsWord self.0 }
        ensures { (e : ExprParts) → HasWord self.0 e → result.0 ≡ key_number e.group }
    {
        self.key_field()
    }

    /// What the word has in the place of its group's key.
    #[inline(always)]
    pub fn key_field(self) -> Key
        ensures { result.0 ≡ key_field self.0 }
    {
        Key((self.0 >> 36) as u32)
    }

    /// Whether it says what is wanted, and not how it is made.
    pub fn logical(self) -> bool
        requires { IsWord self.0 }
        ensures { (e : ExprParts) → HasWord self.0 e → result ≡ is_logical e.operator }
    {
        is_logical_number(self.number_field())
    }

    #[inline(always)]
    fn number_field(self) -> u32
        ensures { result ≡ self.0 / 2 ^ 31 % 2 ^ 5 }
    {
        field(self.0, 31, 5)
    }

    /// The keys of its children, the left one first.
    pub fn children(self) -> (Option<Key>, Option<Key>)
        requires { IsWord self.0 }
        ensures left { (e : ExprParts) → HasWord self.0 e →
            option_map (λ key. key.0) result.0 ≡ left_key (children_of e.operator) }
        ensures right { (e : ExprParts) → HasWord self.0 e →
            option_map (λ key. key.0) result.1 ≡ right_key (children_of e.operator) }
    {
        self.known_parts().children().keys()
    }
}

impl Key {
    /// The number from which the words of this key and of those after it stand.
    pub fn first_word(self) -> u64
        requires { self.0 ≤ KEYS }
        ensures { (e : ExprParts) → IsPacked e →
            (result ≤ word_of e) ↔ (self.0 ≤ key_number e.group) }
    {
        (self.0 as u64) << 36
    }
}

/// A number is the word of one expression, and the key of one group.
pub fn expressions_are_one()
    ensures expressions { (e f : ExprParts) → IsPacked e → IsPacked f →
        word_of e ≡ word_of f → e ≡ f }
    ensures groups { (p g : KeyParts) → IsGroupInRange p → IsGroupInRange g →
        key_number p ≡ key_number g → p ≡ g }
    ensures small { (e : ExprParts) → IsPacked e → FitsExpr (word_of e) }

    // The words of a group stand together, and groups stand in the order of their keys.
    ensures ordered { (e f : ExprParts) → IsPacked e → IsPacked f →
        key_number e.group < key_number f.group → word_of e < word_of f }
{}

impl Children {
    #[inline(always)]
    fn numbers(self) -> (u32, u32)
        requires { AreInRange self }
        ensures left { result.0 ≡ left_number self }
        ensures right { result.1 ≡ right_number self }
        ensures left_small { result.0 < 2 ^ 13 }
        ensures right_small { result.1 < 2 ^ 13 }
    {
        match self {
            Children::Zero => (0, 0),
            Children::One(child) => (child_number(child), 0),
            Children::Two(left, right) => (child_number(left), child_number(right)),
        }
    }

    fn keys(self) -> (Option<Key>, Option<Key>)
        requires { AreInRange self }
        ensures left { option_map (λ key. key.0) result.0 ≡ left_key self }
        ensures right { option_map (λ key. key.0) result.1 ≡ right_key self }
    {
        match self {
            Children::Zero => (None, None),
            Children::One(child) => (Some(Key::make(child)), None),
            Children::Two(left, right) => (Some(Key::make(left)), Some(Key::make(right))),
        }
    }

    fn of(left: u32, right: u32) -> Option<Children>
        ensures { MatchOption result
            ((c : Children) → AreInRange c → left_number c ≡ left → right_number c ≡ right → ⊥)
            (λ c. AreInRange c × (left_number c ≡ left) × (right_number c ≡ right)) }
    {
        if left == 0 && right == 0 {
            return Some(Children::Zero);
        }
        let first = child_of(left)?;
        if right == 0 {
            return Some(Children::One(first));
        }
        Some(Children::Two(first, child_of(right)?))
    }
}

#[inline(always)]
fn child_number(group: KeyParts) -> u32
    requires { IsGroupInRange group }
    ensures number { result ≡ key_number group + 1 }
    ensures small { result < 2 ^ 13 }
{
    Key::make(group).0 + 1
}

fn child_of(number: u32) -> Option<KeyParts>
    ensures { MatchOption result
        ((g : KeyParts) → IsGroupInRange g → key_number g + 1 ≡ number → ⊥)
        (λ g. IsGroupInRange g × (key_number g + 1 ≡ number)) }
{
    if number == 0 {
        return None;
    }
    Key(number - 1).parts()
}

// The child of this number, where a group has it.
#[inline(always)]
fn known_child(number: u32) -> KeyParts
    ensures { (g : KeyParts) → IsGroupInRange g → key_number g + 1 ≡ number → g ≡ result }
{
    Key(number.saturating_sub(1)).known_parts()
}

// The field of this width from this place on.
#[inline(always)]
fn field(word: u64, place: u32, width: u32) -> u32
    requires place { place < 64 }
    requires width { width < 32 }
    ensures { result ≡ word / 2 ^ place % 2 ^ width }
{
    ((word >> place) % (1 << width)) as u32
}
