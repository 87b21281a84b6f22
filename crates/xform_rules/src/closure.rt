//! The words of the members of a query's groups.
#![tactic(auto)]

ghost use Rattle.std.specs.Prelude.{ℕ, List, ◌≡◌};
ghost use Rattle.std.specs.List.{All, Contains};
ghost use Rattle.std.specs.List.Sorted.{IsStrictlyIncreasing};
ghost use Rattle.query_core.specs.declared.query.Query.{Query};
ghost use Rattle.query_core.specs.declared.expressions.ExprParts.{ExprParts};
ghost use Rattle.query_core.specs.Keys.{IsGroupInRange};
ghost use Rattle.query_core.specs.Goals.{FitsExpr};
ghost use Rattle.query_core.specs.Expressions.{word_of, origin_of, IsPacked, IsCandidateWord};
ghost use Rattle.xform_rules.specs.Closure.{IsMember, IsClosureOf, AreMembersOf};

use crate::laws::members_are_candidates;
use query_core::{Key, KeyParts, Query, candidates_are_known, count_below, expressions_are_one};

/// The words of the members of one group, among those of all members.
pub fn members_of<'a>(query: &Query, words: &'a [u64], group: KeyParts) -> &'a [u64]
    requires in_range { IsGroupInRange group }
    requires closure { IsClosureOf query.now words.now }
    ensures { AreMembersOf query.now group result.now }
{
    // For the proof: members have words.
    members_are_known();
    words_of(words, group)
}

/// Those of some ascending words that are words of the group's expressions.
pub fn words_of(words: &[u64], group: KeyParts) -> &[u64]
    requires in_range { IsGroupInRange group }
    requires ascending { IsStrictlyIncreasing words.now }
    ensures members { (e : ExprParts) → IsPacked e → e.group ≡ group →
        Contains words.now (word_of e) → Contains result.now (word_of e) }
    ensures only { (e : ExprParts) → IsPacked e → Contains result.now (word_of e) →
        e.group ≡ group }
    ensures rises { IsStrictlyIncreasing result.now }
    ensures part { (word : ℕ) → Contains result.now word → Contains words.now word }
{
    // For the proof: the words of a group stand together.
    expressions_are_one();
    let key = Key::make(group);
    let from = &words[count_below(words, key.first_word())..];
    &from[..count_below(from, Key(key.0 + 1).first_word())]
}

/// What is known of members and of their words.
pub fn members_are_known()
    // The group of a member has its origin as a member.
    ensures origins { (q : Query) (e : ExprParts) → IsMember q e →
        IsMember q (origin_of q e.group) }
    ensures packed { (q : Query) (e : ExprParts) → IsMember q e → IsPacked e }
    ensures small { (q : Query) (e : ExprParts) → IsMember q e → FitsExpr (word_of e) }

    // The list of their words depends on the query alone.
    ensures closure_is_one { (q : Query) (words others : List ℕ) →
        IsClosureOf q words → IsClosureOf q others → words ≡ others }
    ensures candidates { (q : Query) (words : List ℕ) → IsClosureOf q words →
        All (IsCandidateWord q) words }
{
    members_are_candidates();
    candidates_are_known();
    expressions_are_one();
}
