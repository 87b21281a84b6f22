//! The members of one group as expressions, held for all requests that the group is asked for.
#![tactic(auto)]

ghost use Rattle.std.specs.Prelude.{ℕ, List, OnOk};
ghost use Rattle.std.specs.List.{All};
ghost use Rattle.std.specs.List.Sorted.{IsStrictlyIncreasing};
ghost use Rattle.query_core.specs.Keys.{IsGroupInRange};
ghost use Rattle.query_core.specs.Expressions.{IsWord};
ghost use Rattle.goal_children.specs.GroupMembers.{AreExpressionsOf, AreHeldFor, AreOfWords};

use query_core::{Expr, ExprParts, KeyParts};
use std::alloc::{AllocError, Global};
use xform_rules::words_of;

/// The members of a group, if one was looked at.
#[derive(Drop)]
pub struct GroupMembers {
    pub group: Option<KeyParts>,
    pub members: Vec<ExprParts>,
}

impl GroupMembers {
    /// Those of no group.
    pub fn none(alloc: Global) -> GroupMembers
        ensures { (words : List ℕ) → AreHeldFor words result }
    {
        GroupMembers {
            group: None,
            members: Vec::new(alloc),
        }
    }
}

/// Has those of the group held that are among the words, if they aren't yet.
pub fn hold_members(
    words: &[u64],
    group: KeyParts,
    held: &mut GroupMembers,
) -> Result<(), AllocError>
    requires words { All IsWord words.now }
    requires ascending { IsStrictlyIncreasing words.now }
    requires in_range { IsGroupInRange group }
    requires held { AreHeldFor words.now held.old }
    ensures ok { OnOk result (AreExpressionsOf words.now group held.new.members.items) }
    ensures held { OnOk result (AreHeldFor words.now held.new) }
{
    let before = held.group;
    match before {
        Some(known) if known == group => Ok(()),
        _ => {
            put_expressions(words_of(words, group), &mut held.members)?;
            held.group = Some(group);
            Ok(())
        }
    }
}

/// Puts the expressions of the words into the list, in place of what it held.
pub fn put_expressions(words: &[u64], list: &mut Vec<ExprParts>) -> Result<(), AllocError>
    requires { All IsWord words.now }
    ensures ok { OnOk result (AreOfWords words.now list.new.items) }
{
    list.clear();
    for word in words {
        list.push(Expr(*word).known_parts())?;
    }
    Ok(())
}
