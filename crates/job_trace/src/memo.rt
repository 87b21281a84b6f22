//! The text of the memo: its groups, each with its members.
#![tactic(auto)]

ghost use Rattle.std.specs.Prelude.{◌≡◌, ◌+◌, ◌++◌, ℕ, List, All, IfOk, OnOk, flat_map, length, map, string_bytes};
ghost use Rattle.std.specs.List.{concat};
ghost use Rattle.std.specs.List.Sorted.{IsStrictlyIncreasing};
ghost use Rattle.query_core.specs.Keys.{key_number, IsGroupInRange, IsGroup};
ghost use Rattle.query_core.specs.Expressions.{IsCandidateWord, IsWord};
ghost use Rattle.query_core.specs.declared.query.Query.{Query};
ghost use Rattle.query_core.specs.declared.expressions.ExprParts.{ExprParts};
ghost use Rattle.goal_children.specs.GroupMembers.{AreOfWords};
ghost use Rattle.query_text.specs.Added.{AddsText};
ghost use Rattle.job_trace.specs.Memo as texts;
ghost use Rattle.job_trace.specs.Memo.{AreMembers, IsMemoLine, IsMemoText, groups_of, group_lines, memo_section};
ghost use Rattle.job_trace.specs.Lines.{StandByGroup, begins as the_begins, heading};

use crate::counts::push_count;
use crate::groups::push_group_line;
use crate::members::push_member_line;
use goal_children::put_expressions;
use query_core::{
    ExprParts, Key, KeyParts, Query, candidates_are_known, expressions_are_one, groups_are_known,
};
use std::alloc::{AllocError, Global};

/// The bytes of the memo's text. `members` are the words of all its members, ascending.
pub fn memo_text(alloc: Global, query: &Query, members: &[u64]) -> Result<Vec<u8>, AllocError>
    requires candidates { All (IsCandidateWord query.now) members.now }
    requires ascending { IsStrictlyIncreasing members.now }
    ensures { IfOk result (λ text. IsMemoText query.now members.now text.items) }
{
    // For the proof: the words of candidates fit, and those of groups stand in the order of their keys.
    candidates_are_known();
    expressions_are_one();
    let members = members_of_words(alloc, query, members)?;
    Ok(text_of(alloc, query, members.as_slice())?)
}

/// The bytes of the first line of that text: how many groups and how many members there are.
pub fn memo_line(alloc: Global, query: &Query, members: &[u64]) -> Result<Vec<u8>, AllocError>
    requires candidates { All (IsCandidateWord query.now) members.now }
    requires ascending { IsStrictlyIncreasing members.now }
    ensures { IfOk result (λ line. IsMemoLine query.now members.now line.items) }
{
    // For the proof: groups have keys.
    groups_are_known();
    let members = members_of_words(alloc, query, members)?;
    Ok(line_of(alloc, members.as_slice())?)
}

/// What all memos have in common.
pub fn memos_are_known()
    // Ascending words of candidates are those of members, and of one list of them.
    ensures there { (q : Query) (words : List ℕ) → All (IsCandidateWord q) words →
        IsStrictlyIncreasing words → (es : List ExprParts) × AreMembers q words es }
    ensures one { (q : Query) (words : List ℕ) (es fs : List ExprParts) → AreMembers q words es →
        AreMembers q words fs → es ≡ fs }

    // So words have one text.
    ensures text { (q : Query) (words text other : List ℕ) → IsMemoText q words text →
        IsMemoText q words other → text ≡ other }

    // And one first line, with which the text begins.
    ensures line { (q : Query) (words line other : List ℕ) → IsMemoLine q words line →
        IsMemoLine q words other → line ≡ other }
    ensures begins { (q : Query) (words text line : List ℕ) → IsMemoText q words text →
        IsMemoLine q words line → (rest : List ℕ) × (text ≡ line ++ rest) }

    // No group comes twice, and there are as many lines as groups and members, and one more.
    ensures groups { (q : Query) (words : List ℕ) (es : List ExprParts) → AreMembers q words es →
        IsStrictlyIncreasing (map key_number (groups_of es)) }
    ensures lines { (q : Query) (words : List ℕ) (es : List ExprParts) → AreMembers q words es →
        length (memo_section q es) ≡ 1 + length (groups_of es) + length es }
{
    candidates_are_known();
    expressions_are_one();
}

// The members of these words.
fn members_of_words(
    alloc: Global,
    _query: &Query,
    words: &[u64],
) -> Result<Vec<ExprParts>, AllocError>
    requires candidates { All (IsCandidateWord _query.now) words.now }
    requires ascending { IsStrictlyIncreasing words.now }
    ensures { IfOk result (λ made. AreMembers _query.now words.now made.items) }
{
    // For the proof: the words are those of one list of expressions.
    memos_are_known();
    candidates_are_known();
    expressions_are_one();
    expressions(alloc, words)
}

// The expressions of the words.
fn expressions(alloc: Global, words: &[u64]) -> Result<Vec<ExprParts>, AllocError>
    requires { All IsWord words.now }
    ensures { IfOk result (λ made. AreOfWords words.now made.items) }
{
    let mut made = Vec::new(alloc);
    put_expressions(words, &mut made)?;
    Ok(made)
}

fn text_of(alloc: Global, query: &Query, members: &[ExprParts]) -> Result<Vec<u8>, AllocError>
    requires { StandByGroup query.now members.now }
    ensures { IfOk result (λ text. text.items ≡ concat (memo_section query.now members.now)) }
{
    groups_are_known();
    let mut text = String::new(alloc);
    push_memo_line(group_count(members), members.len(), &mut text)?;
    push_groups(query, members, &mut text)?;
    Ok(text.into_bytes())
}

fn line_of(alloc: Global, members: &[ExprParts]) -> Result<Vec<u8>, AllocError>
    requires { All (λ e. IsGroupInRange e.group) members.now }
    ensures { IfOk result (λ line.
        line.items ≡ texts.memo_line (length (groups_of members.now)) (length members.now)) }
{
    let mut line = String::new(alloc);
    push_memo_line(group_count(members), members.len(), &mut line)?;
    Ok(line.into_bytes())
}

// Adds the first line.
fn push_memo_line(groups: usize, members: usize, text: &mut String) -> Result<(), AllocError>
    ensures ok { OnOk result (AddsText (string_bytes text.old)
        (texts.memo_line groups members) (string_bytes text.new)) }
{
    push_count("memo groups=", groups, text)?;
    push_count(" members=", members, text)?;
    text.push_str("\n")
}

// How many groups the members have.
fn group_count(members: &[ExprParts]) -> usize
    requires { All (λ e. IsGroupInRange e.group) members.now }
    ensures { result ≡ length (groups_of members.now) }
{
    let mut count = 0;
    let mut before = None;
    for member in members {
        let key = Key::make(member.group).0;
        if begins(before, key) {
            count += 1;
        }
        before = Some(key);
    }
    count
}

// Adds the line of each group, and behind it those of its members.
fn push_groups(query: &Query, members: &[ExprParts], text: &mut String) -> Result<(), AllocError>
    requires { StandByGroup query.now members.now }
    ensures ok { OnOk result (AddsText (string_bytes text.old)
        (concat (flat_map (group_lines query.now members.now) (groups_of members.now)))
        (string_bytes text.new)) }
{
    groups_are_known();
    let mut before = None;
    for member in members {
        push_heading(query, before, member.group, text)?;
        push_member_line(query, *member, text)?;
        before = Some(Key::make(member.group).0);
    }
    Ok(())
}

// Adds the line of a group, if a member of it begins it.
fn push_heading(
    query: &Query,
    before: Option<u32>,
    group: KeyParts,
    text: &mut String,
) -> Result<(), AllocError>
    requires { IsGroup query.now group }
    ensures ok { OnOk result (AddsText (string_bytes text.old)
        (concat (heading query.now before group)) (string_bytes text.new)) }
{
    groups_are_known();
    if begins(before, Key::make(group).0) {
        push_group_line(query, group, text)?;
    }
    Ok(())
}

// Whether a member of this key begins a group, where that before it had the other key.
fn begins(before: Option<u32>, key: u32) -> bool
    ensures { result ≡ the_begins before key }
{
    match before {
        Some(last) => key != last,
        None => true,
    }
}
