//! Which tables reach each other by links: a set that grows until no link leads out of it.
#![tactic(auto, using(crate::proofs::Reach::reaching))]

ghost use Rattle.std.specs.Prelude.{[], ◌∷◌, ℕ, IsTrue, MatchOption, ◌↔◌, ◌≡◌};
ghost use Rattle.query_core.specs.Sets.{bit, Has};
ghost use Rattle.query_core.specs.Connected.{IsClosed, IsConnected, AreLinked, IsLead, IsReached};

use crate::predicate::Link;
use crate::sets::{difference, has, least, with};

/// Whether the tables of the set reach each other inside it. Those of the empty set do.
pub fn connected(links: &[Link], set: u32) -> bool
    ensures { IsTrue result ↔ IsConnected links.now set }
{
    match least(set) {
        Some(table) => reached(links, set, table) == set,
        None => true,
    }
}

/// Whether a link joins a table of each set.
pub fn linked(links: &[Link], a: u32, b: u32) -> bool
    ensures { IsTrue result ↔ AreLinked links.now a b }
{
    lead(links, a, b).is_some()
}

/// The tables that one of the set's tables reaches inside it.
pub fn reached(links: &[Link], set: u32, from: u32) -> u32
    requires { Has set from }
    ensures { IsReached links.now set from result }
{
    let mut found = with(0, from);
    while let Some(table) = next(links, set, found) {
        found = with(found, table);
    }
    found
}

/// A table of the set that is not reached yet, next to one that is.
fn next(links: &[Link], set: u32, found: u32) -> Option<u32>
    ensures { MatchOption result (IsClosed links.now set found)
        (λ t. (bit found t ≡ 0) × IsLead links.now found set t) }
{
    lead(links, found, difference(set, found))
}

/// A table of the second set that a link joins to one of the first.
fn lead(links: &[Link], from: u32, to: u32) -> Option<u32>
    ensures { MatchOption result (AreLinked links.now from to → ⊥) (IsLead links.now from to) }
{
    for link in links {
        if let Some(table) = across(*link, from, to) {
            return Some(table);
        }
    }
    None
}

/// The end of the link in the second set, where the other end is in the first.
fn across(link: Link, from: u32, to: u32) -> Option<u32>
    ensures { MatchOption result (AreLinked (link ∷ []) from to → ⊥) (IsLead (link ∷ []) from to) }
{
    if has(from, link.a) && has(to, link.b) {
        return Some(link.b);
    }
    if has(from, link.b) && has(to, link.a) {
        return Some(link.a);
    }
    None
}
