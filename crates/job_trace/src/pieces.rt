//! The pieces that lines of goals have in common. The text of a piece is made once, and then kept.
#![tactic(auto)]

ghost use Rattle.std.specs.Prelude.{◌≡◌, IfOk, IfSome, IsTrue, OnOk, length, min, string_bytes};
ghost use Rattle.request_props.specs.Numbered.{IsProps};
ghost use Rattle.query_core.specs.declared.query.Query.{Query as AnyQuery};
ghost use Rattle.query_core.specs.Expressions.{expr_of};
ghost use Rattle.query_text.specs.Added.{AddsText};
ghost use Rattle.job_trace.specs.Members.{member_text};
ghost use Rattle.job_trace.specs.Pieces.{piece_text, AreWritten};

use crate::groups::push_group;
use crate::members::push_member;
use crate::requests::push_request;
use orca_base::Text;
use query_core::{Access, Children, KeyParts, PhysicalExpr, Query};
use query_text::name_of_operator;
use request_props::{Dist, Props, Request};
use std::alloc::{AllocError, Global};
use std::marker::Model;

/// What recurs in the lines of goals with requests.
#[derive(Clone, Copy)]
pub enum Piece {
    /// The whole line of a child, for a group and a request.
    Child(KeyParts, Request),
    /// The beginning of a line, for an expression.
    Member(PhysicalExpr),
    /// The request, with which a line ends.
    Wanted(Request),
}

/// A piece with its text.
#[derive(Drop)]
pub struct Written {
    pub piece: Piece,
    pub text: Text,
}

/// Texts of pieces. A piece has one place, and gives it to the next that has the same.
#[derive(Drop)]
pub struct Pieces {
    places: Vec<Option<Written>>,
}

impl Model for Pieces {
    ghost use Rattle.std.specs.Prelude.{List, Option};
    ghost use Rattle.job_trace.specs.declared.pieces.Written.{Written};

    ghost Value = { List (Option Written) };

    ghost view = { λ p. p.places.items };
}

// The most places that a table has.
const MOST_PLACES: usize = 65_536;

// About as many orders as a query has: more are told apart less well.
const ORDERS: u32 = 16;

impl Pieces {
    /// No piece has a text yet. There are places enough for the lines of so many goals.
    pub fn new(alloc: Global, goals: usize) -> Result<Pieces, AllocError>
        ensures kept { IfOk result (λ made. (q : AnyQuery) → AreWritten q made) }
        ensures places { IfOk result (λ made. length made ≡ min goals 65536) }
    {
        let count = goals.min(MOST_PLACES);
        let mut places = Vec::with_capacity(alloc, count)?;
        while places.len() < count {
            places.push(None)?;
        }
        Ok(Pieces { places })
    }

    /// Adds the text of a piece.
    pub fn push(
        &mut self,
        alloc: Global,
        query: &Query,
        props: &Props,
        piece: Piece,
        text: &mut String,
    ) -> Result<(), AllocError>
        requires props { IsProps query.now props.now }
        requires kept { AreWritten query.now self.old }
        ensures ok { OnOk result (AddsText (string_bytes text.old)
            (piece_text query.now piece) (string_bytes text.new)) }
        ensures kept { OnOk result (AreWritten query.now self.new) }
    {
        let place = place_of(piece, self.places.len());
        if let Some(known) = self.find(place, piece) {
            return text.push_str(known);
        }
        let made = write_piece(alloc, query, props, piece)?;
        text.push_str(made.text.as_str())?;
        self.keep(place, made);
        Ok(())
    }

    // The text of the piece, where its place has it.
    fn find(&self, place: usize, piece: Piece) -> Option<&str>
        ensures { (q : AnyQuery) → AreWritten q self.now
            → IfSome result (λ known. known.now ≡ piece_text q piece) }
    {
        match self.places.as_slice().get(place) {
            Some(Some(kept)) if is_same(kept.piece, piece) => Some(kept.text.as_str()),
            _ => None,
        }
    }

    // Gives the place to the piece.
    fn keep(&mut self, place: usize, made: Written)
        ensures { (q : AnyQuery) → AreWritten q self.old → made.text ≡ piece_text q made.piece
            → AreWritten q self.new }
    {
        if place < self.places.len() {
            self.places[place] = Some(made);
        }
    }
}

// Whether the two pieces are one, or members with one text.
fn is_same(one: Piece, other: Piece) -> bool
    ensures { (q : AnyQuery) → IsTrue result → piece_text q one ≡ piece_text q other }
{
    match (one, other) {
        (Piece::Child(g, v), Piece::Child(h, w)) => g == h && v == w,
        (Piece::Member(e), Piece::Member(f)) => is_same_member(e, f),
        (Piece::Wanted(v), Piece::Wanted(w)) => v == w,
        _ => false,
    }
}

// Whether the operators of one group have one name, implement the same, and come to their rows alike.
fn is_same_member(one: PhysicalExpr, other: PhysicalExpr) -> bool
    ensures { (q : AnyQuery) → IsTrue result →
        member_text q (expr_of one) ≡ member_text q (expr_of other) }
{
    let (o, p) = (one.operator, other.operator);
    one.group == other.group
        && o.implements(one.group) == p.implements(other.group)
        && is_same_access(o.access(), p.access())
        && name_of_operator(o) == name_of_operator(p)
}

fn is_same_access(one: Access, other: Access) -> bool
    ensures { IsTrue result → one ≡ other }
{
    match (one, other) {
        (Access::Direct, Access::Direct) => true,
        (Access::Direct, Access::Index(_)) => false,
        (Access::Index(_), Access::Direct) => false,
        (Access::Index(i), Access::Index(j)) => i == j,
    }
}

// The piece with its text.
fn write_piece(
    alloc: Global,
    query: &Query,
    props: &Props,
    piece: Piece,
) -> Result<Written, AllocError>
    requires { IsProps query.now props.now }
    ensures piece { IfOk result (λ made. made.piece ≡ piece) }
    ensures text { IfOk result (λ made. made.text ≡ piece_text query.now piece) }
{
    let mut text = String::new(alloc);
    push_piece(query, props, piece, &mut text)?;
    Ok(Written {
        piece,
        text: Text::of(text),
    })
}

// Adds the text of a piece, made anew.
fn push_piece(
    query: &Query,
    props: &Props,
    piece: Piece,
    text: &mut String,
) -> Result<(), AllocError>
    requires { IsProps query.now props.now }
    ensures ok { OnOk result (AddsText (string_bytes text.old)
        (piece_text query.now piece) (string_bytes text.new)) }
{
    match piece {
        Piece::Child(group, wanted) => {
            text.push_str("  Opt ")?;
            push_group(query, group, text)?;
            text.push_str(" ")?;
            push_request(query, props, wanted, text)?;
            text.push_str("\n")
        }
        Piece::Member(e) => {
            text.push_str("OptE ")?;
            push_member(query, e.parts(), text)?;
            text.push_str(" ")
        }
        Piece::Wanted(wanted) => {
            push_request(query, props, wanted, text)?;
            text.push_str("\n")
        }
    }
}

// The place of a piece among so many. Pieces of one group stand side by side, since their lines do. Another piece may
// have the same place, but seldom one that is printed beside it.
fn place_of(piece: Piece, places: usize) -> usize {
    let spread = u64::from(mixed(number_of_piece(piece), 0));
    let first = (spread.wrapping_mul(places as u64) >> 32) as usize;
    let place = first.wrapping_add(place_in_group(piece) as usize);
    match place.checked_sub(places) {
        Some(rest) => rest,
        None => place,
    }
}

// A number that few have but the pieces of one group.
fn number_of_piece(piece: Piece) -> u32 {
    match piece {
        Piece::Child(group, _) => number_of_group(group),
        Piece::Member(e) => mixed(number_of_group(e.group), number_of_member(e)),
        Piece::Wanted(_) => 5,
    }
}

// A number that few of these have.
fn place_in_group(piece: Piece) -> u32 {
    match piece {
        Piece::Child(_, wanted) => number_of_request(wanted),
        Piece::Member(_) => 0,
        Piece::Wanted(wanted) => number_of_request(wanted),
    }
}

// Two numbers as one: multiplicative hashing (Knuth, The Art of Computer Programming, volume 3, section 6.4).
fn mixed(first: u32, second: u32) -> u32 {
    (first ^ second.rotate_left(16)).wrapping_mul(0x9E37_79B1)
}

fn number_of_group(group: KeyParts) -> u32 {
    match group {
        KeyParts::Get(table) => mixed(0, table),
        KeyParts::Filter(table) => mixed(1, table),
        KeyParts::Join(set) => mixed(2, set),
        KeyParts::Partial => 3,
        KeyParts::Agg => 4,
    }
}

// Members of one group differ in the first letter of the operator's name, or in what it stands on.
fn number_of_member(member: PhysicalExpr) -> u32 {
    let name = name_of_operator(member.operator).as_bytes();
    let letter = name.first().copied().unwrap_or(0);
    mixed(u32::from(letter), number_below(member))
}

// A number that few have but the operators over one first group, or by one index.
fn number_below(member: PhysicalExpr) -> u32 {
    match member.operator.access() {
        Access::Direct => number_of_first(member.children()),
        Access::Index(index) => index,
    }
}

fn number_of_first(children: Children) -> u32 {
    match children {
        Children::Zero => 0,
        Children::One(child) => number_of_group(child),
        Children::Two(left, _) => number_of_group(left),
    }
}

// Requests for one distribution have numbers side by side.
fn number_of_request(wanted: Request) -> u32 {
    let dist: u32 = match wanted.dist {
        Dist::One => 0,
        Dist::Spread => 1,
        Dist::Copies => 2,
        Dist::Hashed(list) => list.wrapping_add(3),
    };
    dist.wrapping_mul(ORDERS).wrapping_add(wanted.order)
}
