//! Tokens that are read from the front.

ghost use Rattle.std.specs.Prelude.{◌≡◌, ◌≢◌, []};
ghost use Rattle.sql_reader.specs.Tokens.{place_of, name_of, called_of, integer_of, quoted_of};
ghost use Rattle.sql_reader.specs.Tokens.{comparison, op_of};
ghost use Rattle.sql_reader.specs.Steps.{Takes, IsNext, next_place, one, behind_next, Parts};
ghost use Rattle.sql_reader.specs.Doing.{Does};

use crate::stops::Stop;
use crate::syntax::SelOp;
use crate::tokens::{Function, Kind, Mark, Name, Token};
use orca_base::Text;
use std::marker::Model;
use std::mem::replace;
use std::vec::IntoIter;

/// The tokens that are left, which contracts see as a list.
#[derive(Drop)]
pub struct TokenStream {
    next: Option<Token>,
    others: IntoIter<Token>,
}

impl Model for TokenStream {
    ghost use Rattle.std.specs.Prelude.{List};
    ghost use Rattle.std.specs.Vec.Iter.{into_iter_items};
    ghost use Rattle.sql_reader.specs.declared.tokens.Token.{Token};
    ghost use Rattle.sql_reader.specs.Left.{left};

    ghost Value = { List Token };

    ghost view = { λ t. left t.next (into_iter_items t.others) };
}

/// The comparison that a mark is.
fn compared(mark: Mark) -> Option<SelOp>
    ensures { result ≡ comparison mark }
{
    match mark {
        Mark::Equal => Some(SelOp::Eq),
        Mark::NotEqual => Some(SelOp::Ne),
        Mark::Less => Some(SelOp::Lt),
        Mark::LessEqual => Some(SelOp::Le),
        Mark::Greater => Some(SelOp::Gt),
        Mark::GreaterEqual => Some(SelOp::Ge),
        _ => None,
    }
}

fn place_of_mark(token: &Token, mark: Mark) -> Option<u32>
    ensures { result ≡ place_of mark token.now }
{
    match token.kind {
        Kind::Mark(other) if mark.number() == other.number() => Some(token.at),
        _ => None,
    }
}

fn op_of(token: &Token) -> Option<SelOp>
    ensures { result ≡ op_of token.now }
{
    match token.kind {
        Kind::Mark(mark) => compared(mark),
        _ => None,
    }
}

fn function_of(token: &Token) -> Option<Function>
    ensures { result ≡ called_of token.now }
{
    match token.kind {
        Kind::Function(function) => Some(function),
        _ => None,
    }
}

fn integer_of(token: &Token) -> Option<i64>
    ensures { result ≡ integer_of token.now }
{
    match token.kind {
        Kind::Integer(number) => Some(number),
        _ => None,
    }
}

/// The name that the token is, or else the token.
fn into_name(token: Token) -> Result<Name, Token>
    ensures { Parts name_of token result }
{
    let Token { at, kind } = token;
    match kind {
        Kind::Name(text) => Ok(Name { at, text }),
        other => Err(Token { at, kind: other }),
    }
}

/// The text that the token is, or else the token.
fn into_text(token: Token) -> Result<Text, Token>
    ensures { Parts quoted_of token result }
{
    let Token { at, kind } = token;
    match kind {
        Kind::Quoted(text) => Ok(text),
        other => Err(Token { at, kind: other }),
    }
}

/// Puts a token there, and lets go of what was there.
fn put(place: &mut Option<Token>, token: Option<Token>)
    ensures { place.new ≡ token }
{
    drop(replace(place, token));
}

/// Each call but `peek` and `place` takes the next token where it is of the call's kind, and else
/// leaves it.
impl TokenStream {
    pub fn of(tokens: Vec<Token>) -> TokenStream
        ensures { result ≡ tokens.items }
    {
        let mut others = tokens.into_iter();
        let next = others.next();
        TokenStream { next, others }
    }

    pub fn peek(&self) -> Option<&Token>
        ensures { IsNext self.now result }
    {
        self.next.as_ref()
    }

    /// Where the next token stands, or the end.
    pub fn place(&self, end: u32) -> u32
        ensures { result ≡ next_place self.now end }
    {
        match &self.next {
            Some(token) => token.at,
            None => end,
        }
    }

    /// Leaves the next token behind, where there is one.
    fn advance(&mut self)
        ensures { self.old ≢ [] → self.new ≡ behind_next self.old }
    {
        put(&mut self.next, self.others.next());
    }

    /// The place of the mark.
    pub fn mark(&mut self, mark: Mark) -> Option<u32>
        ensures { Takes (place_of mark) self.old result self.new }
    {
        let found = match self.peek() {
            Some(token) => place_of_mark(token, mark),
            None => None,
        };
        if found.is_some() {
            self.advance();
        }
        found
    }

    pub fn op(&mut self) -> Option<SelOp>
        ensures { Takes op_of self.old result self.new }
    {
        let found = match self.peek() {
            Some(token) => op_of(token),
            None => None,
        };
        if found.is_some() {
            self.advance();
        }
        found
    }

    pub fn function(&mut self) -> Option<Function>
        ensures { Takes called_of self.old result self.new }
    {
        let found = match self.peek() {
            Some(token) => function_of(token),
            None => None,
        };
        if found.is_some() {
            self.advance();
        }
        found
    }

    pub fn integer(&mut self) -> Option<i64>
        ensures { Takes integer_of self.old result self.new }
    {
        let found = match self.peek() {
            Some(token) => integer_of(token),
            None => None,
        };
        if found.is_some() {
            self.advance();
        }
        found
    }

    pub fn name(&mut self) -> Option<Name>
        ensures { Takes name_of self.old result self.new }
    {
        let Some(token) = self.next.take() else {
            return None;
        };
        match into_name(token) {
            Ok(name) => {
                put(&mut self.next, self.others.next());
                Some(name)
            }
            Err(token) => {
                put(&mut self.next, Some(token));
                None
            }
        }
    }

    /// What a string says.
    pub fn text(&mut self) -> Option<Text>
        ensures { Takes quoted_of self.old result self.new }
    {
        let Some(token) = self.next.take() else {
            return None;
        };
        match into_text(token) {
            Ok(text) => {
                put(&mut self.next, self.others.next());
                Some(text)
            }
            Err(token) => {
                put(&mut self.next, Some(token));
                None
            }
        }
    }

    /// The place of a mark that has to come next.
    pub fn expect_mark(&mut self, mark: Mark) -> Result<u32, Stop>
        ensures { Does (one (place_of mark) self.old) result self.new }
    {
        self.mark(mark).ok_or(Stop::Unexpected)
    }

    /// A name that has to come next.
    pub fn expect_name(&mut self) -> Result<Name, Stop>
        ensures { Does (one name_of self.old) result self.new }
    {
        self.name().ok_or(Stop::Unexpected)
    }
}
