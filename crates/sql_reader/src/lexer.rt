//! The tokens of a text.

ghost use Rattle.std.specs.Prelude.{◌≡◌, ◌≤◌, ◌^◌, length, OnOk, IfOk};
ghost use Rattle.sql_reader.specs.Lexing.{called, is_open, IsLexed};
ghost use Rattle.sql_reader.specs.Adding.{added, extended};

use crate::pieces::piece;
use crate::tokens::{Kind, Mark, Token};
use crate::words::function_named;
use std::alloc::{AllocError, Global};

/// What a token is before `(`.
fn called_kind(kind: Kind) -> Kind
    ensures { result ≡ called kind }
{
    match kind {
        Kind::Name(text) => match function_named(text.as_str().as_bytes()) {
            Some(function) => Kind::Function(function),
            None => Kind::Name(text),
        },
        Kind::Mark(mark) => Kind::Mark(mark),
        Kind::Function(function) => Kind::Function(function),
        Kind::Integer(number) => Kind::Integer(number),
        Kind::Quoted(text) => Kind::Quoted(text),
    }
}

fn is_open_kind(kind: &Kind) -> bool
    ensures { result ≡ is_open kind.now }
{
    matches!(kind, Kind::Mark(Mark::Open))
}

/// Adds a token. Before `(` the last one may turn out to be a function.
fn add(tokens: &mut Vec<Token>, token: Token) -> Result<(), AllocError>
    ensures { OnOk result (tokens.new.items ≡ added tokens.old.items token) }
{
    if !is_open_kind(&token.kind) {
        tokens.push(token)?;
        return Ok(());
    }
    if let Some(last) = tokens.pop() {
        tokens.push(Token {
            at: last.at,
            kind: called_kind(last.kind),
        })?;
        tokens.push(token)?;
        return Ok(());
    }
    tokens.push(token)?;
    Ok(())
}

fn add_piece(tokens: &mut Vec<Token>, at: u32, kind: Option<Kind>) -> Result<(), AllocError>
    ensures { OnOk result (tokens.new.items ≡ extended tokens.old.items at kind) }
{
    match kind {
        Some(kind) => add(tokens, Token { at, kind }),
        None => Ok(()),
    }
}

/// The tokens up to the first byte at which no piece begins, and the bytes from there on.
pub fn lex(alloc: Global, text: &[u8]) -> Result<(Vec<Token>, &[u8]), AllocError>
    requires { length text.now ≤ 2 ^ 16 }
    ensures { IfOk result (λ found. IsLexed text.now found.0.items found.1.now) }
{
    let mut tokens = Vec::new(alloc);
    let mut rest = text;
    'pieces: loop {
        match piece(alloc, rest)? {
            None => return Ok((tokens, rest)),
            Some((kind, more)) => {
                add_piece(&mut tokens, (text.len() - rest.len()) as u32, kind)?;
                rest = more;
            }
        }
    }
}
