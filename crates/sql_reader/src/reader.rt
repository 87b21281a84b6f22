//! The reader of queries.

ghost use Rattle.std.specs.Prelude.{◌≡◌, ◌≢◌, ◌≤◌, ◌<◌, ◌^◌, ◌↔◌, ◌⊎◌, ℕ, List, length, Result, Ok, IfOk, IfErr};
ghost use Rattle.sql_reader.specs.declared.syntax.Select.{Select};
ghost use Rattle.sql_reader.specs.declared.faults.SqlFault.{SqlFault};
ghost use Rattle.sql_reader.specs.Pieces.{is_control};
ghost use Rattle.sql_reader.specs.Steps.{Stopped};
ghost use Rattle.sql_reader.specs.Reading.{parse_at};
ghost use Rattle.sql_reader.specs.Doing.{Fails};
ghost use Rattle.sql_reader.specs.Faults.{place, IsFirst, KeepsLimits, Spells, IsReading};
ghost use Rattle.orca_base.specs.Checked.{Yields};
ghost use Rattle.sql_reader.specs.Readable.{IsReadable};
ghost use Rattle.sql_reader.specs.Spellable.{IsPlain};
ghost use Rattle.sql_reader.specs.Outcome.{bad_byte, first_bad, stuck_at, sooner, earlier, accepted, outcome};

use crate::clauses::query;
use crate::faults::SqlFault;
use crate::lexer::lex;
use crate::stops::Stop;
use crate::syntax::Select;
use crate::token_stream::TokenStream;
use std::alloc::Global;

fn is_control_byte(byte: u8) -> bool
    ensures { result ≡ is_control byte }
{
    if byte < 32 {
        byte != b'\t' && byte != b'\n' && byte != b'\r'
    } else {
        byte == 127
    }
}

fn fault_of_byte(at: u32, byte: u8) -> Option<SqlFault>
    ensures { result ≡ bad_byte at byte }
{
    if byte >= 128 {
        Some(SqlFault::NotAscii { at })
    } else if is_control_byte(byte) {
        Some(SqlFault::Token { at })
    } else {
        None
    }
}

/// The first byte that may stand nowhere.
fn first_bad_byte(text: &[u8]) -> Option<SqlFault>
    requires { length text.now ≤ 2 ^ 16 }
    ensures { result ≡ first_bad 0 text.now }
{
    for (at, byte) in text.iter().enumerate() {
        let fault = fault_of_byte(at as u32, *byte);
        if fault.is_some() {
            return fault;
        }
    }
    None
}

/// Where bytes are left, no token begins there.
fn stuck(rest: &[u8], len: u32) -> Option<SqlFault>
    requires { length rest.now ≤ len }
    ensures { result ≡ stuck_at rest.now len }
{
    if rest.is_empty() {
        None
    } else {
        Some(SqlFault::Token {
            at: len - rest.len() as u32,
        })
    }
}

fn place_of_fault(fault: SqlFault) -> u32
    ensures { result ≡ place fault }
{
    match fault {
        SqlFault::TooLong | SqlFault::Memory => 0,
        SqlFault::NotAscii { at }
        | SqlFault::Token { at }
        | SqlFault::Grammar { at }
        | SqlFault::TooMany { at, .. } => at,
    }
}

/// The second fault where it stands before the first.
fn sooner_fault(first: Option<SqlFault>, second: SqlFault) -> SqlFault
    ensures { result ≡ sooner first second }
{
    match first {
        Some(first) if place_of_fault(second) >= place_of_fault(first) => first,
        _ => second,
    }
}

fn earlier_fault(first: Option<SqlFault>, second: Option<SqlFault>) -> Option<SqlFault>
    ensures { result ≡ earlier first second }
{
    match second {
        Some(second) => Some(sooner_fault(first, second)),
        None => first,
    }
}

/// A query, and nothing behind it.
#[tactic(auto, unfolding(crate::specs::Reading::parse_at))]
fn parse(alloc: Global, tokens: &mut TokenStream) -> Result<Select, Stop>
    ensures ok { IfOk result (λ select. parse_at tokens.old ≡ Ok select) }
    ensures err { IfErr result (λ stop. Fails (parse_at tokens.old) stop tokens.new) }
{
    let select = query(alloc, tokens)?;
    match tokens.peek() {
        Some(_) => Err(Stop::Unexpected),
        None => Ok(select),
    }
}

/// The fault at which the parser stopped, or one that stands before it.
fn refusal(
    before: Option<SqlFault>,
    stop: Stop,
    tokens: &TokenStream,
    end: u32,
) -> Result<Select, SqlFault>
    ensures { (parsed : Result Select Stopped) → Fails parsed stop tokens.now
        → Yields SqlFault.Memory (outcome before parsed end) result }
{
    let at = tokens.place(end);
    match stop {
        Stop::Unexpected => Err(sooner_fault(before, SqlFault::Grammar { at })),
        Stop::TooMany(what) => Err(sooner_fault(before, SqlFault::TooMany { what, at })),
        Stop::Memory => Err(SqlFault::Memory),
    }
}

/// The query, unless a fault stands before its end.
fn accepted(before: Option<SqlFault>, select: Select) -> Result<Select, SqlFault>
    ensures { result ≡ accepted before select }
{
    match before {
        Some(fault) => Err(fault),
        None => Ok(select),
    }
}

/// What the parser says, or a fault that stands before it.
fn answer(
    alloc: Global,
    before: Option<SqlFault>,
    mut tokens: TokenStream,
    end: u32,
) -> Result<Select, SqlFault>
    ensures { Yields SqlFault.Memory (outcome before (parse_at tokens) end) result }
{
    let answer = match parse(alloc, &mut tokens) {
        Ok(select) => accepted(before, select),
        Err(stop) => refusal(before, stop, &tokens, end),
    };
    // Let go of here alone, and not at each way out, so that the prover meets it once.
    drop(tokens);
    answer
}

/// The query that a text is. Its reading, or its first fault unless memory ran out.
pub fn read_sql(alloc: Global, text: &[u8]) -> Result<Select, SqlFault>
    ensures ok { IfOk result (IsReading text.now) }
    ensures readable { IfOk result IsReadable }
    ensures fault { IfErr result (λ fault. fault ≢ SqlFault.Memory → IsFirst text.now fault) }
    ensures too_long { 2 ^ 16 < length text.now → result ≡ Err SqlFault.TooLong }
{
    if text.len() > 65_536 {
        return Err(SqlFault::TooLong);
    }
    let (tokens, rest) = lex(alloc, text)?;
    let end = text.len() as u32;
    let before = earlier_fault(first_bad_byte(text), stuck(rest, end));
    answer(alloc, before, TokenStream::of(tokens), end)
}

/// A text has one reading, or one first fault, and never both. So `read_sql` gives `Ok` and each
/// fault exactly where they are due, unless memory runs out.
pub fn one_outcome()
    ensures some { (text : List ℕ) → ((select : Select) × IsReading text select)
        ⊎ ((f : SqlFault) × IsFirst text f) }
    ensures reading { (text : List ℕ) (a b : Select) → IsReading text a → IsReading text b → a ≡ b }
    ensures fault { (text : List ℕ) (f g : SqlFault) → IsFirst text f → IsFirst text g → f ≡ g }
    ensures either { (text : List ℕ) (select : Select) (f : SqlFault) →
        IsReading text select → IsFirst text f → ⊥ }
    ensures too_long { (text : List ℕ) → IsFirst text SqlFault.TooLong ↔ (2 ^ 16 < length text) }
{}

/// What a text is read as: the query that it spells by the grammar, where that keeps the limits,
/// each byte is plain and the text isn't too long. Whatever its length, it spells one such query.
pub fn readings()
    ensures read { (text : List ℕ) (select : Select) → IsReading text select
        ↔ (Spells text select × KeepsLimits select × IsPlain text × (length text ≤ 2 ^ 16)) }
    ensures one { (text : List ℕ) (a b : Select) →
        Spells text a → KeepsLimits a → Spells text b → a ≡ b }
{}
