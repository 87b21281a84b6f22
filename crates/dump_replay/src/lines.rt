//! The lines of a dump, as they are read: what each says, and what is behind it; none where no such line comes next.
ghost use Rattle.std.specs.Prelude.{◌≡◌, ◌≢◌, ◌++◌, ℕ, Bool, List, [], Some, codes, IfOk, IfSome, MatchOption, IsUtf8};
ghost use Rattle.std.specs.Bool.{Decides};
ghost use Rattle.command_line.specs.Numbers.{IsWithin};
ghost use Rattle.query_stage.specs.OffRules.{MayBeOff};
ghost use Rattle.dump_replay.specs.Lines.{BeginsWithLine, HasForm, Lacks, version as the_version};
ghost use Rattle.dump_replay.specs.Lines.{capacity as the_capacity, root as the_root, off as the_off};
ghost use Rattle.dump_replay.specs.Lines.{print as the_print, catalog as the_catalog, query as the_query};
ghost use Rattle.dump_replay.specs.Lines.{version_line as the_version_line, capacity_line as the_capacity_line};
ghost use Rattle.dump_replay.specs.Lines.{root_line as the_root_line, off_line as the_off_line};
ghost use Rattle.dump_replay.specs.Lines.{print_line as the_print_line, catalog_line as the_catalog_line};
ghost use Rattle.dump_replay.specs.Lines.{query_line as the_query_line, sections_word};

use crate::line_ends::cut_line;
use crate::spelling::off_line;
use command_line::{number_within, read_off, read_root};
use query_core::RootDist;
use std::alloc::{AllocError, Global};
use std::str;

/// The first line. Nothing but what is behind it is told.
pub fn version_line(text: &[u8]) -> Option<&[u8]>
    ensures { MatchOption result (Lacks the_version text.now)
        (λ rest. BeginsWithLine the_version text.now the_version_line rest.now) }
{
    let cut = cut_line(text)?;
    if is_same(cut.line, b"orca dump 1") {
        Some(cut.rest)
    } else {
        None
    }
}

/// The line of the capacity.
pub fn capacity_line(text: &[u8]) -> Option<(u32, &[u8])>
    ensures says { MatchOption result (Lacks the_capacity text.now)
        (λ found. BeginsWithLine the_capacity text.now (the_capacity_line found.0) found.1.now) }
    ensures within { IfSome result (λ found. IsWithin 64 1048576 found.0) }
{
    let cut = cut_line(text)?;
    let capacity = capacity_in(cut.line)?;
    Some((capacity, cut.rest))
}

fn capacity_in(line: &[u8]) -> Option<u32>
    ensures says { MatchOption result (HasForm the_capacity line.now → ⊥)
        (λ capacity. line.now ≡ the_capacity_line capacity) }
    ensures within { IfSome result (IsWithin 64 1048576) }
{
    let word = word_behind(line, b"capacity ")?;
    let capacity = number_within(word, 64, 1_048_576)?;
    Some(capacity as u32)
}

/// The line of where the result is wanted.
pub fn root_line(text: &[u8]) -> Option<(RootDist, &[u8])>
    ensures { MatchOption result (Lacks the_root text.now)
        (λ found. BeginsWithLine the_root text.now (the_root_line found.0) found.1.now) }
{
    let cut = cut_line(text)?;
    let root = root_in(cut.line)?;
    Some((root, cut.rest))
}

fn root_in(line: &[u8]) -> Option<RootDist>
    ensures { MatchOption result (HasForm the_root line.now → ⊥)
        (λ root. line.now ≡ the_root_line root) }
{
    let word = word_behind(line, b"root ")?;
    read_root(word)
}

/// The line of the rules that are off.
pub fn off_line_of(alloc: Global, text: &[u8]) -> Result<Option<(u32, &[u8])>, AllocError>
    ensures says { IfOk result (λ found. MatchOption found (Lacks the_off text.now)
        (λ found. BeginsWithLine the_off text.now (the_off_line found.0) found.1.now)) }
    ensures allowed { IfOk result (λ found. IfSome found (λ found. MayBeOff found.0)) }
{
    let Some(cut) = cut_line(text) else {
        return Ok(None);
    };
    match off_in(alloc, cut.line)? {
        Some(off) => Ok(Some((off, cut.rest))),
        None => Ok(None),
    }
}

// The rules of the line, where it is the one that is written for them.
fn off_in(alloc: Global, line: &[u8]) -> Result<Option<u32>, AllocError>
    ensures says { IfOk result (λ found. MatchOption found (HasForm the_off line.now → ⊥)
        (λ set. line.now ≡ the_off_line set)) }
    ensures allowed { IfOk result (λ found. IfSome found MayBeOff) }
{
    let Some(off) = rules_in(line) else {
        return Ok(None);
    };
    let spelled = off_line(alloc, off)?;
    if spelled.as_bytes() == line {
        Ok(Some(off))
    } else {
        Ok(None)
    }
}

// The rules that the line names, in whatever order.
fn rules_in(line: &[u8]) -> Option<u32>
    ensures only { (set : ℕ) → MayBeOff set → line.now ≡ the_off_line set → result ≡ Some set }
    ensures allowed { IfSome result MayBeOff }
{
    if is_same(line, b"off") {
        return Some(0);
    }
    let word = word_behind(line, b"off ")?;
    let set = read_off(word)?;
    Some(set.bits)
}

/// The line of the sections that are printed: whether the memo is, and whether the trace is.
pub fn print_line(text: &[u8]) -> Option<((bool, bool), &[u8])>
    ensures { MatchOption result (Lacks the_print text.now)
        (λ found. BeginsWithLine the_print text.now
        (the_print_line found.0.0 found.0.1) found.1.now) }
{
    let cut = cut_line(text)?;
    let sections = sections_in(cut.line)?;
    Some((sections, cut.rest))
}

fn sections_in(line: &[u8]) -> Option<(bool, bool)>
    ensures { MatchOption result (HasForm the_print line.now → ⊥)
        (λ sections. line.now ≡ the_print_line sections.0 sections.1) }
{
    let word = word_behind(line, b"print")?;
    sections_of(word)
}

fn sections_of(word: &str) -> Option<(bool, bool)>
    ensures found { IfSome result (λ sections. word.now ≡ sections_word sections.0 sections.1) }
    ensures only { (memo trace : Bool) → word.now ≡ sections_word memo trace
        → result ≡ Some (memo, trace) }
{
    match word {
        "" => Some((false, false)),
        " memo" => Some((true, false)),
        " trace" => Some((false, true)),
        " memo trace" => Some((true, true)),
        _ => None,
    }
}

/// The line of the catalogue.
pub fn catalog_line(text: &[u8]) -> Option<(&[u8], &[u8])>
    ensures { MatchOption result (Lacks the_catalog text.now)
        (λ found. BeginsWithLine the_catalog text.now (the_catalog_line found.0.now) found.1.now) }
{
    let cut = cut_line(text)?;
    let catalog = behind(cut.line, b"catalog ")?;
    Some((catalog, cut.rest))
}

/// The line of the query, which goes to the end of the text.
pub fn query_line(text: &[u8]) -> Option<&[u8]>
    ensures { MatchOption result (Lacks the_query text.now)
        (λ query. BeginsWithLine the_query text.now (the_query_line query.now) []) }
{
    let rest = behind(text, b"query ")?;
    before_newline(rest)
}

fn is_same(bytes: &[u8], others: &[u8]) -> bool
    ensures { Decides result (bytes.now ≡ others.now) }
{
    bytes == others
}

// What is behind the piece with which the text begins.
fn behind<'t>(text: &'t [u8], piece: &[u8]) -> Option<&'t [u8]>
    ensures { MatchOption result ((rest : List ℕ) → text.now ≢ piece.now ++ rest)
        (λ rest. text.now ≡ piece.now ++ rest.now) }
{
    text.strip_prefix(piece)
}

// What is before the newline with which the text ends.
fn before_newline(text: &[u8]) -> Option<&[u8]>
    ensures { MatchOption result ((front : List ℕ) → text.now ≢ front ++ codes "\n")
        (λ front. text.now ≡ front.now ++ codes "\n") }
{
    text.strip_suffix(b"\n")
}

// The word behind a name, where the line begins with the name.
fn word_behind<'t>(line: &'t [u8], name: &[u8]) -> Option<&'t str>
    ensures { MatchOption result
        ((word : List ℕ) → IsUtf8 word → line.now ≢ name.now ++ word)
        (λ word. line.now ≡ name.now ++ word.now) }
{
    let word = behind(line, name)?;
    word_of(word)
}

fn word_of(bytes: &[u8]) -> Option<&str>
    ensures { MatchOption result (IsUtf8 bytes.now → ⊥) (λ word. word.now ≡ bytes.now) }
{
    str::from_utf8(bytes).ok()
}
