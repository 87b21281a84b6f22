//! The lines of a dump, as they are written.
ghost use Rattle.std.specs.Prelude.{◌≡◌, ◌++◌, IfOk, OnOk, string_bytes};
ghost use Rattle.xform_rules.specs.Rules.{rule_name};
ghost use Rattle.command_line.specs.Options.{root_word as the_root_word};
ghost use Rattle.dump_replay.specs.Lines.{off_line as the_off_line, print_line as the_print_line};

use query_core::{RootDist, sets};
use std::alloc::{AllocError, Global};
use xform_rules::Rule;

/// The word for where the result is wanted.
pub fn root_word(root: RootDist) -> &'static str
    ensures { result.now ≡ the_root_word root }
{
    match root {
        RootDist::One => "one",
        RootDist::Spread => "spread",
    }
}

/// The line of the rules that are off: their names, in the order of their numbers.
pub fn off_line(alloc: Global, off: u32) -> Result<String, AllocError>
    ensures { IfOk result (λ line. string_bytes line ≡ the_off_line off) }
{
    let mut line = String::from_str(alloc, "off")?;
    let mut before = " ";
    for rule in &Rule::all() {
        if sets::has(off, rule.number()) {
            push_name(&mut line, before, *rule)?;
            before = "+";
        }
    }
    Ok(line)
}

// Adds the name of one rule more.
fn push_name(line: &mut String, before: &str, rule: Rule) -> Result<(), AllocError>
    ensures { OnOk result (string_bytes line.new
        ≡ (string_bytes line.old ++ before.now) ++ rule_name rule) }
{
    line.push_str(before)?;
    line.push_str(rule.name())
}

/// The line of what is printed behind the plan.
pub fn print_line(memo: bool, trace: bool) -> &'static str
    ensures { result.now ≡ the_print_line memo trace }
{
    match (memo, trace) {
        (false, false) => "print",
        (true, false) => "print memo",
        (false, true) => "print trace",
        (true, true) => "print memo trace",
    }
}
